// The frames of a list that can be cut, one after the other.
ghost use Rattle.std.specs.Prelude.{◌≡◌, ◌++◌, ◌+◌, ◌*◌, ◌/◌, ◌≤◌, ◌<◌, min, take, drop};
ghost use Rattle.profile.specs.Profile.{listed};
ghost use Rattle.profile.specs.Cutting.{rising, no_frames};
ghost use Rattle.profile.specs.Arms.{made_part};

use frame::{Frame, Header};
use record_corrections::Correction;

// The header of frame number `i`: its sequence is `i` more, modulo 8.
fn risen(header: Header, i: usize) -> Header
    requires { i ≤ 5 }
    ensures { result ≡ rising header i }
{
    Header {
        sequence: ((usize::from(header.sequence) + i) % 8) as u8,
        ..header
    }
}

// An array that begins with the three entries from number `from` on.
fn part_of(mut entries: [Correction; 18], from: usize) -> [Correction; 18]
    requires { from + 3 ≤ 18 }
    ensures { take 3 result ≡ take 3 (drop from entries) }
{
    entries.copy_within(from..from + 3, 0);
    entries
}

// How many of the entries that are left a frame has: three at most.
fn part_size(left: usize) -> usize
    ensures { result ≡ min 3 left }
{
    left.min(3)
}

// Frame number `i`, of three entries or of those that are left.
fn cut_frame(header: Header, entries: [Correction; 18], count: usize, i: usize) -> Frame
    requires { (count ≤ 18) × (3 * i < count) }
    ensures { result ≡ made_part header (take count entries) i }
{
    let above = risen(header, i);
    let part = part_of(entries, 3 * i);
    let size = part_size(count - 3 * i);
    let made = record_corrections::make_corrections(above, part, size);
    made.frame
}

// The frames of the first `count` entries, six in all with the blank ones behind them.
pub(crate) fn cut_all(header: Header, entries: [Correction; 18], count: usize) -> [Frame; 6]
    requires { count ≤ 18 }
    ensures { result ≡ listed (made_part header (take count entries)) ((count + 2) / 3) 0 ++ drop ((count + 2) / 3) no_frames }
{
    let number = count.div_ceil(3);
    let mut frames = [frame::no_frame(); 6];
    for i in 0..number {
        frames[i] = cut_frame(header, entries, count, i);
    }
    frames
}

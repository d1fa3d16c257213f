// What the layouts share: the stages of reading, with the count of a list and the place of an entry, and the one way in which a frame is made.
#![tactic(auto)]

mod checks;

ghost use Rattle.std.specs.Prelude.{◌≡◌};
ghost use Rattle.record_stages.specs.Stages.{asked_of, entries_in, index_of, count_after, place_after, size_of};
ghost use Rattle.record_stages.specs.Stages.{refused_made, made_by};

use crate::checks::{Suited, entry_refusal, suits};
use frame::{Frame, Header, Layout};
use record_fields::Rows;

// Whether a type number has the layout that is asked for; another one is refusal 6.
#[derive(Clone, Copy)]
pub enum Asked {
    Same,
    Other,
}

// Whether N is the one that the type has; another one is refusal 8.
#[derive(Clone, Copy)]
pub enum Size {
    Right,
    Wrong,
}

// Whether an entry's number is below the count; one past it is refusal 9.
#[derive(Clone, Copy)]
enum Indexed {
    Below,
    Past,
}

// Whether every number of a record is in its range; one that is not is refusal 10.
#[derive(Clone, Copy)]
pub enum Ranged {
    Inside,
    Outside,
}

// The bit at which an entry starts, or the refusal's number.
#[derive(Clone, Copy)]
pub enum Place {
    At(u32),
    Refused(u8),
}

// A number of entries or characters, or the refusal's number.
#[derive(Clone, Copy)]
pub enum Count {
    Of(usize),
    Refused(u8),
}

// Whether a frame is made, or the refusal's number.
#[derive(Clone, Copy)]
pub enum Making {
    Done,
    Refused(u8),
}

// A made frame; where making is refused, the blank frame.
#[derive(Clone, Copy)]
pub struct Made {
    pub answer: Making,
    pub frame: Frame,
}

// Whether a type number has the layout that is asked for.
pub fn asked_of(layout: Layout, kind: u8) -> Asked
    ensures { result ≡ asked_of layout kind }
{
    let found = frame::layout_number(frame::layout_of(kind));
    let asked = frame::layout_number(layout);
    if found == asked {
        return Asked::Same;
    }
    // Only `CorrectionOrNull`, 6, serves two others: corrections, 0, and null, 3.
    if found != 6 {
        return Asked::Other;
    }
    if asked == 0 {
        return Asked::Same;
    }
    if asked == 3 {
        return Asked::Same;
    }
    Asked::Other
}

// How many entries of `width` bits N words hold behind a head of `head` bits, where N is what they take and at most 31.
fn entries_in(head: usize, width: usize, n: usize) -> Option<usize>
    ensures { result ≡ entries_in head width n }
{
    if n > 31 || head > 24 * n || width == 0 {
        return None;
    }
    let count = (24 * n - head) / width;
    if count == 0 || (head + count * width).div_ceil(24) != n {
        return None;
    }
    Some(count)
}

// How many entries of `width` bits a frame of a layout has behind a head of `head` bits: 5, 6, 7, 8.
pub fn count_in(layout: Layout, head: usize, width: usize, frame: Frame) -> Count
    ensures { result ≡ count_after layout head width frame }
{
    let Ok(()) = frame::frame_widths(frame) else {
        return Count::Refused(5);
    };
    let header = frame.header;
    let Asked::Same = asked_of(layout, header.kind) else {
        return Count::Refused(6);
    };
    let Ok(()) = frame::clock_of(header.z) else {
        return Count::Refused(7);
    };
    let Some(count) = entries_in(head, width, frame.n) else {
        return Count::Refused(8);
    };
    Count::Of(count)
}

// Whether an entry's number is below the count.
fn index_of(count: usize, index: usize) -> Indexed
    ensures { result ≡ index_of count index }
{
    if count <= index {
        return Indexed::Past;
    }
    Indexed::Below
}

// Where entry number `index` of `width` bits starts in a frame of a layout, behind a head of `head` bits: 5, 6, 7, 8, 9.
pub fn entry_place(layout: Layout, head: usize, width: usize, frame: Frame, index: usize) -> Place
    ensures { result ≡ place_after layout head width frame index }
{
    let Ok(()) = frame::frame_widths(frame) else {
        return Place::Refused(5);
    };
    let header = frame.header;
    let Asked::Same = asked_of(layout, header.kind) else {
        return Place::Refused(6);
    };
    let Ok(()) = frame::clock_of(header.z) else {
        return Place::Refused(7);
    };
    let Some(count) = entries_in(head, width, frame.n) else {
        return Place::Refused(8);
    };
    let Indexed::Below = index_of(count, index) else {
        return Place::Refused(9);
    };
    Place::At((head + index * width) as u32)
}

// Whether N is the one that the type has.
pub fn size_of(wanted: usize, n: usize) -> Size
    ensures { result ≡ size_of wanted n }
{
    if n == wanted {
        return Size::Right;
    }
    Size::Wrong
}

// A refusal, with the blank frame.
fn refused(number: u8) -> Made
    ensures { result ≡ refused_made number }
{
    Made {
        answer: Making::Refused(number),
        frame: frame::no_frame(),
    }
}

// A frame of the rows of `count` entries, its last word filled: 5, 6, 7, 12, then 10 or 11. A record that is no list is one entry of one.
pub fn make_frame(
    layout: Layout,
    most: usize,
    fill: u32,
    header: Header,
    count: usize,
    rows: Rows,
) -> Made
    ensures { result ≡ made_by layout most fill header count rows }
{
    let suited = suits(layout, header, most, count);
    if let Suited::Refused(n) = suited {
        return refused(n);
    }
    if rows.out {
        return refused(entry_refusal(layout));
    }
    let packer = rows.packer;
    let full = record_fields::fill_up(packer, fill);
    let words = full.words;
    Made {
        answer: Making::Done,
        frame: frame::built(header, full.whole, words),
    }
}

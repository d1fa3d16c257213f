// The hunt for a frame over the bits held.
ghost use Rattle.std.specs.Prelude.{◌≡◌, ◌+◌, ◌-◌, ◌*◌, ◌%◌, ◌^◌, ◌<◌, ◌≤◌, Bool, length, count_ones, nat_le};
ghost use Rattle.bits.specs.Bits.{is_odd, bits};
ghost use Rattle.frame.specs.Header.{n_of};
ghost use Rattle.word.specs.Word.{data_of};
ghost use Rattle.stream.specs.Standing.{size};
ghost use Rattle.reader.specs.Cells.{held_bits};
ghost use Rattle.reader.specs.Hunting.{hunt_of, counted_as, headless_at, looked_at, Headless, Passing, Remembered, remembered_by, GlancedAt};
ghost use Rattle.reader.specs.declared.Tally.{Tally};

use crate::Tally;

// Where a hunt stops: the bits left from two before that position on, how many of its words are known right (0 where a frame stands), whether a
// frame stands there, and the positions counted so far.
#[derive(Clone, Copy)]
pub struct Halt {
    pub left: usize,
    pub words: usize,
    pub found: bool,
    pub tally: Tally,
}

// One position more that a word with this remainder ruled out.
fn counted(tally: Tally, remainder: u32) -> Tally
    ensures { result ≡ counted_as tally (is_odd (count_ones remainder)) }
{
    if remainder.count_ones() % 2 == 0 {
        return Tally {
            even: tally.even.wrapping_add(1),
            ..tally
        };
    }
    Tally {
        odd: tally.odd.wrapping_add(1),
        ..tally
    }
}

// Word k of a candidate is the first and lacks the preamble.
fn lacks_preamble(k: usize, window: u32) -> bool
    ensures { result ≡ headless_at k (bits 32 window) }
{
    if k != 0 {
        return false;
    }
    !frame::has_preamble(word::data_of(window))
}

// A look at word k of a candidate: of the first the preamble, which is not counted, then the word test. It is right, or it rules its position out and these
// are the counters with it.
fn look(k: usize, window: u32, tally: Tally) -> Result<(), Tally>
    ensures { result ≡ looked_at k (bits 32 window) tally }
{
    if lacks_preamble(k, window) {
        return Err(tally);
    }
    let told = word::test(window);
    if let Err(remainder) = told {
        return Err(counted(tally, remainder));
    }
    Ok(())
}

// N, in the window of a second word.
pub(crate) fn n_in(window: u32) -> usize
    ensures { result ≡ n_of (data_of (bits 32 window)) }
{
    frame::n_of(word::data_of(window))
}

// So many words of a candidate, which have come, are all of its frame: the header's two and N.
fn whole(cells: &[u32; 40], end: usize, left: usize, words: usize) -> bool
    requires { (length cells.now ≡ 40) × (end ≤ 1280) × (left ≤ end) × (2 + 30 * words ≤ left) }
    ensures { result ≡ nat_le (size (held_bits cells.now end left)) words }
{
    if words < 2 {
        return false;
    }
    let n = n_in(crate::cells::window(cells, end - left + 30));
    n + 2 <= words
}

// A glance at the next word of a candidate: where it is the last that has come, and right, the hunt stops here. It is tested by division, since a second
// place that asks the tables would take them out of the hunt's loop.
pub(crate) fn glance(
    cells: &[u32; 40],
    end: usize,
    left: usize,
    words: usize,
    tally: Tally,
) -> Option<Halt>
    requires { (length cells.now ≡ 40) × (end ≤ 1280) × (left ≤ end) × (words ≤ 32) × (32 + 30 * words ≤ left) }
    ensures { GlancedAt cells.now end left words tally result }
{
    if 62 + 30 * words <= left {
        return None;
    }
    let w = crate::cells::window(cells, end - left + 30 * words);
    if lacks_preamble(words, w) {
        return None;
    }
    if crate::taking::left_over(w, 0) != 0 {
        return None;
    }
    if whole(cells, end, left, words + 1) {
        return Some(Halt {
            left,
            words: 0,
            found: true,
            tally,
        });
    }
    Some(Halt {
        left,
        words: words + 1,
        found: false,
        tally,
    })
}

// How many positions from bit `off` of two cells on have nine bits that are not D30* and D1 to D8 of a preamble, as it is or turned over:
// neighbours of these nine are in turn alike and unlike.
fn headless(both: u64, off: u32) -> u32
    requires { (both < 18446744073709551616) × (off < 32) }
    ensures { (result ≤ 64) × Headless both off result }
{
    let unlike = both ^ (both >> 1);
    let turns = unlike ^ (unlike >> 1);
    let two = turns & (turns >> 1);
    let four = two & (two >> 2);
    (((unlike & four) & (four >> 3)) << (9 + off)).leading_zeros()
}

// How many bits are left after so many positions, of those that two cells show from bit `off` of them on; a position has 32 bits.
fn passed(left: usize, off: usize, positions: usize) -> usize
    requires { (32 ≤ left) × (left ≤ 1280) × (off < 32) × (positions ≤ 64) }
    ensures { (result ≤ left) × (31 ≤ result) × (left ≤ result + positions) × (left + off ≤ result + 55) }
{
    let shown = positions.min(55 - off);
    if left < 31 + shown {
        return 31;
    }
    left - shown
}

// How many bits are left at the first position from here on whose preamble may stand, as far as two cells show it. The hunt from there is the
// hunt from here, so it may stop early.
pub(crate) fn seek(cells: &[u32; 40], end: usize, left: usize, words: usize) -> usize
    requires { (length cells.now ≡ 40) × (end ≤ 1280) × (left ≤ end) }
    ensures { (result ≤ left)
        × ((ended : Bool) (t : Tally) → hunt_of cells.now end left words ended t ≡ hunt_of cells.now end result words ended t) }
{
    if words != 0 {
        return left;
    }
    if left < 32 {
        return left;
    }
    let bit = end - left;
    let both = crate::cells::pair(cells, bit);
    let off = bit % 32;
    let positions = headless(both, off as u32);
    passed(left, off, positions as usize)
}

// Word k of the candidate at a bit failed: its window is remembered by its phase, the bit modulo thirty. Not so a first word; nor a word of the candidate
// that the hunt began with, since the words before it were not seen.
fn remember(fails: &mut [u16; 30], began: bool, bit: usize, k: usize)
    requires { (length fails.old ≡ 30) × (bit + 30 * k ≤ 1280) }
    ensures { fails.new ≡ remembered_by fails.old began bit k }
{
    if began {
        return;
    }
    if k == 0 {
        return;
    }
    fails[bit % 30] = (bit + 30 * k) as u16;
}

// How many words of the next candidate pass by what is remembered: those before the window of its phase that failed, so that this one is looked at next.
// The last word of its frame is looked at again, since a frame may stand there.
fn known(cells: &[u32; 40], end: usize, left: usize, fails: &[u16; 30]) -> usize
    requires { (length cells.now ≡ 40) × (end ≤ 1280) × (left ≤ end) × (length fails.now ≡ 30)
        × Remembered cells.now end (end - left) fails.now }
    ensures { (result ≤ 32) × Passing cells.now (end - left) result
        × ((ended : Bool) (t : Tally) → hunt_of cells.now end left 0 ended t ≡ hunt_of cells.now end left result ended t) }
{
    if left < 62 {
        return 0;
    }
    let bit = end - left;
    let fail = usize::from(fails[bit % 30]);
    if fail <= bit {
        return 0;
    }
    if lacks_preamble(0, crate::cells::window(cells, bit)) {
        return 0;
    }
    let n = n_in(crate::cells::window(cells, bit + 30));
    (n + 1).min((fail - bit) / 30)
}

// The hunt from word `words` of the candidate on: a word that has come and fails rules its position out, which is counted. What passed before the word
// that failed is not looked at again for the candidates that it covers.
pub(crate) fn hunt(
    cells: &[u32; 40],
    end: usize,
    held: usize,
    words: usize,
    ended: bool,
    tally: Tally,
) -> Halt
    requires { (length cells.now ≡ 40) × (end ≤ 1280) × (held ≤ end) × (words ≤ 32) }
    ensures { (result ≡ hunt_of cells.now end held words ended tally) × (result.left ≤ held) }
{
    let mut left = held;
    let mut good = words;
    let mut count = tally;
    let mut fails = [0u16; 30];
    // kept: `left` and `good` go on to what `seek` and `known` find, and not by one
    'position: while 0 < left {
        while 32 + 30 * good <= left {
            let w = crate::cells::window(cells, end - left + 30 * good);
            if let Err(more) = look(good, w, count) {
                count = more;
                remember(&mut fails, left == held, end - left, good);
                left = seek(cells, end, left - 1, 0);
                good = known(cells, end, left, &fails);
                continue 'position;
            }
            good += 1;
            if whole(cells, end, left, good) {
                return Halt {
                    left,
                    words: 0,
                    found: true,
                    tally: count,
                };
            }
        }
        if !ended {
            return Halt {
                left,
                words: good,
                found: false,
                tally: count,
            };
        }
        left -= 1;
        good = 0;
    }
    Halt {
        left: 0,
        words: good,
        found: false,
        tally: count,
    }
}

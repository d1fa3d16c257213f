// The frame that waits: its words are tested as they are taken out, or before its row is put, so that nothing but a frame that stands is handed out.
ghost use Rattle.std.specs.Prelude.{◌≡◌, ◌+◌, ◌*◌, ◌^◌, ◌<◌, ◌≤◌, true, ◌&&◌, length, ◌==◌};
ghost use Rattle.bits.specs.Bits.{bits};
ghost use Rattle.word.specs.Word.{data_of, passes};
ghost use Rattle.frame.specs.Header.{preambled};
ghost use Rattle.stream.specs.Standing.{word_at, pair_before, all_right, stands};
ghost use Rattle.reader.specs.Cells.{held_bits};
ghost use Rattle.reader.specs.Taking.{there_in, HeaderIn};

use crate::cells::window;
use crate::hunt::n_in;
use frame::{Carried, Frame, Header};

// The two bits before a word, which are the first of its window.
pub(crate) fn pair_of(window: u32) -> Carried
    ensures { result ≡ pair_before (bits 32 window) }
{
    let one = (window / 2147483648 % 2) as u8;
    let two = (window / 1073741824 % 2) as u8;
    Carried { d29: one, d30: two }
}

// Two windows as one number, the first in the lower half.
fn both_of(one: u32, two: u32) -> u64
    ensures { result ≡ one + two * 2 ^ 32 }
{
    u64::from(one) + u64::from(two) * 4294967296
}

// What is left of two words when each is divided, in its half of one number: zero exactly where both pass. D29* D30* D1 to D24, D27 to D29, D25 D26
// are a word of a cyclic code, a multiple of 1 + x^2 + x^5 over two elements, and D30 makes the ones even: a factor 1 + x more. `part` and `times`
// multiply by the quotient of 1 + x^31 and the two factors, of degree 25: bits 25 to 30 are then zero where nothing is left, six ones where the ones
// alone are odd. The half below reaches bit 55 and no further.
pub(crate) fn left_over(one: u32, two: u32) -> u64
    ensures { (result == 0) ≡ passes (bits 32 one) && passes (bits 32 two) }
{
    let both = both_of(one, two);
    let round = ((both >> 1) & 9223371901563305952)
        ^ (((both << 1) & 120259084316) ^ ((both >> 4) & 12884901891));
    let part = round ^ ((round << 1) ^ ((round << 7) ^ ((round << 9) ^ (round << 10))));
    let times = part ^ ((part << 4) ^ ((part << 5) ^ ((part << 13) ^ (part << 15))));
    let even = (both % 2 * 2113929216) ^ (both / 4294967296 % 2 * 9079256848778919936);
    (times ^ even) & 9079256850892849152
}

// The first `count` words of the bits held, which begin with the preamble, pass: tested two by two, the last of an odd number with itself.
fn pass_all(cells: &[u32; 40], end: usize, held: usize, count: usize) -> bool
    requires { (length cells.now ≡ 40) × (end ≤ 1280) × (held ≤ end) × (2 + 30 * count ≤ held)
        × (preambled (data_of (word_at 0 (held_bits cells.now end held))) ≡ true) }
    ensures { result ≡ all_right count 0 (held_bits cells.now end held) }
{
    let first = end - held;
    for i in 0..count.div_ceil(2) {
        let k = 2 * i;
        let j = (k + 1).min(count - 1);
        let w = window(cells, first + 30 * k);
        let v = window(cells, first + 30 * j);
        if left_over(w, v) != 0 {
            return false;
        }
    }
    true
}

// Whether a frame stands in the bits held.
pub(crate) fn stands_in(cells: &[u32; 40], end: usize, held: usize) -> bool
    requires { (length cells.now ≡ 40) × (end ≤ 1280) × (held ≤ end) }
    ensures { result ≡ stands (held_bits cells.now end held) }
{
    if held < 62 {
        return false;
    }
    let n = n_in(window(cells, end - held + 30));
    if held < 62 + 30 * n {
        return false;
    }
    if !frame::has_preamble(word::data_of(window(cells, end - held))) {
        return false;
    }
    pass_all(cells, end, held, n + 2)
}

// All words of a header whose two words pass have come: the data words are put in, two by two, while both of the two pass.
fn filled(
    cells: &[u32; 40],
    end: usize,
    held: usize,
    header: Header,
    carried: Carried,
    n: usize,
) -> Option<Frame>
    requires { (length cells.now ≡ 40) × (end ≤ 1280) × (held ≤ end) × HeaderIn (held_bits cells.now end held) header carried n
        × (62 + 30 * n ≤ held) }
    ensures { result ≡ there_in (held_bits cells.now end held) }
{
    let first = end - held + 60;
    let mut words = [0u32; 31];
    for i in 0..n.div_ceil(2) {
        let k = 2 * i;
        let j = (k + 1).min(n - 1);
        let w = window(cells, first + 30 * k);
        let v = window(cells, first + 30 * j);
        if left_over(w, v) != 0 {
            return None;
        }
        words[k] = word::data_of(w);
        words[j] = word::data_of(v);
    }
    Some(Frame {
        header,
        carried,
        n,
        words,
    })
}

// The frame that stands in the bits held, if one does.
pub(crate) fn standing(cells: &[u32; 40], end: usize, held: usize) -> Option<Frame>
    requires { (length cells.now ≡ 40) × (end ≤ 1280) × (held ≤ end) }
    ensures { result ≡ there_in (held_bits cells.now end held) }
{
    if held < 62 {
        return None;
    }
    let one = window(cells, end - held);
    let two = window(cells, end - held + 30);
    let first = word::data_of(one);
    let second = word::data_of(two);
    let n = frame::n_of(second);
    if held < 62 + 30 * n {
        return None;
    }
    if !frame::has_preamble(first) {
        return None;
    }
    if left_over(one, two) != 0 {
        return None;
    }
    let header = frame::header_of(first, second);
    let carried = pair_of(one);
    filled(cells, end, held, header, carried, n)
}

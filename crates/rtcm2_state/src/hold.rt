// A byte that needs no hunt is fed in place: of the state its cells and four counts alone are touched.
ghost use Rattle.std.specs.Prelude.{◌≡◌, cond, List, ◌+◌, ◌*◌, ◌≤◌, ◌<◌, length, take, drop};
ghost use Rattle.bits.specs.Bits.{number};
ghost use Rattle.reader.specs.Cells.{cell_bits, pair_at, put_pair, put_cells};
ghost use Rattle.reader.specs.Reading.{fed_by};
ghost use Rattle.rtcm2_state.specs.Numbers.{numbers_in};
ghost use Rattle.rtcm2_state.specs.State.{start_size, state_size, state_in, state_put};
ghost use Rattle.rtcm2_state.specs.Holding.{takes_six, after_six, quiet_in, six_put};

use crate::number::{number_at, put_number};
use crate::{CELLS, candidate_at, ended_at, holds_state};
use reader::Candidate;

// What six bits more tell without a hunt: how many words are then known, that all words of the frame have come, or nothing.
#[derive(Clone, Copy)]
pub(crate) enum After {
    Known(usize),
    Whole,
    Untold,
}

// A cell with six bits put in at bit `off` of it, and the cell after it, as one number: the bits after the six are 0.
fn with_six(cell: u32, off: u32, six: u32) -> u64
    requires { (off < 32) × (six < 64) }
    ensures { result ≡ put_pair cell off six }
{
    let kept = u64::from(cell) >> (32 - off);
    (kept * 64 + u64::from(six)) << (58 - off)
}

// The counts of a reader that takes bits, with room for six more.
fn takes(c: Candidate, ended: bool) -> bool
    ensures { result ≡ takes_six c ended }
{
    if reader::checks::past(c) {
        return false;
    }
    if ended {
        return false;
    }
    if c.waits {
        return false;
    }
    c.end <= 1216
}

// A cell and the one after it as one number, once six bits are put in at bit `end`.
fn pair_after(k: usize, end: usize, six: u32, bytes: &[u8]) -> u64
    requires { (state_size ≤ length bytes.now) × (32 * k ≤ end) × (end ≤ 1216) × (six < 64) }
    ensures { result ≡ pair_at (put_cells (numbers_in 40 (drop start_size bytes.now)) end six) k }
{
    let last = end / 32;
    let first = u64::from(number_at(CELLS + 4 * k, bytes));
    if k + 1 < last {
        return first * 4294967296 + u64::from(number_at(CELLS + 4 * k + 4, bytes));
    }
    let both = with_six(number_at(CELLS + 4 * last, bytes), (end % 32) as u32, six);
    if k == last {
        return both;
    }
    first * 4294967296 + both / 4294967296
}

// Thirty-two bits from a bit of the buffer on, once six bits are put in at bit `end`.
fn window_after(bit: usize, end: usize, six: u32, bytes: &[u8]) -> u32
    requires { (state_size ≤ length bytes.now) × (bit ≤ end) × (end ≤ 1216) × (six < 64) }
    ensures { result ≡ number (take 32 (drop bit (cell_bits (put_cells (numbers_in 40 (drop start_size bytes.now)) end six)))) }
{
    let off = (bit % 32) as u32;
    ((pair_after(bit / 32, end, six, bytes) >> (32 - off)) % 4294967296) as u32
}

// What six bits more tell without a hunt.
fn tell(c: Candidate, six: u32, bytes: &[u8]) -> After
    requires { (state_size ≤ length bytes.now) × (c.end ≤ 1216) × (c.held ≤ c.end) × (c.words ≤ 32) × (six < 64) }
    ensures { result ≡ after_six (numbers_in 40 (drop start_size bytes.now)) c six }
{
    let words = c.words;
    if c.held + 6 < 32 + 30 * words {
        return After::Known(words);
    }
    if words < 2 {
        return After::Untold;
    }
    if 32 + 30 * words <= c.held {
        return After::Untold;
    }
    let bit = c.end - c.held;
    if !reader::division::passes(window_after(bit + 30 * words, c.end, six, bytes)) {
        return After::Untold;
    }
    let n = frame::n_of(word::data_of(window_after(bit + 30, c.end, six, bytes)));
    if n + 2 <= words + 1 {
        return After::Whole;
    }
    After::Known(words + 1)
}

// Puts six bits into the cells at bit `end`, both counts six higher, so many words known, and whether a frame waits.
fn put_six(six: u32, end: usize, held: usize, words: usize, waits: usize, bytes: &mut [u8])
    requires { (state_size ≤ length bytes.old) × (six < 64) × (end ≤ 1216) × (held ≤ 1216) }
    ensures { bytes.new ≡ six_put bytes.old end held words waits six }
{
    let at = CELLS + 4 * (end / 32);
    let both = with_six(number_at(at, bytes), (end % 32) as u32, six);
    put_number((both / 4294967296) as usize, at, bytes);
    put_number((both % 4294967296) as usize, at + 4, bytes);
    put_number(end + 6, 4, bytes);
    put_number(held + 6, 8, bytes);
    put_number(words, 12, bytes);
    put_number(waits, 20, bytes);
}

// Feeds a byte that needs no hunt to the reader that is held; false where it is not such a byte, and then no byte has changed.
pub fn hold(byte: u8, bytes: &mut [u8]) -> bool
    ensures value { result ≡ quiet_in bytes.old byte }
    ensures bytes_after { bytes.new ≡ cond (quiet_in bytes.old byte)
        (state_put (fed_by (state_in bytes.old) byte).reader bytes.old) bytes.old }
{
    if !holds_state(bytes) {
        return false;
    }
    let c = candidate_at(bytes);
    if !takes(c, ended_at(bytes)) {
        return false;
    }
    let line = line::six_of(byte);
    let Ok(six) = line else {
        return false;
    };
    match tell(c, six, bytes) {
        After::Known(words) => {
            put_six(six, c.end, c.held, words, 0, bytes);
            true
        }
        After::Whole => {
            put_six(six, c.end, c.held, 0, 1, bytes);
            true
        }
        After::Untold => false,
    }
}

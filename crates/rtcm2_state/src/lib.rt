// A reader's state as bytes that a caller lends: 49 numbers of four bytes each, low byte first.
#![tactic(auto)]

pub mod hold;
mod number;

ghost use Rattle.std.specs.Prelude.{◌≡◌, ◌≤◌, length, drop};
ghost use Rattle.std.proofs.lemmas.List.Edits.{sets};
ghost use Rattle.rtcm2_state.specs.Numbers.{numbers_written, numbers_in};
ghost use Rattle.rtcm2_state.specs.State.{start_size, state_size, state_count, counts_of, tally_of, start_of, reader_of, holds_state, state_in, too_wide};
ghost use Rattle.rtcm2_state.specs.State.{stored_by, start_put, state_put};

use crate::number::{number_at, put_number};
use reader::{Candidate, Reader, Tally};

// A state is put in bytes, or the refusal's number.
#[derive(Clone, Copy)]
pub enum Stored {
    Done,
    Refused(u8),
}

// Where the cells start: past nine numbers of four bytes.
pub(crate) const CELLS: usize = 4 * 9;

// How many bytes a state takes.
pub const SIZE: usize = CELLS + 4 * 40;

// The mark, bytes 52 32 53 32.
const MARK: u32 = 0x32533252;

// The bytes hold a state: there are enough, the mark stands first, and waits and ended are 0 or 1.
pub fn holds_state(bytes: &[u8]) -> bool
    ensures { result ≡ holds_state bytes.now }
{
    if bytes.len() < SIZE {
        return false;
    }
    if number_at(0, bytes) != MARK {
        return false;
    }
    if number_at(20, bytes) >= 2 {
        return false;
    }
    number_at(24, bytes) < 2
}

// The forty cells.
fn cells_in(bytes: &[u8]) -> [u32; 40]
    requires { state_size ≤ length bytes.now }
    ensures { result ≡ numbers_in 40 (drop start_size bytes.now) }
{
    let mut cells = [0u32; 40];
    for i in 0..40 {
        cells[i] = number_at(CELLS + 4 * i, bytes);
    }
    cells
}

// The counts that the first bytes of a state are.
pub(crate) fn candidate_at(bytes: &[u8]) -> Candidate
    requires { state_size ≤ length bytes.now }
    ensures { result ≡ (reader_of (numbers_in state_count bytes.now)).candidate }
{
    let end = number_at(4, bytes);
    let held = number_at(8, bytes);
    let words = number_at(12, bytes);
    let at = number_at(16, bytes);
    let waits = number_at(20, bytes);
    let odd = number_at(28, bytes);
    let even = number_at(32, bytes);
    Candidate {
        end: end as usize,
        held: held as usize,
        words: words as usize,
        at,
        waits: waits == 1,
        tally: Tally { odd, even },
    }
}

// Whether the input of such a state has ended.
pub(crate) fn ended_at(bytes: &[u8]) -> bool
    requires { state_size ≤ length bytes.now }
    ensures { result ≡ (reader_of (numbers_in state_count bytes.now)).ended }
{
    number_at(24, bytes) == 1
}

// The counts of the reader whose state the bytes hold, or of a fresh one where they hold none.
pub fn candidate_in(bytes: &[u8]) -> Candidate
    ensures { result ≡ (state_in bytes.now).candidate }
{
    if !holds_state(bytes) {
        let fresh = reader::new();
        return fresh.candidate;
    }
    candidate_at(bytes)
}

// The reader whose state the bytes hold, or a fresh one where they hold none.
pub fn state_in(bytes: &[u8]) -> Reader
    ensures { result ≡ state_in bytes.now }
{
    if !holds_state(bytes) {
        return reader::new();
    }
    let cells = cells_in(bytes);
    let candidate = candidate_at(bytes);
    Reader {
        cells,
        candidate,
        ended: ended_at(bytes),
    }
}

// Puts the mark, the counts and whether a frame waits and the input has ended.
fn put_counts(c: Candidate, ended: bool, bytes: &mut [u8])
    requires { state_size ≤ length bytes.old }
    ensures { bytes.new ≡ sets bytes.old 0 (numbers_written (counts_of c ended)) }
{
    put_number(MARK as usize, 0, bytes);
    put_number(c.end, 4, bytes);
    put_number(c.held, 8, bytes);
    put_number(c.words, 12, bytes);
    put_number(c.at as usize, 16, bytes);
    put_number(usize::from(c.waits), 20, bytes);
    put_number(usize::from(ended), 24, bytes);
}

// Puts the two counters behind them.
fn put_tally(tally: Tally, bytes: &mut [u8])
    requires { state_size ≤ length bytes.old }
    ensures { bytes.new ≡ sets bytes.old 28 (numbers_written (tally_of tally)) }
{
    put_number(tally.odd as usize, 28, bytes);
    put_number(tally.even as usize, 32, bytes);
}

// Puts all of these.
fn put_nine(c: Candidate, ended: bool, bytes: &mut [u8])
    requires { state_size ≤ length bytes.old }
    ensures { bytes.new ≡ sets bytes.old 0 (numbers_written (start_of c ended)) }
{
    put_counts(c, ended, bytes);
    put_tally(c.tally, bytes);
}

// A count that four bytes can't hold.
fn too_wide(c: Candidate) -> bool
    ensures { result ≡ too_wide c }
{
    if c.end >= 4294967296 {
        return true;
    }
    if c.held >= 4294967296 {
        return true;
    }
    c.words >= 4294967296
}

// Puts the mark, the counts, the two flags and the two counters alone, where the cells are those that stand there: 5, 13.
pub fn put_start(c: Candidate, ended: bool, bytes: &mut [u8]) -> Stored
    ensures value { result ≡ stored_by c bytes.old }
    ensures bytes_after { bytes.new ≡ start_put c ended bytes.old }
{
    if too_wide(c) {
        return Stored::Refused(5);
    }
    if bytes.len() < SIZE {
        return Stored::Refused(13);
    }
    put_nine(c, ended, bytes);
    Stored::Done
}

// Puts the forty cells.
fn put_cells(cells: &[u32; 40], bytes: &mut [u8])
    requires { (length cells.now ≡ 40) × (state_size ≤ length bytes.old) }
    ensures { bytes.new ≡ sets bytes.old start_size (numbers_written cells.now) }
{
    for (i, cell) in cells.iter().enumerate() {
        put_number(*cell as usize, CELLS + 4 * i, bytes);
    }
}

// Puts a reader's state to the first bytes: 5, 13.
pub fn put_state(reader: Reader, bytes: &mut [u8]) -> Stored
    ensures value { result ≡ stored_by reader.candidate bytes.old }
    ensures bytes_after { bytes.new ≡ state_put reader bytes.old }
{
    let candidate = reader.candidate;
    if too_wide(candidate) {
        return Stored::Refused(5);
    }
    if bytes.len() < SIZE {
        return Stored::Refused(13);
    }
    put_nine(candidate, reader.ended, bytes);
    put_cells(&reader.cells, bytes);
    Stored::Done
}

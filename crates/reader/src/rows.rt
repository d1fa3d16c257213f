// Rows: the bytes of a line fed and its frames taken in turns, each frame put as a row of bytes as it is taken.
ghost use Rattle.std.specs.Prelude.{◌≡◌, ◌+◌, ◌*◌, ◌/◌, ◌%◌, ◌≤◌, true, false, [], ◌∷◌, length};
ghost use Rattle.std.proofs.lemmas.List.Edits.{sets};
ghost use Rattle.stream.specs.Standing.{n_at, data_from, stands, frame_at};
ghost use Rattle.journal.specs.Bytes.{written};
ghost use Rattle.reader.specs.Cells.{held_bits};
ghost use Rattle.reader.specs.Reading.{past_of, candidate_bits, frame_waits, take_to};
ghost use Rattle.reader.specs.Rows.{row_of, rows_put, going, stuck, rows_turns, after_turns, no_rows, some_rows, rows_by, rows_to};

use crate::advance::{moved, run};
use crate::cells::window;
use crate::checks::past;
use crate::hunt::{hunt, n_in};
use crate::taking::{pair_of, stands_in};
use crate::{Answer, Candidate, Reader};
use frame::Carried;

// How many bytes a row takes: four for the position, two for the carried pair, and room for the longest record.
pub const ROW: usize = 4 + 2 + 102;

// What reading rows left: how many bytes were used, how many of those carry no bit, and how many rows were put.
#[derive(Clone, Copy)]
pub struct RowsRead {
    pub answer: Answer,
    pub used: usize,
    pub passed: usize,
    pub count: usize,
    pub reader: Reader,
}

// What turns left beside the cells and the rows.
#[derive(Clone, Copy)]
pub(crate) struct TurnsMade {
    pub candidate: Candidate,
    pub used: usize,
    pub passed: usize,
    pub count: usize,
}

// Puts the data of so many words of a position from byte `start` on, three bytes each.
fn put_data(cells: &[u32; 40], end: usize, held: usize, count: usize, start: usize, rows: &mut [u8])
    requires { (length cells.now ≡ 40) × (end ≤ 1280) × (held ≤ end) × (2 + 30 * count ≤ held) × (start + 3 * count ≤ length rows.old) }
    ensures { rows.new ≡ sets rows.old start (written 3 (data_from count 0 (held_bits cells.now end held))) }
{
    let first = end - held;
    for k in 0..count {
        let [_, high, middle, low] = word::data_of(window(cells, first + 30 * k)).to_be_bytes();
        let next = start + 3 * k;
        rows[next] = high;
        rows[next + 1] = middle;
        rows[next + 2] = low;
    }
}

// Puts what stands before the words in a row: the position, the two bits before the frame, the record's mark, and N.
fn put_head(at: u32, pair: Carried, n: usize, start: usize, rows: &mut [u8])
    requires { (n ≤ 31) × (start + 9 ≤ length rows.old) }
    ensures { rows.new ≡ sets rows.old start
        (at % 256 ∷ at / 256 % 256 ∷ at / 65536 % 256 ∷ at / 16777216 % 256 ∷ pair.d29 ∷ pair.d30 ∷ 0x52 ∷ 0x32 ∷ n ∷ []) }
{
    let [first, second, third, fourth] = at.to_le_bytes();
    let head = [
        first, second, third, fourth, pair.d29, pair.d30, 0x52, 0x32, n as u8,
    ];
    rows[start..start + 9].copy_from_slice(&head);
}

// Puts the row of the frame that stands at a position.
fn put_row(cells: &[u32; 40], c: Candidate, n: usize, start: usize, rows: &mut [u8])
    requires { (length cells.now ≡ 40) × (c.end ≤ 1280) × (c.held ≤ c.end) × (stands (candidate_bits cells.now c) ≡ true)
        × (n ≡ n_at (candidate_bits cells.now c)) × (start + 108 ≤ length rows.old) }
    ensures { rows.new ≡ sets rows.old start (row_of c.at (frame_at (candidate_bits cells.now c))) }
{
    let pair = pair_of(window(cells, c.end - c.held));
    put_head(c.at, pair, n, start, rows);
    put_data(cells, c.end, c.held, n + 2, start + 9, rows);
}

// Takes the frame that stands and waits: its row, and the candidate where the hunt goes on to; the input has not ended.
fn take_row(cells: &[u32; 40], c: Candidate, start: usize, rows: &mut [u8]) -> Candidate
    requires { (length cells.now ≡ 40) × (c.end ≤ 1280) × (c.held ≤ c.end) × (stands (candidate_bits cells.now c) ≡ true)
        × (start + 108 ≤ length rows.old) }
    ensures value { result ≡ take_to cells.now c false }
    ensures rows_after { rows.new ≡ sets rows.old start (row_of c.at (frame_at (candidate_bits cells.now c))) }
{
    let n = n_in(window(cells, c.end - c.held + 30));
    put_row(cells, c, n, start, rows);
    let halt = hunt(cells, c.end, c.held - 30 * (n + 2), 0, false, c.tally);
    moved(c.at, c.end, c.held, halt)
}

// Whether a frame waits: the flag says so, and one stands.
fn frame_waits(cells: &[u32; 40], c: Candidate) -> bool
    requires { (length cells.now ≡ 40) × (past_of c ≡ false) }
    ensures { result ≡ frame_waits (going cells.now c) }
{
    if !c.waits {
        return false;
    }
    stands_in(cells, c.end, c.held)
}

// Feeds and takes in turns while there is room for a row.
fn turns(cells: &mut [u32; 40], from: Candidate, bytes: &[u8], rows: &mut [u8]) -> TurnsMade
    requires { (length cells.old ≡ 40) × (past_of from ≡ false) }
    ensures result_after { after_turns cells.new result
        ≡ some_rows (rows_turns (going cells.old from) bytes.now rows.old) }
    ensures rows_after { rows.new ≡ rows_put 0 (rows_turns (going cells.old from) bytes.now rows.old).frames
        rows.old }
{
    let room = rows.len() / ROW;
    let mut c = from;
    let mut used: usize = 0;
    let mut passed: usize = 0;
    for count in 0..room {
        let ran = run(cells, c, &bytes[used..]);
        used += ran.used;
        passed += ran.passed;
        c = ran.candidate;
        if !frame_waits(cells, c) {
            return TurnsMade {
                candidate: c,
                used,
                passed,
                count,
            };
        }
        c = take_row(cells, c, ROW * count, rows);
    }
    TurnsMade {
        candidate: c,
        used,
        passed,
        count: room,
    }
}

// Whether a reader that is not past says that a frame waits where none stands.
fn is_stuck(cells: &[u32; 40], c: Candidate) -> bool
    requires { (length cells.now ≡ 40) × (past_of c ≡ false) }
    ensures { result ≡ stuck (going cells.now c) }
{
    if !c.waits {
        return false;
    }
    !frame_waits(cells, c)
}

// A refusal: nothing was fed or taken.
fn unread(reader: Reader, n: u8) -> RowsRead
    ensures { result ≡ no_rows reader n }
{
    RowsRead {
        answer: Answer::Refused(n),
        used: 0,
        passed: 0,
        count: 0,
        reader,
    }
}

// Bytes fed and frames taken in turns, until no byte is left and no frame waits, or there is no room for a row: 5, 3, 13.
pub fn read_rows(reader: Reader, bytes: &[u8], rows: &mut [u8]) -> RowsRead
    ensures value { result ≡ rows_by reader bytes.now rows.old }
    ensures rows_after { rows.new ≡ rows_to reader bytes.now rows.old }
{
    let mut next = reader;
    let c = next.candidate;
    if past(c) {
        return unread(next, 5);
    }
    if is_stuck(&next.cells, c) {
        return unread(next, 5);
    }
    if next.ended {
        return unread(next, 3);
    }
    if rows.len() < ROW {
        return unread(next, 13);
    }
    let made = turns(&mut next.cells, c, bytes, rows);
    let last = made.candidate;
    next.candidate = last;
    RowsRead {
        answer: Answer::Done,
        used: made.used,
        passed: made.passed,
        count: made.count,
        reader: next,
    }
}

// Records of one form as records of the other: one at a time, and as many of a piece of a journal as fit.
#![tactic(auto)]

ghost use Rattle.std.specs.Prelude.{◌≡◌, ◌≤◌, length};
ghost use Rattle.journal_moves.specs.Moving.{moved_by, moved_to, piece_by, piece_to};
ghost use Rattle.journal_moves.specs.declared.Way.TheVariants.{New, Old};

use journal::{Found, Kept};

// The form that records are moved to: the new one keeps the words, the old one the data.
#[derive(Clone, Copy)]
pub enum Way {
    New,
    Old,
}

// How many bytes were read and how many written, or the refusal's number.
#[derive(Clone, Copy)]
pub enum Moved {
    Done { read: usize, written: usize },
    Refused(u8),
}

// Why a run stopped: at the end of the bytes, or at a record, with the number that refuses it.
#[derive(Clone, Copy)]
pub enum Stop {
    End,
    At(u8),
}

// How far a run went: the bytes read, which are whole records, and the bytes written for them.
#[derive(Clone, Copy)]
pub struct Piece {
    pub read: usize,
    pub written: usize,
    pub stop: Stop,
}

// Renews a record that keeps the data: its frame's words after 00, at the start of the buffer. Order 14, 15, 16, 15, 16, 13.
pub fn renew(bytes: &[u8], buffer: &mut [u8]) -> Moved
    ensures value { result ≡ moved_by New bytes.now (length buffer.old) }
    ensures buffer_after { buffer.new ≡ moved_to New bytes.now buffer.old }
{
    let recalled = journal::recall(bytes);
    let answer = recalled.answer;
    match answer {
        Found::Record(read) => match journal::keep_words(recalled.frame, buffer) {
            Kept::Done(written) => Moved::Done { read, written },
            Kept::Refused(number) => Moved::Refused(number),
        },
        Found::Refused(number) => Moved::Refused(number),
    }
}

// Restores a record that keeps the words: its frame's data, at the start of the buffer. Order 14, 15, 16, 15, 16, 17, 13.
pub fn restore(bytes: &[u8], buffer: &mut [u8]) -> Moved
    ensures value { result ≡ moved_by Old bytes.now (length buffer.old) }
    ensures buffer_after { buffer.new ≡ moved_to Old bytes.now buffer.old }
{
    let recalled = journal::recall_words(bytes);
    let answer = recalled.answer;
    match answer {
        Found::Record(read) => match journal::keep(recalled.frame, buffer) {
            Kept::Done(written) => Moved::Done { read, written },
            Kept::Refused(number) => Moved::Refused(number),
        },
        Found::Refused(number) => Moved::Refused(number),
    }
}

// Moves one record.
fn move_one(way: Way, bytes: &[u8], buffer: &mut [u8]) -> Moved
    ensures value { result ≡ moved_by way bytes.now (length buffer.old) }
    ensures buffer_after { buffer.new ≡ moved_to way bytes.now buffer.old }
{
    match way {
        Way::New => renew(bytes, buffer),
        Way::Old => restore(bytes, buffer),
    }
}

// Moves record after record until the bytes end or one is refused, which with 13 is one that does not fit.
pub fn move_all(way: Way, bytes: &[u8], buffer: &mut [u8]) -> Piece
    ensures value { result ≡ piece_by way bytes.now (length buffer.old) }
    ensures buffer_after { buffer.new ≡ piece_to way bytes.now buffer.old }
    ensures read_in_bounds { (result.read ≤ length bytes.now) × (result.written ≤ length buffer.new) }
{
    let mut read: usize = 0;
    let mut written: usize = 0;
    // kept: records have lengths of their own, so no count and no iterator over the bytes gives the turns
    while read < bytes.len() {
        match move_one(way, &bytes[read..], &mut buffer[written..]) {
            Moved::Done {
                read: more,
                written: new,
            } => {
                read += more;
                written += new;
            }
            Moved::Refused(number) => {
                return Piece {
                    read,
                    written,
                    stop: Stop::At(number),
                };
            }
        }
    }
    Piece {
        read,
        written,
        stop: Stop::End,
    }
}

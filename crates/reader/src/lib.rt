// The reader: line bytes in, frames out. No slip, turned line or false start costs a frame that stands.
#![tactic(auto)]

ghost use Rattle.std.specs.Prelude.{◌≡◌};
ghost use Rattle.reader.specs.Reading.{started, fed_by, fed_all_by, ended_by, refused_taking, taken_by};

mod advance;
mod cells;
pub mod checks;
pub mod division;
mod five;
mod hunt;
pub mod rows;
mod taking;

use advance::{moved, run, step};
use checks::{Ready, past, readiness};
use frame::Frame;
use hunt::hunt;
use taking::standing;

// Positions that a word ruled out, by the ones in the remainder of that word: an odd number of them, or an even number; each modulo 2^32.
#[derive(Clone, Copy)]
pub struct Tally {
    pub odd: u32,
    pub even: u32,
}

// The position that is looked at: the bits held are the `held` ones before bit `end` of the buffer and start two bits before it; `words` of its
// words are known right; `at` is its position in the stream modulo 2^32; `waits` says that a frame stands there and waits to be taken;
// `tally` counts positions before it.
#[derive(Clone, Copy)]
pub struct Candidate {
    pub end: usize,
    pub held: usize,
    pub words: usize,
    pub at: u32,
    pub waits: bool,
    pub tally: Tally,
}

// The bits not yet decided, the position that is looked at, and whether the input has ended.
#[derive(Clone, Copy)]
pub struct Reader {
    pub cells: [u32; 40],
    pub candidate: Candidate,
    pub ended: bool,
}

// A call was carried out, or the refusal's number.
#[derive(Clone, Copy)]
pub enum Answer {
    Done,
    Refused(u8),
}

// What feeding a byte, or ending, left.
#[derive(Clone, Copy)]
pub struct Next {
    pub answer: Answer,
    pub reader: Reader,
}

// What feeding bytes left: how many were used, and how many of those carry no bit.
#[derive(Clone, Copy)]
pub struct FedAll {
    pub answer: Answer,
    pub used: usize,
    pub passed: usize,
    pub reader: Reader,
}

// What taking gave: the frame and the position of its first bit modulo 2^32.
#[derive(Clone, Copy)]
pub struct Taken {
    pub answer: Answer,
    pub at: u32,
    pub frame: Frame,
    pub reader: Reader,
}

// A reader started fresh.
pub fn new() -> Reader
    ensures { result ≡ started }
{
    Reader {
        cells: [0u32; 40],
        candidate: Candidate {
            end: 0,
            held: 0,
            words: 0,
            at: 2,
            waits: false,
            tally: Tally { odd: 0, even: 0 },
        },
        ended: false,
    }
}

// A byte fed: 5, 3, 2, 1.
pub fn feed(reader: Reader, byte: u8) -> Next
    ensures { result ≡ fed_by reader byte }
{
    let mut next = reader;
    let candidate = next.candidate;
    let ready = readiness(candidate, next.ended);
    if let Ready::Refused(n) = ready {
        return Next {
            answer: Answer::Refused(n),
            reader: next,
        };
    }
    let line = line::six_of(byte);
    let Ok(six) = line else {
        return Next {
            answer: Answer::Refused(1),
            reader: next,
        };
    };
    let stepped = step(&mut next.cells, candidate, six);
    next.candidate = stepped;
    Next {
        answer: Answer::Done,
        reader: next,
    }
}

// Bytes fed until a frame waits or none is left: 5, 3, 2.
pub fn feed_all(reader: Reader, bytes: &[u8]) -> FedAll
    ensures { result ≡ fed_all_by reader bytes.now }
{
    let mut next = reader;
    let candidate = next.candidate;
    let ready = readiness(candidate, next.ended);
    if let Ready::Refused(n) = ready {
        return FedAll {
            answer: Answer::Refused(n),
            used: 0,
            passed: 0,
            reader: next,
        };
    }
    let ran = run(&mut next.cells, candidate, bytes);
    let last = ran.candidate;
    next.candidate = last;
    FedAll {
        answer: Answer::Done,
        used: ran.used,
        passed: ran.passed,
        reader: next,
    }
}

// The input has ended: 5, 3, 2.
pub fn end(reader: Reader) -> Next
    ensures { result ≡ ended_by reader }
{
    let candidate = reader.candidate;
    let ready = readiness(candidate, reader.ended);
    if let Ready::Refused(n) = ready {
        return Next {
            answer: Answer::Refused(n),
            reader,
        };
    }
    let halt = hunt(
        &reader.cells,
        candidate.end,
        candidate.held,
        candidate.words,
        true,
        candidate.tally,
    );
    let last = moved(candidate.at, candidate.end, candidate.held, halt);
    let mut next = reader;
    next.candidate = last;
    next.ended = true;
    Next {
        answer: Answer::Done,
        reader: next,
    }
}

// Taking is refused: there is no frame beside the number.
fn untaken(reader: Reader, n: u8) -> Taken
    ensures { result ≡ refused_taking reader n }
{
    Taken {
        answer: Answer::Refused(n),
        at: 0,
        frame: frame::no_frame(),
        reader,
    }
}

// The frame that waits, and the hunt goes on at the bit after it: 5, 4.
pub fn take(reader: Reader) -> Taken
    ensures { result ≡ taken_by reader }
{
    let mut next = reader;
    let c = next.candidate;
    if past(c) {
        return untaken(next, 5);
    }
    if !c.waits {
        return untaken(next, 4);
    }
    let Some(frame) = standing(&next.cells, c.end, c.held) else {
        return untaken(next, 4);
    };
    let halt = hunt(
        &next.cells,
        c.end,
        c.held - 30 * (frame.n + 2),
        0,
        next.ended,
        c.tally,
    );
    let last = moved(c.at, c.end, c.held, halt);
    next.candidate = last;
    Taken {
        answer: Answer::Done,
        at: c.at,
        frame,
        reader: next,
    }
}

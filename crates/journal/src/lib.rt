// The journal: frames kept as records of bytes, and read back.
#![tactic(auto)]

mod form;
mod words;

ghost use Rattle.std.specs.Prelude.{◌≡◌};
ghost use Rattle.journal.specs.Journal.{recorded_by, recorded_to, kept_by, held_by, refused_recall, header_found, recalled_by};
ghost use Rattle.journal.specs.Words.{kept_words, held_words, recalled_words, recalled_either};

use crate::form::{DATA, Start, WORDS};
use crate::words::{CARRIED, is_broken, pair_of, put_windows, receive, window_of};
use frame::{Frame, Header};

// The length of the record that was written, or the refusal's number.
#[derive(Clone, Copy)]
pub enum Kept {
    Done(usize),
    Refused(u8),
}

// The length of the record that was read, or the refusal's number.
#[derive(Clone, Copy)]
pub enum Found {
    Record(usize),
    Refused(u8),
}

// What was found, and its frame; beside a refusal, the blank one.
#[derive(Clone, Copy)]
pub struct Recalled {
    pub answer: Found,
    pub frame: Frame,
}

// Writes the record of a frame whose header and N are within their widths, 24 bits of each data word as it is. Order 5, 13.
pub fn put_frame(frame: Frame, buffer: &mut [u8]) -> Kept
    ensures value { result ≡ recorded_by frame buffer.old }
    ensures buffer_after { buffer.new ≡ recorded_to frame buffer.old }
{
    let header = frame.header;
    let n = frame.n;
    let Ok((first, second)) = frame::header_words(header, n) else {
        return Kept::Refused(5);
    };
    let length = 3 * n + 9;
    if buffer.len() < length {
        return Kept::Refused(13);
    }
    DATA.put(first, second, &frame.words[..n], buffer);
    Kept::Done(length)
}

// Keeps a frame without its pair, as a record at the start of the buffer. Order 5, 13.
pub fn keep(frame: Frame, buffer: &mut [u8]) -> Kept
    ensures value { result ≡ kept_by frame buffer.old }
    ensures buffer_after { buffer.new ≡ held_by frame buffer.old }
{
    let Ok(()) = frame::frame_widths(frame) else {
        return Kept::Refused(5);
    };
    put_frame(frame, buffer)
}

// A refusal's number beside the blank frame.
fn refusal(number: u8) -> Recalled
    ensures { result ≡ refused_recall number }
{
    Recalled {
        answer: Found::Refused(number),
        frame: frame::no_frame(),
    }
}

// The header of words 1 and 2 by their data; none for another N in word 2 or a wrong preamble, which is 16.
fn header_in(n: usize, first: u32, second: u32) -> Option<Header>
    ensures { result ≡ header_found n first second }
{
    let told = frame::n_of(second);
    if n != told {
        return None;
    }
    if !frame::has_preamble(first) {
        return None;
    }
    Some(frame::header_of(first, second))
}

// Recalls the record at the start of the bytes, its frame after 00; what follows it is ignored. Order 14, 15, 16, 15, 16.
pub fn recall(bytes: &[u8]) -> Recalled
    ensures { result ≡ recalled_by bytes.now }
{
    let n = match DATA.start_of(bytes) {
        Start::N(n) => n,
        Start::Refused(number) => return refusal(number),
    };
    let first = DATA.word(0, bytes);
    let second = DATA.word(1, bytes);
    let Some(header) = header_in(n, first, second) else {
        return refusal(16);
    };
    let mut words = [0; 31];
    DATA.words_at(bytes, &mut words[..n]);
    Recalled {
        answer: Found::Record(3 * n + 9),
        frame: frame::built(header, n, words),
    }
}

// Keeps a frame's words, which start from its own pair, as a record at the start of the buffer. Order 5, 13.
pub fn keep_words(frame: Frame, buffer: &mut [u8]) -> Kept
    ensures value { result ≡ kept_words frame buffer.old }
    ensures buffer_after { buffer.new ≡ held_words frame buffer.old }
{
    let Ok(()) = frame::frame_widths(frame) else {
        return Kept::Refused(5);
    };
    let header = frame.header;
    let n = frame.n;
    let Ok((first, second)) = frame::header_words(header, n) else {
        return Kept::Refused(5);
    };
    let length = 4 * n + 11;
    if buffer.len() < length {
        return Kept::Refused(13);
    }
    let pair = frame.carried.d29 as u32 * 2 + frame.carried.d30 as u32;
    let first = window_of(pair, first);
    let second = window_of(first % 4, second);
    WORDS.put_start(n, first, second, buffer);
    put_windows(&frame.words[..n], second % 4, 11, buffer);
    Kept::Done(length)
}

// Recalls the record of words at the start of the bytes, its frame after its own pair; what follows it is ignored. Order 14, 15, 16, 15, 16, 17.
pub fn recall_words(bytes: &[u8]) -> Recalled
    ensures { result ≡ recalled_words bytes.now }
{
    let n = match WORDS.start_of(bytes) {
        Start::N(n) => n,
        Start::Refused(number) => return refusal(number),
    };
    let window = WORDS.word(0, bytes);
    let first = word::data_of(window);
    let second = word::data_of(WORDS.word(1, bytes));
    let Some(header) = header_in(n, first, second) else {
        return refusal(16);
    };
    let carried = window / CARRIED;
    if is_broken(n + 2, carried, bytes) {
        return refusal(17);
    }
    let mut words = [0; 31];
    WORDS.words_at(bytes, &mut words[..n]);
    receive(&mut words[..n]);
    Recalled {
        answer: Found::Record(4 * n + 11),
        frame: Frame {
            header,
            carried: pair_of(carried),
            n,
            words,
        },
    }
}

// Recalls the record of either form at the start of the bytes, by its mark; what follows it is ignored. Order 14, 15, 16, 15, 16, 17.
pub fn recall_either(bytes: &[u8]) -> Recalled
    ensures { result ≡ recalled_either bytes.now }
{
    match bytes {
        [_, byte, ..] if *byte == WORDS.byte => recall_words(bytes),
        _ => recall(bytes),
    }
}

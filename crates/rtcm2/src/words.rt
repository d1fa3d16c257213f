// The journal that keeps the words: a frame's record and its two carried bits to the record of its words, and back.
ghost use Rattle.std.specs.Prelude.{◌≡◌};
ghost use Rattle.answer.specs.Order.{answers};
ghost use Rattle.rtcm2.specs.Answer.{number_of, left};
ghost use Rattle.rtcm2.specs.Frames.{frame_said};
ghost use Rattle.rtcm2.specs.Words.{words_kept, words_held, words_size, live_said, back_said, back_held, d29_back, d30_back, read_back, length_back};

use frame::{Carried, Frame};
use journal::{Found, Kept};

// Keeps the words of a frame after two carried bits. Order 5, 13.
fn keep_after(value: Frame, d29: u8, d30: u8, words: &mut [u8], length: &mut usize) -> u8
    ensures value { result ≡ number_of (words_kept (answers value) d29 d30 words.old) }
    ensures words_after { words.new ≡ words_held (answers value) d29 d30 words.old }
    ensures length_after { length.new ≡ words_size (answers value) d29 d30 words.old length.old }
{
    let header = value.header;
    let data = value.words;
    let live = Frame {
        header,
        carried: Carried { d29, d30 },
        n: value.n,
        words: data,
    };
    match journal::keep_words(live, words) {
        Kept::Done(size) => {
            *length = size;
            0
        }
        Kept::Refused(number) => number,
    }
}

// Keeps the words of the frame of a journal record, which start from the two carried bits. Order 14, 15, 16, 15, 16, then 5 for a carried bit, 13.
pub fn rtcm2_keep_words(frame: &[u8], d29: u8, d30: u8, words: &mut [u8], length: &mut usize) -> u8
    ensures value { result ≡ number_of (words_kept (frame_said frame.now) d29 d30 words.old) }
    ensures words_after { words.new ≡ words_held (frame_said frame.now) d29 d30 words.old }
    ensures length_after { length.new ≡ words_size (frame_said frame.now) d29 d30 words.old length.old }
{
    let recalled = journal::recall(frame);
    let answer = recalled.answer;
    match answer {
        Found::Record(_) => keep_after(recalled.frame, d29, d30, words, length),
        Found::Refused(number) => number,
    }
}

// Gives back what was recalled: the frame's record, its two carried bits, and how many bytes were read. Order 5, 13.
fn give_back(
    size: usize,
    value: Frame,
    frame: &mut [u8],
    d29: &mut u8,
    d30: &mut u8,
    read: &mut usize,
    length: &mut usize,
) -> u8
    ensures value { result ≡ number_of (back_said (answers (size, value)) frame.old) }
    ensures frame_after { frame.new ≡ back_held (answers (size, value)) frame.old }
    ensures d29_after { d29.new ≡ left (back_said (answers (size, value)) frame.old) d29_back d29.old }
    ensures d30_after { d30.new ≡ left (back_said (answers (size, value)) frame.old) d30_back d30.old }
    ensures read_after { read.new ≡ left (back_said (answers (size, value)) frame.old) read_back read.old }
    ensures length_after { length.new ≡ left (back_said (answers (size, value)) frame.old) length_back length.old }
{
    match journal::keep(value, frame) {
        Kept::Done(kept) => {
            *d29 = value.carried.d29;
            *d30 = value.carried.d30;
            *read = size;
            *length = kept;
            0
        }
        Kept::Refused(number) => number,
    }
}

// Recalls the record of words at the start of the bytes. Order 14, 15, 16, 15, 16, 17, then 13 for the frame's own record.
pub fn rtcm2_recall_words(
    words: &[u8],
    frame: &mut [u8],
    d29: &mut u8,
    d30: &mut u8,
    read: &mut usize,
    length: &mut usize,
) -> u8
    ensures value { result ≡ number_of (back_said (live_said words.now) frame.old) }
    ensures frame_after { frame.new ≡ back_held (live_said words.now) frame.old }
    ensures d29_after { d29.new ≡ left (back_said (live_said words.now) frame.old) d29_back d29.old }
    ensures d30_after { d30.new ≡ left (back_said (live_said words.now) frame.old) d30_back d30.old }
    ensures read_after { read.new ≡ left (back_said (live_said words.now) frame.old) read_back read.old }
    ensures length_after { length.new ≡ left (back_said (live_said words.now) frame.old) length_back length.old }
{
    let recalled = journal::recall_words(words);
    let answer = recalled.answer;
    match answer {
        Found::Record(size) => give_back(size, recalled.frame, frame, d29, d30, read, length),
        Found::Refused(number) => number,
    }
}

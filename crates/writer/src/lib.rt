// The way back: frames to line bytes, six bits a byte, each word after the last two bits of the one before.
#![tactic(auto)]

ghost use Rattle.std.specs.Prelude.{◌≡◌, [], ◌∷◌, ◌+◌, ◌*◌, ◌^◌, ◌<◌, ◌≤◌, length};
ghost use Rattle.std.proofs.lemmas.List.Edits.{sets};
ghost use Rattle.bits.specs.Bits.{bits};
ghost use Rattle.frame.specs.Frames.{Below};
ghost use Rattle.writer.specs.Sending.{bytes_for, bytes_after, pair_after};
ghost use Rattle.writer.specs.Answer.{opened_by, opened_to, written_by, written_to};

use frame::{Carried, Frame};

// The lead byte is written, or the refusal's number.
#[derive(Clone, Copy)]
pub enum Opened {
    Done,
    Refused(u8),
}

// How many bytes are written and the pair that they carry on, or the refusal's number.
#[derive(Clone, Copy)]
pub enum Written {
    Done { bytes: usize, carried: Carried },
    Refused(u8),
}

// The byte that opens a stream: six zero bits.
const LEAD: u8 = 0x40;

// Opens a stream with the lead byte, at the front of the buffer.
pub fn open(buffer: &mut [u8]) -> Opened
    ensures value { result ≡ opened_by buffer.old }
    ensures buffer_after { buffer.new ≡ opened_to buffer.old }
{
    let [first, ..] = buffer else {
        return Opened::Refused(13);
    };
    *first = LEAD;
    Opened::Done
}

// The five bytes of thirty bits, from place `at` of the buffer on.
fn put_bits(word: u32, at: usize, buffer: &mut [u8])
    requires { at + 5 ≤ length buffer.old }
    ensures { buffer.new ≡ sets buffer.old at (bytes_for 5 (bits 30 word)) }
{
    buffer[at..at + 5].copy_from_slice(&[
        line::byte_of(word / 16777216),
        line::byte_of(word / 262144),
        line::byte_of(word / 4096),
        line::byte_of(word / 64),
        line::byte_of(word),
    ]);
}

// One word after the carried pair, from place `at` of the buffer on; the pair that it carries on.
fn put_word(carried: u32, data: u32, at: usize, buffer: &mut [u8]) -> u32
    requires carried_bound { carried < 4 }
    requires data_bound { «data» < 2 ^ 24 }
    requires at_in_bounds { at + 5 ≤ length buffer.old }
    ensures value { result ≡ pair_after carried («data» ∷ []) }
    ensures buffer_after { buffer.new ≡ sets buffer.old at (bytes_after carried («data» ∷ [])) }
{
    // no pair and no data within its width is refused
    let Ok(word) = word::word_of(carried, data) else {
        return carried;
    };
    put_bits(word, at, buffer);
    word % 4
}

// Words one after the other, from place `at` of the buffer on; the pair that they carry on.
fn put_words(words: &[u32], carried: u32, at: usize, buffer: &mut [u8]) -> u32
    requires below { Below words.now }
    requires carried_bound { carried < 4 }
    requires in_bounds { at + 5 * length words.now ≤ length buffer.old }
    ensures value { result ≡ pair_after carried words.now }
    ensures buffer_after { buffer.new ≡ sets buffer.old at (bytes_after carried words.now) }
{
    let mut pair = carried;
    for (i, word) in words.iter().enumerate() {
        pair = put_word(pair, *word, at + 5 * i, buffer);
    }
    pair
}

// The frame's words at the front of the buffer; the pair that they carry on.
fn put_frame(carried: u32, first: u32, second: u32, words: &[u32], buffer: &mut [u8]) -> u32
    requires carried_bound { carried < 4 }
    requires first_bound { first < 2 ^ 24 }
    requires second_bound { second < 2 ^ 24 }
    requires below { Below words.now }
    requires in_bounds { 5 * (length words.now + 2) ≤ length buffer.old }
    ensures value { result ≡ pair_after carried (first ∷ second ∷ words.now) }
    ensures buffer_after { buffer.new ≡ sets buffer.old 0 (bytes_after carried (first ∷ second ∷ words.now)) }
    ensures upper_bound { result < 4 }
{
    let pair = put_word(carried, first, 0, buffer);
    let next = put_word(pair, second, 5, buffer);
    put_words(words, next, 10, buffer)
}

// Writes a frame after the carried pair, at the front of the buffer. The frame's own pair is not looked at, but for its width.
pub fn write(frame: Frame, carried: Carried, buffer: &mut [u8]) -> Written
    ensures value { result ≡ written_by frame carried buffer.old }
    ensures buffer_after { buffer.new ≡ written_to frame carried buffer.old }
{
    if carried.d29 > 1 {
        return Written::Refused(5);
    }
    if carried.d30 > 1 {
        return Written::Refused(5);
    }
    let header = frame.header;
    let n = frame.n;
    let Ok((first, second)) = frame::header_words(header, n) else {
        return Written::Refused(5);
    };
    let Ok(()) = frame::frame_widths(frame) else {
        return Written::Refused(5);
    };
    let Ok(()) = frame::clock_of(header.z) else {
        return Written::Refused(7);
    };
    let bytes = 5 * (n + 2);
    if buffer.len() < bytes {
        return Written::Refused(13);
    }
    let pair = carried.d29 as u32 * 2 + carried.d30 as u32;
    let last = put_frame(pair, first, second, &frame.words[..n], buffer);
    Written::Done {
        bytes,
        carried: Carried {
            d29: (last / 2) as u8,
            d30: (last % 2) as u8,
        },
    }
}

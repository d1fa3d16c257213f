// What the programs of the worked vectors share: the header that vectors are made with, a frame of their words, and both and records in print.
#![tactic(auto)]

pub mod corrections;
pub mod healths;
pub mod nulls;
pub mod positions;
pub mod texts;

use frame::{Frame, Header, State};
use record_stages::{Count, Made, Making};

// The file number of standard output.
const STDOUT: i32 = 1;

// The header of a type: station 5, Z count 100, sequence 3, health 0.
pub fn header_with(kind: u8) -> Header {
    Header {
        kind,
        station: 5,
        z: 100,
        sequence: 3,
        state: State::Factor(100),
    }
}

// The frame of two header words and the data words.
pub fn frame_of(first: u32, second: u32, data: &[u32]) -> Frame {
    let mut words = [0u32; 31];
    for (word, sent) in words.iter_mut().zip(data) {
        *word = *sent;
    }
    let header = frame::header_of(first, second);
    let n = frame::n_of(second);
    frame::built(header, n, words)
}

// Writes text as it is.
pub fn print(text: &[u8]) {
    io::write_all(STDOUT, text);
}

// Writes a number behind its name.
pub fn print_number(name: &[u8], number: u64) {
    print(name);
    io::print_decimal(STDOUT, number);
}

// Writes a signed number behind its name.
pub fn print_signed(name: &[u8], number: i32) {
    print(name);
    if number < 0 {
        print(b"-");
    }
    io::print_decimal(STDOUT, u64::from(number.unsigned_abs()));
}

// Writes a refusal's number.
pub fn print_refusal(number: u8) {
    print_number(b"refused with ", number as u64);
    print(b"\n");
}

// Writes a count behind its name, or the refusal's number.
pub fn print_count(name: &[u8], count: Count) {
    match count {
        Count::Of(count) => {
            print_number(name, count as u64);
            print(b"\n");
        }
        Count::Refused(number) => print_refusal(number),
    }
}

// How many entries there are to write: none of a refusal, whose number is written.
pub fn entries_to_write(count: Count) -> usize {
    match count {
        Count::Of(count) => count,
        Count::Refused(number) => {
            print_refusal(number);
            0
        }
    }
}

// Writes a number in hexadecimal in upper case, with zeros in front up to `width` digits.
pub fn print_hex(number: u64, width: usize) {
    let mut text = [0u8; 16];
    let n = io::hex(number, width, &mut text);
    text.make_ascii_uppercase();
    print(&text[..n]);
}

// Writes bytes in hexadecimal in lower case, each with a space before it.
pub fn print_bytes(bytes: &[u8]) {
    for byte in bytes {
        print(b" ");
        io::print_hex(STDOUT, u64::from(*byte), 2);
    }
}

// Writes the 24 bits of a word with a space before them: of seven digits the first is 0, and gives its place to the space.
fn print_word(word: u32) {
    let mut text = [0u8; 16];
    io::hex(u64::from(word % 0x1000000), 7, &mut text);
    text.make_ascii_uppercase();
    text[0] = b' ';
    print(&text[..7]);
}

// Writes the first `n` of the data words.
fn print_data(words: [u32; 31], n: usize) {
    print(b"data words");
    if n == 0 {
        print(b" none");
    }
    for word in words.iter().take(n) {
        print_word(*word);
    }
    print(b"\n");
}

// Writes the header words and the data words of a frame.
pub fn print_frame(frame: Frame) {
    let header = frame.header;
    match frame::header_words(header, frame.n) {
        Ok((first, second)) => {
            print(b"header words");
            print_word(first);
            print_word(second);
            print(b"\n");
        }
        Err(refusal) => print_refusal(refusal.number()),
    }
    let words = frame.words;
    print_data(words, frame.n);
}

// Writes the words of a made frame, or the refusal's number.
pub fn print_made(made: Made) {
    let answer = made.answer;
    let frame = made.frame;
    match answer {
        Making::Done => print_frame(frame),
        Making::Refused(number) => print_refusal(number),
    }
}

// Writes a vector's name, the type and N of the frame that is read, and the words of the frame that is made.
pub fn print_vector(name: &[u8], made: Made, read: Frame) {
    let header = read.header;
    print(name);
    print_number(b" type ", header.kind as u64);
    print_number(b", N ", read.n as u64);
    print(b"\n");
    print_made(made);
}

// Writes the name of a case, and whether a frame is made.
pub fn print_outcome(name: &[u8], made: Made) {
    print(name);
    let answer = made.answer;
    match answer {
        Making::Done => print(b"made\n"),
        Making::Refused(number) => print_refusal(number),
    }
}

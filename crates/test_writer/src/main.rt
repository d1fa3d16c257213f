// Writes worked frames and prints the bytes of each stream, lead byte first, to be compared with the table of vectors.
#![tactic(auto)]

use frame::{Carried, Frame};
use test_vectors::{header_with, print};
use writer::{Opened, Written};

// A byte, two digits and what ends it.
fn print_byte(byte: u8, end: u8) {
    let mut text = [0u8; 16];
    io::hex(u64::from(byte), 2, &mut text);
    text.make_ascii_uppercase();
    text[2] = end;
    print(&text[..3]);
}

// A line of bytes.
fn print_line(bytes: &[u8]) {
    if let Some((last, others)) = bytes.split_last() {
        for byte in others {
            print_byte(*byte, b' ');
        }
        print_byte(*last, b'\n');
    }
}

// Opens a stream, writes a frame behind the lead byte and prints all its bytes; a refusal prints nothing.
fn print_stream(frame: Frame, carried: Carried, buffer: &mut [u8]) {
    let Opened::Done = writer::open(buffer) else {
        return;
    };
    if buffer.len() < 1 {
        return;
    }
    let Written::Done { bytes, carried: _ } = writer::write(frame, carried, &mut buffer[1..]) else {
        return;
    };
    if bytes < buffer.len() {
        print_line(&buffer[..bytes + 1]);
    }
}

// The stream of one frame of a type after two equal carried bits.
fn show(kind: u8, n: usize, data: [u32; 7], bit: u8) {
    let mut words = [0u32; 31];
    words[..7].copy_from_slice(&data);
    let frame = frame::built(header_with(kind), n, words);
    let carried = Carried { d29: bit, d30: bit };
    let mut buffer = [0u8; 64];
    print_stream(frame, carried, &mut buffer);
}

fn main() {
    show(1, 2, [0x0303E8, 0xFB4DAA, 0, 0, 0, 0, 0], 0);
    show(1, 4, [0x207FFF, 0x7F00FF, 0x800181, 0xFFAAAA, 0, 0, 0], 0);
    show(1, 5, [0x478000, 0x187, 0x180, 0x261FF, 0xFFFFAA, 0, 0], 0);
    show(
        9,
        7,
        [
            0x478000, 0x187, 0x180, 0x261FF, 0xFFFFAA, 0xB03039, 0x4359AA,
        ],
        0,
    );
    show(9, 4, [0x0303E8, 0xFB4D03, 0x03E8FB, 0x4DAAAA, 0, 0, 0], 0);
    show(3, 4, [0x075BCD, 0x15C521, 0x974F7F, 0xFFFFFF, 0, 0, 0], 0);
    show(3, 4, [0x800000, 0x010000, 0x0000FF, 0xFFFFFF, 0, 0, 0], 0);
    show(5, 1, [0x302880, 0, 0, 0, 0, 0, 0], 0);
    show(5, 2, [0x83FF7F, 0x05004E, 0, 0, 0, 0, 0], 0);
    show(6, 0, [0, 0, 0, 0, 0, 0, 0], 0);
    show(16, 2, [0x515549, 0x434B00, 0, 0, 0, 0, 0], 0);
    show(16, 3, [0x414243, 0x444546, 0x470000, 0, 0, 0, 0], 0);
    show(16, 1, [0x017F20, 0, 0, 0, 0, 0, 0], 0);
    show(6, 0, [0, 0, 0, 0, 0, 0, 0], 1);
}

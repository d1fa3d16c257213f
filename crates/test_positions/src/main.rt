// Type 3: positions, made from their fields and read from their words.
#![tactic(auto)]

use frame::Frame;
use record_positions::Position;
use test_vectors::positions::print_position;
use test_vectors::{frame_of, header_with, print_vector};

// Makes a position into a frame, and reads the frame of the words.
fn show(name: &[u8], position: Position, read: Frame) {
    let header = header_with(3);
    let made = record_positions::make_position(header, position);
    print_vector(name, made, read);
    print_position(read);
}

// Both signs, and the highest coordinate.
fn highest() {
    let position = Position {
        x: 123456789,
        y: -987654321,
        z: 2147483647,
    };
    let data = [0x075BCDu32, 0x15C521, 0x974F7F, 0xFFFFFF];
    show(b"V3a", position, frame_of(0x660C05, 0x032320, &data));
}

// The lowest coordinate.
fn lowest() {
    let position = Position {
        x: -2147483647,
        y: 0,
        z: -1,
    };
    let data = [0x800000u32, 0x010000, 0x0000FF, 0xFFFFFF];
    show(b"V3b", position, frame_of(0x660C05, 0x032320, &data));
}

// The vectors of type 3.
fn main() {
    highest();
    lowest();
}

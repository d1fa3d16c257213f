// The position of type 32.
use record_positions::Position;
use test_vectors::positions::print_position;
use test_vectors::{frame_of, header_with, print_vector};

// Both ends of the range, and zero.
pub(crate) fn print_vectors() {
    let position = Position {
        x: 2147483647,
        y: -2147483647,
        z: 0,
    };
    let header = header_with(32);
    let made = record_positions::make_position(header, position);
    let data = [0x7FFFFFu32, 0xFF8000, 0x000100, 0x000000];
    let read = frame_of(0x668005, 0x032320, &data);
    print_vector(b"G32a", made, read);
    print_position(read);
}

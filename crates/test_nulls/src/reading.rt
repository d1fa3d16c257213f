// What reading answers at the ends of N, and past them.
use frame::Frame;
use test_vectors::nulls::print_null;
use test_vectors::{frame_of, print};

// Writes the name of a case and what it is read as.
fn null(name: &[u8], frame: Frame) {
    print(name);
    print_null(frame);
}

// N 0 is read, N from 2 on is 8; 6 and 7 come before 8.
pub(crate) fn print_answers() {
    null(b"6, N 0: ", frame_of(0x661805, 0x032300, &[]));
    null(b"6, N 2: ", frame_of(0x661805, 0x032310, &[]));
    null(b"6, N 31: ", frame_of(0x661805, 0x0323F8, &[]));
    null(b"6, N 2, Z 6000: ", frame_of(0x661805, 0xBB8310, &[]));
    null(b"5, N 1: ", frame_of(0x661405, 0x032308, &[]));
}

// What making answers where more than one word is wanted.
use frame::Header;
use test_vectors::{header_with, print_outcome};

// Makes a null frame of N words.
fn null(name: &[u8], header: Header, n: usize) {
    print_outcome(name, record_nulls::make_null(header, n));
}

// A header of type 6 with that Z count and sequence.
fn header_at(z: u16, sequence: u8) -> Header {
    Header {
        z,
        sequence,
        ..header_with(6)
    }
}

// From two words on it is 12; 5, 6 and 7 come before 12.
pub(crate) fn print_answers() {
    null(b"6, null of N 2: ", header_with(6), 2);
    null(
        b"6, null of N 18446744073709551615: ",
        header_with(6),
        usize::MAX,
    );
    null(b"5, null of N 2: ", header_with(5), 2);
    null(b"6, Z 6000, null of N 2: ", header_at(6000, 3), 2);
    null(b"6, sequence 8, null of N 2: ", header_at(100, 8), 2);
}

// The null frame of type 34.
use frame::Frame;
use test_vectors::nulls::print_null;
use test_vectors::{frame_of, header_with, print_vector};

// Makes a null frame of N words, and reads the frame of the words.
fn show(name: &[u8], n: usize, read: Frame) {
    let header = header_with(34);
    let made = record_nulls::make_null(header, n);
    print_vector(name, made, read);
    print_null(read);
}

// No word; one of the fill; one of other bits, which are read; made, it has the fill.
pub(crate) fn print_vectors() {
    show(b"G34b", 0, frame_of(0x668805, 0x032300, &[]));
    let fill = [0xAAAAAAu32];
    show(b"G34c", 1, frame_of(0x668805, 0x032308, &fill));
    let other = [0x123456u32];
    show(b"G34d", 1, frame_of(0x668805, 0x032308, &other));
}

// The null frame of type 6, made with the wanted N and read from its words.
use frame::{Frame, Header, State};
use test_vectors::nulls::print_null;
use test_vectors::{frame_of, header_with, print_vector};

// Makes a null frame of N words, and reads the frame of the words.
fn show(name: &[u8], header: Header, n: usize, read: Frame) {
    let made = record_nulls::make_null(header, n);
    print_vector(name, made, read);
    print_null(read);
}

// A word of other bits than the fill is read, and made again it is the fill.
fn show_other(name: &[u8], word: u32) {
    let other = [word];
    show(
        name,
        header_with(6),
        1,
        frame_of(0x661805, 0x032308, &other),
    );
}

// The last Z count, sequence and health.
fn last_header() -> Header {
    Header {
        z: 5999,
        sequence: 7,
        state: State::Down,
        ..header_with(6)
    }
}

// No word; one of the fill, also under the last header; one of other bits.
pub(crate) fn print_vectors() {
    show(b"V6a", header_with(6), 0, frame_of(0x661805, 0x032300, &[]));
    let fill = [0xAAAAAAu32];
    show(
        b"N6a",
        header_with(6),
        1,
        frame_of(0x661805, 0x032308, &fill),
    );
    show(
        b"N6b",
        last_header(),
        1,
        frame_of(0x661805, 0xBB7F0F, &fill),
    );
    show_other(b"N6c", 0x555555);
    show_other(b"N6d", 0x000000);
    show_other(b"N6e", 0xFFFFFF);
}

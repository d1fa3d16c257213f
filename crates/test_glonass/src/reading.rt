// What reading answers at the ends of the ranges and of N, and past them.
use frame::Frame;
use record_stages::Count;
use test_vectors::corrections::print_at;
use test_vectors::nulls::print_null;
use test_vectors::positions::print_position;
use test_vectors::texts::print_text;
use test_vectors::{frame_of, print, print_count};

// Writes the name of a case and a count.
fn named_count(name: &[u8], count: Count) {
    print(name);
    print_count(b"count ", count);
}

// Writes the name of a case and how many corrections the frame has.
fn count(name: &[u8], frame: Frame) {
    named_count(name, record_corrections::count_corrections(frame));
}

// Writes the name of a case and an entry.
fn entry(name: &[u8], frame: Frame, index: usize) {
    print(name);
    print_at(frame, index);
}

// Writes the name of a case and what it is read as: null.
fn null(name: &[u8], frame: Frame) {
    print(name);
    print_null(frame);
}

// Writes the name of a case and its position.
fn position(name: &[u8], frame: Frame) {
    print(name);
    print_position(frame);
}

// Writes the name of a case and its text.
fn text(name: &[u8], frame: Frame) {
    print(name);
    print_text(frame);
}

// tb 120 in the second of two entries: the first is read all the same, and an entry past them is refused with 9.
fn second_out() {
    let data = [0x0303E8u32, 0xFB4D01, 0x0001FF, 0x78AAAA];
    let frame = frame_of(0x667C05, 0x032320, &data);
    count(b"31, tb 120 second: ", frame);
    entry(b"31, tb 120 second, entry 0: ", frame, 0);
    entry(b"31, tb 120 second, entry 1: ", frame, 1);
    entry(b"31, tb 120 second, entry 2: ", frame, 2);
}

// tb is held to its range, an IOD is not.
fn ages() {
    let most = [0x000000u32, 0x00F7AA];
    entry(
        b"31, change 1, tb 119: ",
        frame_of(0x667C05, 0x032310, &most),
        0,
    );
    let over = [0x000000u32, 0x00FFAA];
    entry(b"34, tb 127: ", frame_of(0x668805, 0x032310, &over), 0);
    entry(b"1, IOD 255: ", frame_of(0x660405, 0x032310, &over), 0);
}

// Type 34 is a list from N 2 on, and null below.
fn sizes() {
    count(b"34, N 0: ", frame_of(0x668805, 0x032300, &[]));
    count(b"34, N 1: ", frame_of(0x668805, 0x032308, &[]));
    count(b"34, N 3: ", frame_of(0x668805, 0x032318, &[]));
    count(b"34, N 31: ", frame_of(0x668805, 0x0323F8, &[]));
    null(b"34, N 2, null: ", frame_of(0x668805, 0x032310, &[]));
    null(b"31, N 0, null: ", frame_of(0x667C05, 0x032300, &[]));
    null(
        b"34, N 0, Z 6000, null: ",
        frame_of(0x668805, 0xBB8300, &[]),
    );
}

// A position of three words, one out of range, and no health.
fn others() {
    position(b"32, N 3: ", frame_of(0x668005, 0x032318, &[]));
    let lowest = [0x800000u32, 0x000000, 0x000000, 0x000000];
    position(
        b"32, X -2147483648: ",
        frame_of(0x668005, 0x032320, &lowest),
    );
    let empty = frame_of(0x668405, 0x032300, &[]);
    named_count(b"33, N 0: ", record_healths::count_healths(empty));
}

// The last code of each system, and the first past it.
fn codes() {
    let over = [0x4142C0u32];
    text(b"36, code 192: ", frame_of(0x669005, 0x032308, &over));
    let last = [0x4142BFu32];
    text(b"36, code 191: ", frame_of(0x669005, 0x032308, &last));
    let letter = [0x414280u32];
    text(b"16, code 128: ", frame_of(0x664005, 0x032308, &letter));
}

// One letter, a last word of zeros, and one word too many.
fn lengths() {
    let one = [0x800000u32];
    text(b"36, one letter: ", frame_of(0x669005, 0x032308, &one));
    let zeros = [0x808080u32, 0x000000];
    text(
        b"36, a word of zeros: ",
        frame_of(0x669005, 0x032310, &zeros),
    );
    text(b"36, N 31: ", frame_of(0x669005, 0x0323F8, &[]));
}

// The answers of reading.
pub(crate) fn print_answers() {
    second_out();
    ages();
    sizes();
    others();
    codes();
    lengths();
}

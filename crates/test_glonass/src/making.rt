// What making answers at the ends of the ranges and of the counts, and past them.
use crate::corrections::entry;
use frame::Header;
use record_corrections::Correction;
use test_vectors::corrections::with_iod;
use test_vectors::{header_with, print_outcome};

// Makes `count` times an entry into a frame of that type.
fn list(name: &[u8], kind: u8, entry: Correction, count: usize) {
    let header = header_with(kind);
    print_outcome(
        name,
        record_corrections::make_corrections(header, [entry; 18], count),
    );
}

// Makes a null frame of that type and N words.
fn null(name: &[u8], kind: u8, n: usize) {
    let header = header_with(kind);
    print_outcome(name, record_nulls::make_null(header, n));
}

// Makes text into a frame of that type.
fn text(name: &[u8], kind: u8, text: &[u8]) {
    let header = header_with(kind);
    print_outcome(name, record_texts::make_text(header, text));
}

// The ranges of the last eight bits, and the issue of the other system.
fn ages() {
    list(b"31, tb 119: ", 31, entry(0, 0, 1, 0, 0, 0, 119), 1);
    list(b"31, tb 120: ", 31, entry(0, 0, 1, 0, 0, 0, 120), 1);
    list(b"31, change 2: ", 31, entry(0, 0, 1, 0, 0, 2, 0), 1);
    list(b"31, an IOD: ", 31, with_iod(0, 0, 1, 0, 0, 0), 1);
    list(b"1, change and tb: ", 1, entry(0, 0, 1, 0, 0, 0, 0), 1);
}

// The satellites, the counts, and the type: no list, also of type 34, makes a null frame.
fn counts() {
    list(b"31, satellite 33: ", 31, entry(0, 0, 33, 0, 0, 0, 0), 1);
    list(b"34, no entry: ", 34, entry(0, 0, 1, 0, 0, 0, 0), 0);
    list(
        b"34, 19 entries, tb 120 among them: ",
        34,
        entry(0, 0, 1, 0, 0, 0, 120),
        19,
    );
    list(b"33, a correction: ", 33, entry(0, 0, 1, 0, 0, 0, 0), 1);
}

// A null frame of two words: 6 and 7 come before 12.
fn nulls() {
    null(b"34, null of N 2: ", 34, 2);
    null(b"31, null of N 2: ", 31, 2);
    let late = Header {
        z: 6000,
        ..header_with(34)
    };
    print_outcome(
        b"34, Z 6000, null of N 2: ",
        record_nulls::make_null(late, 2),
    );
}

// The first code past the last, and one character too many.
fn texts() {
    let over = [192u8];
    text(b"36, code 192: ", 36, &over);
    let mut long = [191u8; 91];
    long[90] = 192;
    text(b"36, 91 characters, one of code 192: ", 36, &long);
    let letter = [128u8];
    text(b"16, code 128: ", 16, &letter);
}

// The answers of making.
pub(crate) fn print_answers() {
    ages();
    counts();
    nulls();
    texts();
}

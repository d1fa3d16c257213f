// What reading answers: every N of both layouts and types, every system, and the orders of the refusals.
use crate::show::{print_at, print_count, print_head, print_null, print_short};
use frame::Frame;
use test_vectors::{frame_of, print};

// A frame of a type with N words, of which the first is `word`, where there is one, and the others are zeros.
fn frame_with(kind: u32, n: u32, word: u32) -> Frame {
    let data = [if n % 32 == 0 { 0 } else { word }];
    frame_of(0x660005 + kind % 64 * 1024, 0x032300 + n % 32 * 8, &data)
}

// The counts for N 0 to 31.
fn every_n(name: &[u8], kind: u32, word: u32) {
    print(name);
    for n in 0..32 {
        print_short(frame_with(kind, n, word));
    }
    print(b"\n");
}

// The counts for the systems 0 to 15.
fn every_system() {
    print(b"41, N 2, systems 0 to 15:");
    for system in 0..16 {
        print_short(frame_with(41, 2, system * 0x100000 + 0x010000));
    }
    print(b"\n");
}

// The orders of a list: 8 for too few words, 23, 8 for N, 9, 10.
fn lists() {
    print_count(
        b"41, N 1, Galileo (8 before 23):",
        frame_with(41, 1, 0x310000),
    );
    print_count(
        b"42, N 1, Galileo (23 before the second 8):",
        frame_with(42, 1, 0x310000),
    );
    print_count(b"42, N 1, BDS:", frame_with(42, 1, 0x6AAAAA));
    print_count(b"42, N 1, AAAAAA:", frame_with(42, 1, 0xAAAAAA));
    print_count(
        b"41, N 3, Galileo (23 before the second 8):",
        frame_with(41, 3, 0x310000),
    );
    print_count(b"43, N 2 (6):", frame_with(43, 2, 0x110000));
    let late = [0u32];
    print_count(
        b"41, N 0, Z 6000 (7 before 8):",
        frame_of(0x66A405, 0xBB8300, &late),
    );
    print(b"41, N 2, satellite 0, head: ");
    print_head(frame_with(41, 2, 0x110000));
    print(b"satellite 0: ");
    print_at(frame_with(41, 2, 0x110000), 0);
    print(b"satellite 1 (9 before 10): ");
    print_at(frame_with(41, 2, 0x110000), 1);
    print(b"41, N 3, head: ");
    print_head(frame_with(41, 3, 0x110000));
}

// The orders of the null frame: 6 for type 41 too, 8, 23.
fn nulls() {
    print_null(b"42, N 2, null: ", frame_with(42, 2, 0x1AAAAA));
    print_null(b"42, N 0, null: ", frame_with(42, 0, 0));
    print_null(b"41, N 1, null (6): ", frame_with(41, 1, 0x1AAAAA));
    print_null(b"42, N 1, 3AAAAA, null: ", frame_with(42, 1, 0x3AAAAA));
    print_null(b"42, N 1, AAAAAA, null: ", frame_with(42, 1, 0xAAAAAA));
    print_null(
        b"42, N 2, Galileo, null (8 before 23): ",
        frame_with(42, 2, 0x310000),
    );
}

// What reading answers.
pub(crate) fn print_answers() {
    every_n(b"41 without ionosphere, N 0 to 31:", 41, 0x110000);
    every_n(b"41 with ionosphere, N 0 to 31:", 41, 0x110800);
    every_n(b"42 without ionosphere, N 0 to 31:", 42, 0x110000);
    every_n(b"42 with ionosphere, N 0 to 31:", 42, 0x110800);
    every_system();
    lists();
    nulls();
}

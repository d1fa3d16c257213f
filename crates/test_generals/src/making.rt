// What making answers at the ends of the ranges and of the counts, and past them.
use crate::vectors::{general, head};
use frame::Header;
use record_generals::{General, GeneralHead};
use test_vectors::{header_with, print_outcome};

// Makes `count` satellites that are alike under a head.
fn many(name: &[u8], head: GeneralHead, g: General, count: usize) {
    let made = record_generals::make_generals(header_with(41), head, [g; 22], count);
    print_outcome(name, made);
}

// Makes one satellite, without ionosphere or with it.
fn one(name: &[u8], ionosphere: u8, g: General) {
    many(name, head(1, 1, 0, 0, ionosphere), g, 1);
}

// The counts: 22 without ionosphere, 16 with it.
fn counts() {
    let g = general(1, 0, 0, 0, 0);
    many(b"41, 22 satellites: ", head(1, 1, 0, 0, 0), g, 22);
    many(b"41, 23 satellites: ", head(1, 1, 0, 0, 0), g, 23);
    many(
        b"41 with ionosphere, 16 satellites: ",
        head(1, 1, 0, 0, 1),
        g,
        16,
    );
    many(
        b"41 with ionosphere, 17 satellites: ",
        head(1, 1, 0, 0, 1),
        g,
        17,
    );
    many(b"41, no satellite: ", head(1, 1, 0, 0, 0), g, 0);
    many(
        b"41, ionosphere 2, 17 satellites: ",
        head(1, 1, 0, 0, 2),
        g,
        17,
    );
    many(
        b"41, ionosphere 2, 16 satellites: ",
        head(1, 1, 0, 0, 2),
        g,
        16,
    );
}

// The systems, before the counts.
fn systems() {
    let g = general(1, 0, 0, 0, 0);
    many(
        b"41, Galileo, no satellite (23 before 12): ",
        head(3, 1, 0, 0, 0),
        g,
        0,
    );
    many(b"41, SBAS: ", head(4, 1, 0, 0, 0), g, 1);
    many(b"41, system 16: ", head(16, 1, 0, 0, 0), g, 1);
    many(b"41, signal 16: ", head(1, 16, 0, 0, 0), g, 1);
    many(b"41, ephemeris type 4: ", head(1, 1, 4, 0, 0), g, 1);
    many(b"41, period 4: ", head(1, 1, 0, 4, 0), g, 1);
}

// The numbers of a satellite.
fn numbers() {
    one(b"41, satellite 0: ", 0, general(0, 0, 0, 0, 0));
    one(b"41, satellite 64: ", 0, general(64, 0, 0, 0, 0));
    one(b"41, UDRE 16: ", 0, general(1, 16, 0, 0, 0));
    one(b"41, PRC 8192: ", 0, general(1, 0, 0, 8192, 0));
    one(b"41, PRC -8193: ", 0, general(1, 0, 0, -8193, 0));
    one(
        b"41, delay 1 without ionosphere: ",
        0,
        general(1, 0, 0, 0, 1),
    );
    one(
        b"41, delay 4095 with ionosphere: ",
        1,
        general(1, 0, 0, 0, 4095),
    );
    one(
        b"41, delay 4096 with ionosphere: ",
        1,
        general(1, 0, 0, 0, 4096),
    );
}

// A header of a type and a Z count.
fn header_at(kind: u8, z: u16) -> Header {
    Header {
        z,
        ..header_with(kind)
    }
}

// The header, before all else.
fn headers() {
    let entries = [general(1, 0, 0, 0, 0); 22];
    print_outcome(
        b"43 (6): ",
        record_generals::make_generals(header_with(43), head(3, 1, 0, 0, 0), entries, 1),
    );
    print_outcome(
        b"41, Z 6000, Galileo (7 before 23): ",
        record_generals::make_generals(header_at(41, 6000), head(3, 1, 0, 0, 0), entries, 1),
    );
}

// The null frame: 6 for type 41 too, 23, 12.
fn nulls() {
    print_outcome(
        b"42 null, Galileo: ",
        record_generals::make_general_null(header_with(42), 1, 3),
    );
    print_outcome(
        b"41 null (6): ",
        record_generals::make_general_null(header_with(41), 1, 1),
    );
    print_outcome(
        b"42 null, N 0: ",
        record_generals::make_general_null(header_with(42), 0, 1),
    );
    print_outcome(
        b"42 null, N 2, Galileo (23 before 12): ",
        record_generals::make_general_null(header_with(42), 2, 3),
    );
    print_outcome(
        b"42 null, Z 6000, Galileo (7 before 23): ",
        record_generals::make_general_null(header_at(42, 6000), 1, 3),
    );
}

// What making answers.
pub(crate) fn print_answers() {
    counts();
    systems();
    numbers();
    headers();
    nulls();
}

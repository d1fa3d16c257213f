// What making answers at the ends of the ranges and of the counts, and past them.
use crate::entries::{phase_of, range_of};
use crate::vectors::head;
use frame::Header;
use record_observations::{Edition, Epoch, Mark, Observation};
use test_vectors::{header_with, print_outcome};

// Makes one satellite into a frame of that type.
fn one(name: &[u8], edition: Edition, kind: u8, e: Observation) {
    let header = header_with(kind);
    print_outcome(
        name,
        record_observations::make_observations(edition, header, head(0, 0, 0), [e; 15], 1),
    );
}

// The marks of each edition and type, and the highest numbers beside them.
fn marks() {
    one(
        b"18, edition GOST, half 1, quality 7, losses 31: ",
        Edition::Gost,
        18,
        phase_of(Mark::Half(1), 0, 0, 1, 7, 31, 0),
    );
    one(
        b"18, edition BD, a half-wavelength mark: ",
        Edition::Bd,
        18,
        phase_of(Mark::Half(0), 0, 0, 1, 0, 0, 0),
    );
    one(
        b"18, edition GOST, more follow: ",
        Edition::Gost,
        18,
        phase_of(Mark::More(0), 0, 0, 1, 0, 0, 0),
    );
    one(
        b"19, edition GOST, reserved 1: ",
        Edition::Gost,
        19,
        range_of(Mark::Reserved(1), 0, 0, 1, 0, 0, 0),
    );
    one(
        b"19, edition BD, more 1, quality 15, multipath 15: ",
        Edition::Bd,
        19,
        range_of(Mark::More(1), 0, 0, 1, 15, 15, 0),
    );
}

// What is no number of the type.
fn numbers() {
    one(
        b"19, a phase: ",
        Edition::Gost,
        19,
        phase_of(Mark::Reserved(0), 0, 0, 1, 0, 0, 0),
    );
    one(
        b"18, quality 8: ",
        Edition::Gost,
        18,
        phase_of(Mark::Half(0), 0, 0, 1, 8, 0, 0),
    );
    one(
        b"19, multipath 16: ",
        Edition::Gost,
        19,
        range_of(Mark::Reserved(0), 0, 0, 1, 0, 16, 0),
    );
}

// Makes satellites of zeros under a head.
fn under(name: &[u8], z: u16, epoch: Epoch, count: usize) {
    let header = Header {
        z,
        ..header_with(18)
    };
    let e = phase_of(Mark::Half(0), 0, 0, 1, 0, 0, 0);
    print_outcome(
        name,
        record_observations::make_observations(Edition::Gost, header, epoch, [e; 15], count),
    );
}

// The head, the counts, and what comes before them.
fn heads() {
    under(b"18, time 599999: ", 100, head(0, 0, 599999), 1);
    under(b"18, time 600000: ", 100, head(0, 0, 600000), 1);
    under(b"18, frequency 1, reserved 3: ", 100, head(1, 3, 0), 1);
    under(b"18, frequency 4: ", 100, head(4, 0, 0), 1);
    under(b"18, no satellite: ", 100, head(0, 0, 0), 0);
    under(
        b"18, 16 satellites and time 600000: ",
        100,
        head(0, 0, 600000),
        16,
    );
    under(b"18, Z 6000, 16 satellites: ", 6000, head(0, 0, 0), 16);
}

// What making answers.
pub(crate) fn print_answers() {
    marks();
    numbers();
    heads();
}

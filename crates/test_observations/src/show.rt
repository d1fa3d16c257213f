// A record of types 18 and 19 in print.
use frame::Frame;
use record_observations::{
    Edition, Epoch, EpochRead, Mark, Measured, Observation, ObservationRead,
};
use test_vectors::{
    entries_to_write, print, print_count, print_number, print_refusal, print_signed,
};

// Writes the head of a frame.
fn print_epoch(epoch: Epoch) {
    print_number(b"frequency ", epoch.frequency as u64);
    print_number(b", smoothing ", epoch.smoothing as u64);
    print_number(b", time ", epoch.time as u64);
    print(b"\n");
}

// Writes what the head of a frame reads as.
pub(crate) fn print_head(frame: Frame) {
    match record_observations::read_epoch(frame) {
        EpochRead::At(epoch) => print_epoch(epoch),
        EpochRead::Refused(number) => print_refusal(number),
    }
}

// Writes what the first bit says.
fn print_mark(mark: Mark) {
    match mark {
        Mark::Half(bit) => print_number(b"half ", bit as u64),
        Mark::Reserved(bit) => print_number(b"reserved ", bit as u64),
        Mark::More(bit) => print_number(b"more ", bit as u64),
    }
}

// Writes what was measured.
fn print_measured(measured: Measured) {
    match measured {
        Measured::Phase(losses, phase) => {
            print_number(b", losses ", losses as u64);
            print_signed(b", phase ", phase);
        }
        Measured::Range(multipath, range) => {
            print_number(b", multipath ", multipath as u64);
            print_number(b", range ", range as u64);
        }
    }
}

// Writes one satellite's fields.
fn print_entry(e: Observation) {
    let mark = e.mark;
    print_mark(mark);
    print_number(b", code ", e.code as u64);
    print_number(b", system ", e.system as u64);
    print_number(b", satellite ", e.satellite as u64);
    print_number(b", quality ", e.quality as u64);
    let measured = e.measured;
    print_measured(measured);
    print(b"\n");
}

// Writes satellite number `index` of a frame, as an edition means it.
pub(crate) fn print_at(edition: Edition, frame: Frame, index: usize) {
    match record_observations::observation_at(edition, frame, index) {
        ObservationRead::Entry(e) => print_entry(e),
        ObservationRead::Refused(number) => print_refusal(number),
    }
}

// Writes the name of a case and the count of a frame.
pub(crate) fn named_count(name: &[u8], frame: Frame) {
    print(name);
    print_count(b"", record_observations::count_observations(frame));
}

// Writes satellite number `index` of a frame in both editions.
fn print_both(frame: Frame, index: usize) {
    print(b"edition GOST: ");
    print_at(Edition::Gost, frame, index);
    print(b"edition BD: ");
    print_at(Edition::Bd, frame, index);
}

// Writes the head of a frame, and every satellite in both editions.
pub(crate) fn print_record(frame: Frame) {
    print_head(frame);
    for i in 0..entries_to_write(record_observations::count_observations(frame)) {
        print_both(frame, i);
    }
}

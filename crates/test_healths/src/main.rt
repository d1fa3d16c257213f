// Type 5: satellite health, made from its fields and read from its words.
#![tactic(auto)]

use frame::Frame;
use record_healths::{Condition, SatelliteHealth};
use test_vectors::healths::print_entries;
use test_vectors::{frame_of, header_with, print_vector};

// Makes the first `count` entries into a frame, and reads the frame of the words.
fn show(name: &[u8], entries: [SatelliteHealth; 31], count: usize, read: Frame) {
    let header = header_with(5);
    let made = record_healths::make_healths(header, entries, count);
    print_vector(name, made, read);
    print_entries(read);
}

// One satellite with new data.
fn one() {
    let entry = SatelliteHealth {
        reserved: 0,
        satellite: 12,
        link: 0,
        health: Condition::Code(0),
        cn0: 20,
        enable: 0,
        new_data: 1,
        loss: 0,
        time: 0,
        spare: 0,
    };
    let data = [0x302880u32];
    show(b"V5a", [entry; 31], 1, frame_of(0x661405, 0x032308, &data));
}

// Satellite 32, which is sent as 0, with the highest codes.
fn highest() -> SatelliteHealth {
    SatelliteHealth {
        reserved: 1,
        satellite: 32,
        link: 1,
        health: Condition::Code(7),
        cn0: 31,
        enable: 1,
        new_data: 0,
        loss: 1,
        time: 15,
        spare: 3,
    }
}

// Satellite 32, and one with a loss to come.
fn two() {
    let mut entries = [highest(); 31];
    entries[1] = SatelliteHealth {
        reserved: 0,
        satellite: 1,
        link: 0,
        health: Condition::Code(4),
        cn0: 0,
        enable: 0,
        new_data: 0,
        loss: 1,
        time: 3,
        spare: 2,
    };
    let data = [0x83FF7Fu32, 0x05004E];
    show(b"V5b", entries, 2, frame_of(0x661405, 0x032310, &data));
}

// The vectors of type 5.
fn main() {
    one();
    two();
}

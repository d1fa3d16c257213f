// The satellite health of type 33.
use record_healths::{Condition, SatelliteHealth};
use test_vectors::healths::print_entries;
use test_vectors::{frame_of, header_with, print_vector};

// Entry number `i` of 31, all but its three health bits, which are given.
fn entry(i: u8, health: Condition) -> SatelliteHealth {
    SatelliteHealth {
        reserved: 0,
        satellite: i % 32 + 1,
        link: i % 2,
        health,
        cn0: i % 32,
        enable: 1,
        new_data: 0,
        loss: 1,
        time: i % 16,
        spare: i % 4,
    }
}

// Thirty-one satellites, their health bits 0 to 7 and again from 0; of the last they are 4.
fn entries() -> [SatelliteHealth; 31] {
    let mut all = [entry(30, Condition::Data(1, 0)); 31];
    for i in 0..30u8 {
        all[usize::from(i)] = entry(i, Condition::Data(i % 8 / 4, i % 4));
    }
    all
}

// The words of thirty-one satellites.
const WORDS: [u32; 31] = [
    0x040140, 0x0A4345, 0x0C854A, 0x12C74F, 0x150950, 0x1B4B55, 0x1D8D5A, 0x23CF5F, 0x241160,
    0x2A5365, 0x2C956A, 0x32D76F, 0x351970, 0x3B5B75, 0x3D9D7A, 0x43DF7F, 0x442140, 0x4A6345,
    0x4CA54A, 0x52E74F, 0x552950, 0x5B6B55, 0x5DAD5A, 0x63EF5F, 0x643160, 0x6A7365, 0x6CB56A,
    0x72F76F, 0x753970, 0x7B7B75, 0x7D3D7A,
];

// As many satellites as a frame holds.
pub(crate) fn print_vectors() {
    let header = header_with(33);
    let made = record_healths::make_healths(header, entries(), 31);
    let data = WORDS;
    let read = frame_of(0x668405, 0x0323F8, &data);
    print_vector(b"G33a", made, read);
    print_entries(read);
}

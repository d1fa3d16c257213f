// The worked vectors: each is made in both editions, and read.
use crate::entries::{phase_mark, phase_of, range_mark, range_of};
use crate::show::print_record;
use frame::Frame;
use record_observations::{Edition, Epoch, Observation};
use test_vectors::{frame_of, header_with, print_made, print_vector};

// A head by its numbers.
pub(crate) fn head(frequency: u8, smoothing: u8, time: u32) -> Epoch {
    Epoch {
        frequency,
        smoothing,
        time,
    }
}

// Makes entries of both editions, `count` of them, under one head, and reads the frame of the words.
fn show(
    name: &[u8],
    epoch: Epoch,
    first: [Observation; 15],
    second: [Observation; 15],
    count: usize,
    read: Frame,
) {
    let known = read.header;
    let kind = known.kind;
    let header = header_with(kind);
    print_vector(
        name,
        record_observations::make_observations(Edition::Gost, header, epoch, first, count),
        read,
    );
    print_made(record_observations::make_observations(Edition::Bd, header, epoch, second, count));
    print_record(read);
}

// Every field at its least; the smallest frame.
fn o18a() {
    let first = phase_of(phase_mark(Edition::Gost, 0), 0, 0, 1, 0, 0, 0);
    let second = phase_of(phase_mark(Edition::Bd, 0), 0, 0, 1, 0, 0, 0);
    let data = [0u32, 0x010000, 0];
    show(
        b"O18a",
        head(0, 0, 0),
        [first; 15],
        [second; 15],
        1,
        frame_of(0x664805, 0x032318, &data),
    );
}

// The ends: satellite 32 of GLONASS is sent as 0, and both first bits stand in one frame.
fn ends18(edition: Edition) -> [Observation; 15] {
    let low = phase_of(phase_mark(edition, 1), 1, 1, 32, 7, 31, -2147483648);
    let mut entries = [low; 15];
    entries[1] = phase_of(phase_mark(edition, 0), 1, 0, 31, 1, 1, 2147483647);
    entries
}

fn o18b() {
    let data = [0xF927BFu32, 0xE0FF80, 0, 0x5F217F, 0xFFFFFF];
    show(
        b"O18b",
        head(3, 3, 599999),
        ends18(Edition::Gost),
        ends18(Edition::Bd),
        2,
        frame_of(0x664805, 0x032328, &data),
    );
}

// BD's own time, 0.471014 s.
fn o18c() {
    let first = phase_of(phase_mark(Edition::Gost, 1), 1, 0, 5, 4, 16, -1);
    let second = phase_of(phase_mark(Edition::Bd, 1), 1, 0, 5, 4, 16, -1);
    let data = [0x872FE6u32, 0xC590FF, 0xFFFFFF];
    show(
        b"O18c",
        head(2, 0, 471014),
        [first; 15],
        [second; 15],
        1,
        frame_of(0x664805, 0x032318, &data),
    );
}

fn o19a() {
    let first = range_of(range_mark(Edition::Gost, 0), 0, 0, 1, 0, 0, 0);
    let second = range_of(range_mark(Edition::Bd, 0), 0, 0, 1, 0, 0, 0);
    let data = [0u32, 0x010000, 0];
    show(
        b"O19a",
        head(0, 0, 0),
        [first; 15],
        [second; 15],
        1,
        frame_of(0x664C05, 0x032318, &data),
    );
}

// The ends: bits 8 to 15 of a satellite are cut 4 and 4, where type 18 cuts them 3 and 5.
fn ends19(edition: Edition) -> [Observation; 15] {
    let high = range_of(range_mark(edition, 1), 1, 1, 32, 15, 15, 4294967295);
    let mut entries = [high; 15];
    entries[1] = range_of(range_mark(edition, 1), 0, 1, 24, 8, 7, 2147483648);
    entries
}

fn o19b() {
    let data = [0x7927BFu32, 0xE0FFFF, 0xFFFFFF, 0xB88780, 0];
    show(
        b"O19b",
        head(1, 3, 599999),
        ends19(Edition::Gost),
        ends19(Edition::Bd),
        2,
        frame_of(0x664C05, 0x032328, &data),
    );
}

// Satellite number i of fifteen: its numbers follow from i.
fn numbered(edition: Edition, i: u8) -> Observation {
    let n = i % 15;
    let range = (n as u64 * 1000000007 % 4294967296) as u32;
    range_of(
        range_mark(edition, n % 2),
        n % 2,
        0,
        n + 1,
        n,
        15 - n,
        range,
    )
}

// As many satellites as a frame holds.
fn fifteen(edition: Edition) -> [Observation; 15] {
    std::array::from_fn(|i| numbered(edition, (i % 15) as u8))
}

// The words of fifteen satellites.
const FIFTEEN_WORDS: [u32; 31] = [
    0xA1E240, 0x010F00, 0x000000, 0xC21E3B, 0x9ACA07, 0x032D77, 0x35940E, 0xC43CB2, 0xD05E15,
    0x054BEE, 0x6B281C, 0xC65A2A, 0x05F223, 0x076965, 0xA0BC2A, 0xC878A1, 0x3B8631, 0x0987DC,
    0xD65038, 0xCA9618, 0x711A3F, 0x0BA554, 0x0BE446, 0xCCB48F, 0xA6AE4D, 0x0DC3CB, 0x417854,
    0xCED206, 0xDC425B, 0x0FE142, 0x770C62,
];

fn o19c() {
    let data = FIFTEEN_WORDS;
    show(
        b"O19c",
        head(2, 2, 123456),
        fifteen(Edition::Gost),
        fifteen(Edition::Bd),
        15,
        frame_of(0x664C05, 0x0323F8, &data),
    );
}

// The vectors of types 18 and 19.
pub(crate) fn print_vectors() {
    o18a();
    o18b();
    o18c();
    o19a();
    o19b();
    o19c();
}

// Corrections of types 31 and 34.
use frame::Frame;
use record_corrections::{Correction, Issue};
use test_vectors::corrections::print_entries;
use test_vectors::{frame_of, header_with, print_vector};

// One satellite's correction, its fields in the order of the line.
pub(crate) fn entry(
    scale: u8,
    udre: u8,
    satellite: u8,
    prc: i16,
    rrc: i8,
    change: u8,
    tb: u8,
) -> Correction {
    Correction {
        scale,
        udre,
        satellite,
        prc,
        rrc,
        issue: Issue::Age(change, tb),
    }
}

// Makes the first `count` entries into a frame of that type, and reads the frame of the words.
fn show(name: &[u8], kind: u8, entries: [Correction; 18], count: usize, read: Frame) {
    let header = header_with(kind);
    let made = record_corrections::make_corrections(header, entries, count);
    print_vector(name, made, read);
    print_entries(read);
}

// Every field at its least.
fn least() {
    let entries = [entry(0, 0, 1, 0, 0, 0, 0); 18];
    let data = [0x010000u32, 0x0000AA];
    show(b"G31a", 31, entries, 1, frame_of(0x667C05, 0x032310, &data));
}

// Both ends of the ranges.
fn ends() {
    let mut entries = [entry(1, 3, 32, 32767, 127, 1, 119); 18];
    entries[1] = entry(1, 3, 24, -32767, -127, 1, 64);
    let data = [0xE07FFFu32, 0x7FF7F8, 0x800181, 0xC0AAAA];
    show(b"G31b", 31, entries, 2, frame_of(0x667C05, 0x032320, &data));
}

// Each stop number alone, then both, and a satellite that occurs twice.
fn stops() {
    let mut entries = [entry(0, 2, 7, -32768, 5, 0, 1); 18];
    entries[1] = entry(0, 2, 8, 5, -128, 1, 0);
    entries[2] = entry(0, 1, 7, -32768, -128, 0, 119);
    let data = [0x478000u32, 0x050148, 0x000580, 0x802780, 0x008077];
    show(b"G31c", 31, entries, 3, frame_of(0x667C05, 0x032328, &data));
}

// Eighteen satellites, the most that a frame holds.
fn most_entries() -> [Correction; 18] {
    [
        entry(0, 0, 1, -9000, -80, 0, 0),
        entry(1, 1, 2, -8000, -71, 1, 7),
        entry(0, 2, 3, -7000, -62, 0, 14),
        entry(1, 3, 4, -6000, -53, 1, 21),
        entry(0, 0, 5, -5000, -44, 0, 28),
        entry(1, 1, 6, -4000, -35, 1, 35),
        entry(0, 2, 7, -3000, -26, 0, 42),
        entry(1, 3, 8, -2000, -17, 1, 49),
        entry(0, 0, 9, -1000, -8, 0, 56),
        entry(1, 1, 10, 0, 1, 1, 63),
        entry(0, 2, 11, 1000, 10, 0, 70),
        entry(1, 3, 12, 2000, 19, 1, 77),
        entry(0, 0, 13, 3000, 28, 0, 84),
        entry(1, 1, 14, 4000, 37, 1, 91),
        entry(0, 2, 15, 5000, 46, 0, 98),
        entry(1, 3, 16, 6000, 55, 1, 105),
        entry(0, 0, 17, 7000, 64, 0, 112),
        entry(1, 1, 18, 8000, 73, 1, 119),
    ]
}

// The thirty words of eighteen satellites.
const MOST_WORDS: [u32; 30] = [
    0x01DCD8, 0xB000A2, 0xE0C0B9, 0x8743E4, 0xA8C20E, 0xE4E890, 0xCB9505, 0xEC78D4, 0x1CA6F0,
    0x60DDA3, 0x47F448, 0xE62AE8, 0xF830EF, 0xB109FC, 0x18F838, 0xAA0000, 0x01BF4B, 0x03E80A,
    0x46EC07, 0xD013CD, 0x0D0BB8, 0x1C54AE, 0x0FA025, 0xDB4F13, 0x882E62, 0xF01770, 0x37E911,
    0x1B5840, 0x70B21F, 0x4049F7,
];

// As many satellites as a frame holds.
fn most() {
    let entries = most_entries();
    let data = MOST_WORDS;
    show(
        b"G31d",
        31,
        entries,
        18,
        frame_of(0x667C05, 0x0323F0, &data),
    );
}

// The shortest list of type 34.
fn shortest() {
    let entries = [entry(0, 2, 7, -32768, 5, 0, 1); 18];
    let data = [0x478000u32, 0x0501AA];
    show(b"G34a", 34, entries, 1, frame_of(0x668805, 0x032310, &data));
}

// Entries with zeros for the fill are read; made, they have the fill.
fn other_fill() {
    let entries = most_entries();
    let data = [
        0x01DCD8u32,
        0xB000A2,
        0xE0C0B9,
        0x8743E4,
        0xA8C20E,
        0xE4E890,
        0xCB9500,
    ];
    show(b"G34e", 34, entries, 4, frame_of(0x668805, 0x032338, &data));
}

// The vectors of lists.
pub(crate) fn print_vectors() {
    least();
    ends();
    stops();
    most();
    shortest();
    other_fill();
}

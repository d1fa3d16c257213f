// Types 1 and 9: corrections, made from their fields, and read from their words with PRC and RRC in whole units.
#![tactic(auto)]

use frame::Frame;
use record_corrections::Correction;
use test_vectors::corrections::{print_entries, with_iod};
use test_vectors::{frame_of, header_with, print_vector};

// Makes the first `count` entries into a frame of that type, and reads the frame of the words.
fn show(name: &[u8], kind: u8, entries: [Correction; 18], count: usize, read: Frame) {
    let header = header_with(kind);
    let made = record_corrections::make_corrections(header, entries, count);
    print_vector(name, made, read);
    print_entries(read);
}

// One satellite.
fn one() {
    let entries = [with_iod(0, 0, 3, 1000, -5, 77); 18];
    let data = [0x0303E8u32, 0xFB4DAA];
    show(b"V1a", 1, entries, 1, frame_of(0x660405, 0x032310, &data));
}

// The ends of the ranges, and satellite 32, which is sent as 0.
fn ends() {
    let mut entries = [with_iod(0, 1, 32, 32767, 127, 0); 18];
    entries[1] = with_iod(1, 3, 31, -32767, -127, 255);
    let data = [0x207FFFu32, 0x7F00FF, 0x800181, 0xFFAAAA];
    show(b"V1b", 1, entries, 2, frame_of(0x660405, 0x032320, &data));
}

// The stop numbers, and a satellite that occurs twice; then the same with one satellite more.
fn stops() {
    let mut entries = [with_iod(0, 2, 7, -32768, 0, 1); 18];
    entries[1] = with_iod(1, 0, 7, 1, -128, 2);
    entries[2] = with_iod(0, 3, 1, -1, -1, 170);
    let data = [0x478000u32, 0x000187, 0x000180, 0x0261FF, 0xFFFFAA];
    show(b"V1c", 1, entries, 3, frame_of(0x660405, 0x032328, &data));
    entries[3] = with_iod(1, 1, 16, 12345, 67, 89);
    let longer = [
        0x478000u32,
        0x000187,
        0x000180,
        0x0261FF,
        0xFFFFAA,
        0xB03039,
        0x4359AA,
    ];
    show(b"V9a", 9, entries, 4, frame_of(0x662405, 0x032338, &longer));
}

// The same entry twice.
fn twice() {
    let entries = [with_iod(0, 0, 3, 1000, -5, 77); 18];
    let data = [0x0303E8u32, 0xFB4D03, 0x03E8FB, 0x4DAAAA];
    show(b"V9b", 9, entries, 2, frame_of(0x662405, 0x032320, &data));
}

// Eighteen satellites, the most that a frame holds.
fn most_entries() -> [Correction; 18] {
    [
        with_iod(0, 0, 1, -900, -60, 0),
        with_iod(1, 1, 2, -800, -53, 13),
        with_iod(0, 2, 3, -700, -46, 26),
        with_iod(1, 3, 4, -600, -39, 39),
        with_iod(0, 0, 5, -500, -32, 52),
        with_iod(1, 1, 6, -400, -25, 65),
        with_iod(0, 2, 7, -300, -18, 78),
        with_iod(1, 3, 8, -200, -11, 91),
        with_iod(0, 0, 9, -100, -4, 104),
        with_iod(1, 1, 10, 0, 3, 117),
        with_iod(0, 2, 11, 100, 10, 130),
        with_iod(1, 3, 12, 200, 17, 143),
        with_iod(0, 0, 13, 300, 24, 156),
        with_iod(1, 1, 14, 400, 31, 169),
        with_iod(0, 2, 15, 500, 38, 182),
        with_iod(1, 3, 16, 600, 45, 195),
        with_iod(0, 0, 17, 700, 52, 208),
        with_iod(1, 1, 18, 800, 59, 221),
    ]
}

// The thirty words of eighteen satellites.
const MOST_WORDS: [u32; 30] = [
    0x01FC7C, 0xC400A2, 0xFCE0CB, 0x0D43FD, 0x44D21A, 0xE4FDA8, 0xD92705, 0xFE0CE0, 0x34A6FE,
    0x70E741, 0x47FED4, 0xEE4EE8, 0xFF38F5, 0x5B09FF, 0x9CFC68, 0xAA0000, 0x03754B, 0x00640A,
    0x82EC00, 0xC8118F, 0x0D012C, 0x189CAE, 0x01901F, 0xA94F01, 0xF426B6, 0xF00258, 0x2DC311,
    0x02BC34, 0xD0B203, 0x203BDD,
];

// As many satellites as a frame holds.
fn most() {
    let entries = most_entries();
    let data = MOST_WORDS;
    show(b"V1d", 1, entries, 18, frame_of(0x660405, 0x0323F0, &data));
}

// The vectors of types 1 and 9.
fn main() {
    one();
    ends();
    stops();
    twice();
    most();
}

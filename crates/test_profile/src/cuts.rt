// What the sender cuts, and what it refuses.
use crate::entries::{worked, zeros_for};
use frame::{Frame, Header};
use profile::{Cut, Cutting};
use record_corrections::Correction;
use test_vectors::{header_with, print, print_frame, print_number, print_refusal};

// The header of a type, a Z count and a sequence: station 5, health 0.
fn header_of(kind: u8, z: u16, sequence: u8) -> Header {
    Header {
        z,
        sequence,
        ..header_with(kind)
    }
}

// Writes the frames below the number.
fn print_frames(frames: [Frame; 6], number: usize) {
    print_number(b"frames ", number as u64);
    print(b"\n");
    for frame in frames.iter().take(number) {
        print_frame(*frame);
    }
}

// Writes the name of a list, and its frames or the refusal's number.
fn vector(name: &[u8], sequence: u8, count: usize) {
    let cut = profile::cut_corrections(header_of(9, 100, sequence), worked(), count);
    print(name);
    let answer = cut.answer;
    let frames = cut.frames;
    match answer {
        Cutting::Frames(number) => print_frames(frames, number),
        Cutting::Refused(number) => print_refusal(number),
    }
}

// One, three, four and eighteen of the worked list: the sequence goes round from 7 to 0.
pub(crate) fn print_vectors() {
    vector(b"P1, sequence 3: ", 3, 1);
    vector(b"P3, sequence 7: ", 7, 3);
    vector(b"P4, sequence 7: ", 7, 4);
    vector(b"P18, sequence 6: ", 6, 18);
}

// Writes the name of a case, and how many frames were cut or the refusal's number.
fn outcome(name: &[u8], cut: Cut) {
    print(name);
    let answer = cut.answer;
    match answer {
        Cutting::Frames(number) => {
            print_number(b"frames ", number as u64);
            print(b"\n");
        }
        Cutting::Refused(number) => print_refusal(number),
    }
}

// Cuts the first of the worked list.
fn first(name: &[u8], header: Header, count: usize) {
    outcome(name, profile::cut_corrections(header, worked(), count));
}

// Cuts the worked list with another entry in the place of one.
fn changed(name: &[u8], at: usize, entry: Correction, count: usize) {
    let mut entries = worked();
    if at < 18 {
        entries[at] = entry;
    }
    outcome(
        name,
        profile::cut_corrections(header_of(9, 100, 3), entries, count),
    );
}

// What the sender refuses; satellite 32 is the first of the list.
pub(crate) fn print_answers() {
    first(b"type 1: ", header_of(1, 100, 3), 1);
    first(b"type 34: ", header_of(34, 100, 3), 1);
    first(b"Z 6000, no entry: ", header_of(9, 6000, 3), 0);
    first(b"no entry: ", header_of(9, 100, 3), 0);
    first(b"19 entries: ", header_of(9, 100, 3), 19);
    let mut entries = worked();
    entries[1] = zeros_for(33);
    entries[2] = zeros_for(32);
    outcome(
        b"satellite 33, and 32 twice: ",
        profile::cut_corrections(header_of(9, 100, 3), entries, 3),
    );
    changed(
        b"satellite 32 first and last of 18: ",
        17,
        zeros_for(32),
        18,
    );
    changed(
        b"satellite 32 first and fourth, in different frames: ",
        3,
        zeros_for(32),
        4,
    );
    changed(b"satellite 32 again past the count: ", 4, zeros_for(32), 4);
    first(b"sequence 8: ", header_of(9, 100, 8), 1);
}

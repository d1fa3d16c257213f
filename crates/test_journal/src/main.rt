// The journal's worked cases: what keeping and recalling answer, and the bytes, one line to a case.
#![tactic(auto)]

use frame::{Frame, Header};
use journal::{Found, Kept};
use test_vectors::{header_with, print, print_bytes, print_number};

// Writes a number with a space before it.
fn show_number(n: u64) {
    print_number(b" ", n);
}

// Writes type, station, Z count, sequence, N and health.
fn show_frame(frame: Frame) {
    let header = frame.header;
    show_number(header.kind as u64);
    show_number(header.station as u64);
    show_number(header.z as u64);
    show_number(header.sequence as u64);
    show_number(frame.n as u64);
    let state = header.state;
    match frame::health_of(state) {
        Ok(code) => show_number(code as u64),
        Err(refusal) => show_number(refusal.number() as u64),
    }
}

// Keeps a frame, and writes the answer and the whole buffer.
fn show_kept(frame: Frame, buffer: &mut [u8]) {
    match journal::keep(frame, buffer) {
        Kept::Done(length) => {
            print(b"kept");
            show_number(length as u64);
        }
        Kept::Refused(number) => {
            print(b"refused");
            show_number(number as u64);
        }
    }
    print(b":");
    print_bytes(buffer);
    print(b"\n");
}

// Recalls a record, and writes the answer and the frame.
fn show_recalled(bytes: &[u8]) {
    let recalled = journal::recall(bytes);
    let answer = recalled.answer;
    let frame = recalled.frame;
    match answer {
        Found::Record(length) => {
            print(b"recalled");
            show_number(length as u64);
            print(b":");
            show_frame(frame);
        }
        Found::Refused(number) => {
            print(b"refused");
            show_number(number as u64);
        }
    }
    print(b"\n");
}

// The null frame of station 5, sequence 3, health 0.
fn null_frame(z: u16) -> Frame {
    let header = Header {
        z,
        ..header_with(6)
    };
    let words = [0u32; 31];
    frame::built(header, 0, words)
}

// What keeping answers, and what it leaves in the buffer.
fn keeping() {
    let mut roomy = [0xEEu8; 12];
    show_kept(null_frame(100), &mut roomy);
    show_recalled(&roomy);
    show_kept(null_frame(8191), &mut roomy);
    show_recalled(&roomy);
    show_kept(null_frame(8192), &mut roomy);
    let mut short = [0xEEu8; 8];
    show_kept(null_frame(100), &mut short);
}

// A whole record with N 31, and the same one byte short.
fn longest() {
    let mut record = [0xA5u8; 102];
    record[..9].copy_from_slice(b"\x52\x32\x1F\x66\x18\x05\x03\x23\xF8");
    show_recalled(&record);
    show_recalled(&record[..101]);
}

// The refusals of recalling, in the order of their tests.
fn refusals() {
    show_recalled(b"\x52");
    show_recalled(b"\x52\x34\x00");
    show_recalled(b"\x52\x32");
    show_recalled(b"\x52\x32\x20");
    show_recalled(b"\x52\x32\x00\x66\x18\x05\x03\x23");
    show_recalled(b"\x52\x32\x00\x66\x18\x05\x03\x23\x08");
    show_recalled(b"\x52\x32\x00\x67\x18\x05\x03\x23\x00");
}

fn main() {
    keeping();
    longest();
    refusals();
}

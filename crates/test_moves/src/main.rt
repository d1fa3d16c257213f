// The worked records of request 107: kept with their words, moved there and back, refused; and a journal of three, moved.
#![tactic(auto)]

use frame::{Carried, Frame};
use journal::{Found, Kept};
use journal_moves::{Moved, Stop, Way};
use test_vectors::{print, print_bytes, print_number};

// Writes a number with a space before it.
fn show_number(n: u64) {
    print_number(b" ", n);
}

// Writes what a move answered, and the bytes.
fn show_moved(moved: Moved, bytes: &[u8]) {
    match moved {
        Moved::Done { read, written } => {
            show_number(read as u64);
            show_number(written as u64);
        }
        Moved::Refused(number) => show_number(number as u64),
    }
    print(b":");
    print_bytes(bytes);
    print(b"\n");
}

// Writes the record of a frame's words, the record of its data that this is moved to, and the one that this is moved to again.
fn show_words(frame: Frame, words: &mut [u8], data: &mut [u8]) {
    match journal::keep_words(frame, words) {
        Kept::Done(length) => show_number(length as u64),
        Kept::Refused(number) => show_number(number as u64),
    }
    print(b":");
    print_bytes(words);
    print(b"\n  old");
    let old = journal_moves::restore(words, data);
    show_moved(old, data);
    print(b"  new");
    let new = journal_moves::renew(data, words);
    show_moved(new, words);
}

// Shows a record of data as if its frame came after these two bits.
fn show_after(d29: u8, d30: u8, record: &[u8], words: &mut [u8], data: &mut [u8]) {
    let recalled = journal::recall(record);
    let frame = recalled.frame;
    let live = Frame {
        carried: Carried { d29, d30 },
        ..frame
    };
    show_words(live, words, data);
}

// Writes what recalling the words answers: the length, the pair and the type, or the number.
fn show_recalled(bytes: &[u8]) {
    let recalled = journal::recall_words(bytes);
    let answer = recalled.answer;
    let frame = recalled.frame;
    match answer {
        Found::Record(length) => {
            print(b"read");
            show_number(length as u64);
            show_number(frame.carried.d29 as u64);
            show_number(frame.carried.d30 as u64);
            show_number(frame.header.kind as u64);
        }
        Found::Refused(number) => {
            print(b"refused");
            show_number(number as u64);
        }
    }
    print(b"\n");
}

// Moves a journal, and writes how far it went, why it stopped, and the records.
fn show_journal(way: Way, bytes: &[u8], buffer: &mut [u8]) {
    let piece = journal_moves::move_all(way, bytes, buffer);
    let stop = piece.stop;
    print(b"moved");
    show_number(piece.read as u64);
    show_number(piece.written as u64);
    match stop {
        Stop::End => {
            print(b" end:");
        }
        Stop::At(number) => {
            show_number(number as u64);
            print(b":");
        }
    }
    print_bytes(buffer);
    print(b"\n");
}

// A to C: the null frame without a word, kept after three pairs, and moved.
fn pairs() {
    let record = b"\x52\x32\x00\x66\x18\x05\x03\x23\x00";
    let mut words = [0u8; 11];
    let mut data = [0u8; 9];
    show_after(0, 0, record, &mut words, &mut data);
    show_after(1, 1, record, &mut words, &mut data);
    show_after(0, 1, record, &mut words, &mut data);
}

// D and E: frames of one word and of two, kept and moved.
fn longer() {
    let one = b"\x52\x32\x01\x66\x18\x05\x03\x23\x08\xaa\xaa\xaa";
    show_after(0, 0, one, &mut [0u8; 15], &mut [0u8; 12]);
    let two = b"\x52\x32\x02\x66\x04\x05\x03\x23\x10\x03\x03\xe8\xfb\x4d\xaa";
    show_after(1, 0, two, &mut [0u8; 19], &mut [0u8; 15]);
}

// F: the refusals, in the order of their tests, and a byte more behind a record.
fn refusals() {
    show_recalled(b"");
    show_recalled(b"\x52");
    show_recalled(b"\x52\x32\x00\x66\x18\x05\x03\x23\x00");
    show_recalled(b"\x52\x34");
    show_recalled(b"\x52\x34\x20\x19\x86\x01\x7f\xff\x37\x3f\xc8");
    show_recalled(b"\x52\x34\x00\x19\x86\x01\x7f\xff\x37\x3f");
    show_recalled(b"\x52\x34\x01\x19\x86\x01\x7f\xff\x37\x3f\xc8");
    show_recalled(b"\x52\x34\x01\x19\x86\x01\x7f\xff\x37\x3f\xc8\x00\x00\x00\x00");
    show_recalled(b"\x52\x34\x00\x39\x86\x01\x7f\xff\x37\x3f\xc8");
    show_recalled(b"\x52\x34\x00\x19\xa6\x01\x7f\xff\x37\x3f\xc8");
    show_recalled(b"\x52\x34\x00\x19\x86\x01\x7e\xff\x37\x3f\xc8");
    show_recalled(b"\x52\x34\x00\x19\x86\x01\x7f\x7f\x37\x3f\xe1");
    show_recalled(b"\x52\x34\x00\x19\x86\x01\x7f\xff\x37\x3f\xc8\x00");
}

// G: a journal of three, there and back; without room for its last byte; a byte behind it; no record.
fn journals() {
    let old =
        b"\x52\x32\x00\x66\x18\x05\x03\x23\x00\x52\x32\x01\x66\x18\x05\x03\x23\x08\xaa\xaa\xaa\x52\x32\x02\x66\x04\x05\x03\x23\x10\x03\x03\xe8\xfb\x4d\xaa";
    let mut new = [0u8; 45];
    let mut back = [0u8; 36];
    let mut short = [0u8; 44];
    show_journal(Way::New, old, &mut new);
    show_journal(Way::Old, &new, &mut back);
    show_journal(Way::New, old, &mut short);
    show_journal(
        Way::Old,
        b"\x52\x34\x00\x19\x86\x01\x7f\xff\x37\x3f\xc8\x00",
        &mut back,
    );
    show_journal(Way::New, b"", &mut new);
}

fn main() {
    pairs();
    longer();
    refusals();
    journals();
}

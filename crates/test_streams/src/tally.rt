// What becomes of the frames of a stream: each is kept and recalled, its record's fields are summed and made into a frame
// again, and it is written.
use crate::again::made_again;
use crate::sum::Sum;
use frame::{Carried, Frame};
use journal::Found;
use reader::Reader;
use record_stages::Making;
use test_vectors::{print, print_number};
use writer::Written;

// Frames counted, the sums of the bytes kept and written and of the fields read, and the bits carried on.
#[derive(Clone, Copy)]
struct Tally {
    records: u64,
    remade: u64,
    kept: u64,
    written: u64,
    bytes: Sum,
    fields: Sum,
    carried: Carried,
}

// A reader, and what became of the frames that it has handed out.
#[derive(Clone, Copy)]
struct Run {
    reader: Reader,
    tally: Tally,
}

// One more, where it is so.
fn counted(count: u64, is_so: bool) -> u64 {
    count.wrapping_add(u64::from(is_so))
}

// A frame's journal record, with zeros after it; zeros alone if it is refused.
fn kept_bytes(frame: Frame) -> [u8; 102] {
    let mut buffer = [0u8; 102];
    journal::keep(frame, &mut buffer);
    buffer
}

// Whether two frames have the same journal record.
fn same_frame(a: Frame, b: Frame) -> bool {
    let first = kept_bytes(a);
    let second = kept_bytes(b);
    check::same(&first, &second)
}

// Whether a frame's journal record gives the frame.
fn is_kept(frame: Frame) -> bool {
    let recalled = journal::recall(&kept_bytes(frame));
    match recalled.answer {
        Found::Record(_) => same_frame(frame, recalled.frame),
        Found::Refused(_) => false,
    }
}

// A tally, with a frame's journal record.
fn with_kept(tally: Tally, frame: Frame) -> Tally {
    Tally {
        kept: counted(tally.kept, is_kept(frame)),
        bytes: tally.bytes.bytes(&kept_bytes(frame)),
        ..tally
    }
}

// Whether a frame is made.
fn is_made(answer: Making) -> bool {
    match answer {
        Making::Done => true,
        Making::Refused(_) => false,
    }
}

// A tally, with a frame's record: where it can't be read, the refusal's number is among the fields.
fn with_record(tally: Tally, frame: Frame) -> Tally {
    let again = made_again(frame, tally.fields);
    let made = again.made;
    let is_read = is_made(made.answer);
    Tally {
        records: counted(tally.records, is_read),
        remade: counted(tally.remade, is_read && same_frame(frame, made.frame)),
        fields: again.sum,
        ..tally
    }
}

// A tally, with a frame written after the bits carried on.
fn with_written(tally: Tally, frame: Frame) -> Tally {
    let mut buffer = [0u8; 165];
    match writer::write(frame, tally.carried, &mut buffer) {
        Written::Done { bytes: _, carried } => Tally {
            written: counted(tally.written, true),
            bytes: tally.bytes.bytes(&buffer),
            carried,
            ..tally
        },
        Written::Refused(_) => tally,
    }
}

// Every waiting frame is taken; no more than sixteen fit into the bits that a reader holds.
fn emptied(waiting: Reader, before: Tally) -> Run {
    let mut reader = waiting;
    let mut tally = before;
    for _ in 0..16 {
        if !reader.candidate.waits {
            break;
        }
        let taken = reader::take(reader);
        let frame = taken.frame;
        reader = taken.reader;
        tally = with_written(with_record(with_kept(tally, frame), frame), frame);
    }
    Run { reader, tally }
}

// Nothing yet: a stream is opened with zero bits.
fn nothing() -> Tally {
    Tally {
        records: 0,
        remade: 0,
        kept: 0,
        written: 0,
        bytes: Sum::zero(),
        fields: Sum::zero(),
        carried: Carried { d29: 0, d30: 0 },
    }
}

// What becomes of the frames of a whole stream.
fn tally_of(bytes: &[u8]) -> Tally {
    let mut reader = reader::new();
    let mut tally = nothing();
    for byte in bytes {
        let fed = reader::feed(reader, *byte);
        let run = emptied(fed.reader, tally);
        reader = run.reader;
        tally = run.tally;
    }
    let ended = reader::end(reader);
    let last = emptied(ended.reader, tally);
    last.tally
}

// Writes a label and both numbers of a sum.
fn print_sum(label: &[u8], sum: Sum) {
    print_number(label, sum.numbers);
    print_number(b" ", sum.sums);
}

// Writes the line of a stream.
pub(crate) fn print_tally(bytes: &[u8]) {
    let tally = tally_of(bytes);
    print_number(b"records ", tally.records);
    print_number(b" remade ", tally.remade);
    print_number(b" kept ", tally.kept);
    print_number(b" written ", tally.written);
    print_sum(b" sum ", tally.bytes);
    print_sum(b" fields ", tally.fields);
    print(b"\n");
}

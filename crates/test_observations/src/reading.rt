// What reading answers: one frame's words under both types and editions, every other N, a time past its range.
use crate::show::{named_count, print_at, print_head};
use frame::Frame;
use record_observations::Edition;
use test_vectors::{frame_of, print};

// A frame of a type with N words, all zeros.
fn blank(kind: u32, n: u32) -> Frame {
    let data = [0u32];
    frame_of(0x660005 + kind % 64 * 1024, 0x032300 + n % 32 * 8, &data)
}

// The same words as type 18 in both editions, and as type 19.
fn words() {
    let data = [0x072FE6u32, 0x8051FF, 0xFFFF00];
    let phases = frame_of(0x664805, 0x032318, &data);
    print(b"18, edition GOST: ");
    print_at(Edition::Gost, phases, 0);
    print(b"18, edition BD: ");
    print_at(Edition::Bd, phases, 0);
    print(b"19, edition GOST: ");
    print_at(Edition::Gost, frame_of(0x664C05, 0x032318, &data), 0);
}

// N is 3, 5, .. 31.
fn counts() {
    named_count(b"18, N 0: ", blank(18, 0));
    named_count(b"18, N 1: ", blank(18, 1));
    named_count(b"18, N 2: ", blank(18, 2));
    named_count(b"18, N 30: ", blank(18, 30));
    named_count(b"18, N 31: ", blank(18, 31));
    named_count(b"20, N 3: ", blank(20, 3));
}

// A time of 600000: the count does not look at it, 9 comes before it.
fn late() {
    let data = [0x0927C0u32, 0x010000, 0];
    let frame = frame_of(0x664805, 0x032318, &data);
    named_count(b"18, time 600000, count: ", frame);
    print(b"head: ");
    print_head(frame);
    print(b"satellite 0: ");
    print_at(Edition::Gost, frame, 0);
    print(b"satellite 1: ");
    print_at(Edition::Gost, frame, 1);
    let longer = [0x0FFFFFu32, 0];
    print(b"18, time 1048575, N 2: ");
    print_head(frame_of(0x664805, 0x032310, &longer));
}

// What reading answers.
pub(crate) fn print_answers() {
    words();
    counts();
    late();
}

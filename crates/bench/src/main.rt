// The reader's speed: standard input is fed a hundred times over, each time from one byte further on, and every frame is taken. With the argument
// `all` it goes in by `feed_all`, with `each` byte by byte by `feed`, with none in both ways. Written are the frames of all rounds.
#![tactic(auto)]

use reader::Reader;
use std::env::Env;

// The file number of standard input.
const STDIN: i32 = 0;

// The file number of standard output.
const STDOUT: i32 = 1;

// A reader, and how many frames it has handed out.
#[derive(Clone, Copy)]
struct Count {
    reader: Reader,
    frames: u64,
}

// Every waiting frame is taken; no more than sixteen fit into the bits that a reader holds.
fn emptied(reader: Reader, frames: u64) -> Count {
    let mut r = reader;
    let mut count = frames;
    for _ in 0..16 {
        if !r.candidate.waits {
            break;
        }
        let taken = reader::take(r);
        r = taken.reader;
        count = count.wrapping_add(1);
    }
    Count {
        reader: r,
        frames: count,
    }
}

// The frames in bytes that go in by `feed_all`.
fn all(bytes: &[u8]) -> u64 {
    let mut r = reader::new();
    let mut frames: u64 = 0;
    let mut at: usize = 0;
    // kept: a while over what each call uses, since with a `for` the count took a quarter more time
    while at < bytes.len() {
        let fed = reader::feed_all(r, &bytes[at..]);
        let used = fed.used;
        // never so: a reader whose frames are taken uses a byte, and no more than there are
        if used == 0 {
            return frames;
        }
        if bytes.len() - at < used {
            return frames;
        }
        at += used;
        let next = emptied(fed.reader, frames);
        r = next.reader;
        frames = next.frames;
    }
    frames
}

// The frames in bytes that go in one by one by `feed`.
fn each(bytes: &[u8]) -> u64 {
    let mut r = reader::new();
    let mut frames: u64 = 0;
    for byte in bytes {
        let fed = reader::feed(r, *byte);
        r = fed.reader;
        if r.candidate.waits {
            let next = emptied(r, frames);
            r = next.reader;
            frames = next.frames;
        }
    }
    frames
}

// The frames of a hundred rounds, counted in one of the two ways. No two rounds have the same bytes, so that each is worked out.
fn rounds<F: Fn(&[u8]) -> u64>(bytes: &[u8], frames_in: F) -> u64
    requires { F.IsAlwaysCallable frames_in }
{
    let mut frames: u64 = 0;
    for from in 0..100usize {
        let Some(round) = bytes.get(from..) else {
            break;
        };
        frames = frames.wrapping_add(frames_in(round));
    }
    frames
}

// Whether the argument begins with a letter, or is missing. One that is too long for the word leaves its beginning there.
fn asked(rt: &HostRuntime, letter: u8) -> bool {
    let mut word = [letter; 16];
    let _ = rt.arg(1, &mut word);
    word[0] == letter
}

// Writes a number and ends the line.
fn show(number: u64) {
    io::print_decimal(STDOUT, number);
    io::write_all(STDOUT, b"\n");
}

fn main(rt: HostRuntime) {
    let mut buffer = [0u8; 400000];
    let n = io::read_full(STDIN, &mut buffer);
    if asked(&rt, b'a') {
        show(rounds(&buffer[..n], all));
    }
    if asked(&rt, b'e') {
        show(rounds(&buffer[..n], each));
    }
}

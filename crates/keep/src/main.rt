// `keep < line > journal` keeps every frame of a line with its words, as soon as it is handed out.
#![tactic(auto)]

use frame::Frame;
use journal::Kept;
use reader::{Answer, Reader};
use std::io::{Read, Stdin};

// The file number of standard output.
const STDOUT: i32 = 1;

// The file number of standard error.
const STDERR: i32 = 2;

// What the system failed with.
#[derive(Clone, Copy, Debug, PartialEq, Eq)]
enum Failure {
    Line,
    Journal,
}

// Says what failed.
fn say(failure: Failure) {
    let words: &[u8] = match failure {
        Failure::Line => b"keep: the line cannot be read\n",
        Failure::Journal => b"keep: the journal cannot be written\n",
    };
    io::write_all(STDERR, words);
}

// Writes a frame's record. No frame that is handed out is refused, and the longest record has 135 bytes.
fn keep_frame(frame: Frame) -> Result<(), Failure> {
    let mut record = [0u8; 135];
    let Kept::Done(length) = journal::keep_words(frame, &mut record) else {
        return Ok(());
    };
    if length > 135 {
        return Ok(());
    }
    if io::write_all(STDOUT, &record[..length]) {
        Ok(())
    } else {
        Err(Failure::Journal)
    }
}

// Takes the frames that wait and keeps them, until none waits. The turns are counted up to a number that no run uses up.
fn keep_waiting(reader: Reader) -> Result<Reader, Failure> {
    let mut state = reader;
    for _ in 0..u64::MAX {
        let took = reader::take(state);
        let answer = took.answer;
        state = took.reader;
        let Answer::Done = answer else {
            break;
        };
        keep_frame(took.frame)?;
    }
    Ok(state)
}

// Feeds bytes, and keeps each frame before any byte behind it is fed. A reader whose frames are taken uses a byte at least of those that it is fed.
fn keep_bytes(reader: Reader, bytes: &[u8]) -> Result<Reader, Failure> {
    let mut state = reader;
    let mut rest = bytes;
    for _ in 0..bytes.len() {
        let fed = reader::feed_all(state, rest);
        state = keep_waiting(fed.reader)?;
        rest = rest.get(fed.used..).unwrap_or_default();
        if rest.is_empty() {
            break;
        }
    }
    Ok(state)
}

// Reads once, and keeps the frames that what came completes; none where the input is at its end.
fn keep_some(mut line: Stdin, reader: Reader) -> Result<Option<Reader>, Failure> {
    let mut input = io::large_buffer();
    let n = line.read(&mut input).map_err(|_| Failure::Line)?;
    if n == 0 {
        return Ok(None);
    }
    keep_bytes(reader, &input[..n]).map(Some)
}

// Keeps all of standard input, and the frames that its end releases.
fn keep_all(line: Stdin) -> Result<(), Failure> {
    let mut state = reader::new();
    for _ in 0..u64::MAX {
        let Some(next) = keep_some(line, state)? else {
            let ended = reader::end(state);
            keep_waiting(ended.reader)?;
            return Ok(());
        };
        state = next;
    }
    Ok(())
}

fn main(rt: HostRuntime) {
    if let Err(failure) = keep_all(rt.stdin()) {
        say(failure);
    }
}

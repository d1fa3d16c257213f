// `list < stream` prints what the line said: a line for each frame, and two lines of totals.
#![tactic(auto)]

use listing::Listing;
use std::io::{Read, Stdin};

// The file number of standard output.
const STDOUT: i32 = 1;

// The file number of standard error.
const STDERR: i32 = 2;

// What the system failed with.
#[derive(Clone, Copy, Debug, PartialEq, Eq)]
enum Failure {
    Input,
    Output,
}

// Says what failed.
fn say(failure: Failure) {
    let words: &[u8] = match failure {
        Failure::Input => b"list: the input cannot be read\n",
        Failure::Output => b"list: the output cannot be written\n",
    };
    io::write_all(STDERR, words);
}

// Writes text to standard output.
fn print_text(text: &[u8]) -> Result<(), Failure> {
    if io::write_all(STDOUT, text) {
        Ok(())
    } else {
        Err(Failure::Output)
    }
}

// Lists bytes, and prints their text each time that the buffer has no room for more.
fn list_bytes(listing: Listing, bytes: &[u8]) -> Result<Listing, Failure> {
    let mut text = io::large_buffer();
    let mut state = listing;
    let mut from: usize = 0;
    for _ in 0..u64::MAX {
        let listed = listing::list_piece(state, &bytes[from..], &mut text);
        from += listed.used;
        state = listed.listing;
        if listed.written == 0 {
            break;
        }
        print_text(&text[..listed.written])?;
    }
    Ok(state)
}

// Reads once, and lists what came; none where the input is at its end.
fn list_some(mut stream: Stdin, listing: Listing) -> Result<Option<Listing>, Failure> {
    let mut input = io::large_buffer();
    let n = stream.read(&mut input).map_err(|_| Failure::Input)?;
    if n == 0 {
        return Ok(None);
    }
    list_bytes(listing, &input[..n]).map(Some)
}

// Prints the lines that the end releases, and the last line.
fn print_end(listing: Listing) -> Result<(), Failure> {
    let mut text = io::buffer();
    let listed = listing::finish(listing, &mut text);
    print_text(&text[..listed.written])
}

// Lists all of standard input. The turns are counted up to a number that no run uses up.
fn list_all(stream: Stdin) -> Result<(), Failure> {
    let mut state = listing::new();
    for _ in 0..u64::MAX {
        let Some(next) = list_some(stream, state)? else {
            return print_end(state);
        };
        state = next;
    }
    Ok(())
}

fn main(rt: HostRuntime) {
    if let Err(failure) = list_all(rt.stdin()) {
        say(failure);
    }
}

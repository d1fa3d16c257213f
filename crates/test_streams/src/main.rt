// `test_streams FILE..` prints each file's name and the listing of its first 4096 bytes. They are listed twice, as one piece and in pieces of seven bytes,
// and where the two texts differ, both are printed. Then comes a line on what becomes of the frames, and after all files what times stand for.
#![tactic(auto)]

ghost use Rattle.std.specs.Prelude.{◌≤◌, length};
ghost use Rattle.io.specs.Counts.{IsPrefixLen};

mod again;
mod ends;
mod generals;
mod observed;
mod sum;
mod tally;

use listing::Listing;
use std::alloc::Global;
use std::env::{Env, FillError};
use std::fs::File;
use std::io::{Error, ErrorKind, Read};
use test_vectors::print;

// The file number of standard error.
const STDERR: i32 = 2;

// A listing under way: bytes of the last piece used, bytes of text written in all.
#[derive(Clone, Copy)]
struct Lined {
    used: usize,
    written: usize,
    listing: Listing,
}

// Lists a piece, with its text from `written` on.
fn put_piece(listing: Listing, piece: &[u8], written: usize, text: &mut [u8]) -> Lined
    requires { written ≤ length text.old }
    ensures { (result.used ≤ length piece.now) × IsPrefixLen result.written text.new }
{
    let listed = listing::list_piece(listing, piece, &mut text[written..]);
    let next = listed.listing;
    Lined {
        used: listed.used,
        written: written + listed.written,
        listing: next,
    }
}

// Ends a listing, with its text from `written` on, and answers how many bytes of text there are.
fn put_end(listing: Listing, written: usize, text: &mut [u8]) -> usize
    requires { written ≤ length text.old }
    ensures { IsPrefixLen result text.new }
{
    let listed = listing::finish(listing, &mut text[written..]);
    written + listed.written
}

// Lists bytes in pieces of `size` bytes, and answers how many bytes of text there are.
fn list_pieces(bytes: &[u8], size: usize, text: &mut [u8]) -> usize
    ensures { IsPrefixLen result text.new }
{
    let mut state = listing::new();
    let mut at: usize = 0;
    let mut written: usize = 0;
    // kept: no index is counted here, the listing says how many bytes of a piece it used
    while at < bytes.len() {
        let end = at + size.min(bytes.len() - at);
        let lined = put_piece(state, &bytes[at..end], written, text);
        let used = lined.used;
        written = lined.written;
        state = lined.listing;
        // never so: there is room for all the lines of 4096 bytes
        if used == 0 {
            return written;
        }
        at += used;
    }
    put_end(state, written, text)
}

// Lists bytes in both ways.
fn list_twice(bytes: &[u8]) {
    let mut whole = io::large_buffer();
    let mut parts = io::large_buffer();
    let n = list_pieces(bytes, 4096, &mut whole);
    let m = list_pieces(bytes, 7, &mut parts);
    print(&whole[..n]);
    if !check::same(&whole[..n], &parts[..m]) {
        print(b"in pieces:\n");
        print(&parts[..m]);
    }
}

// Reads until the bytes are full, the file is at its end or a read fails, and answers how many came.
fn read_full(mut file: File, bytes: &mut [u8]) -> usize
    ensures { IsPrefixLen result bytes.new }
{
    let mut done: usize = 0;
    // kept: no index is counted here, each read says how many bytes came
    while done < bytes.len() {
        match file.read(&mut bytes[done..]) {
            Ok(0) => return done,
            Ok(more) => done += more,
            Err(_) => return done,
        }
    }
    done
}

// Lists what a file has.
fn list_file(file: File) {
    let mut bytes = io::buffer();
    let size = read_full(file, &mut bytes);
    list_twice(&bytes[..size]);
    tally::print_tally(&bytes[..size]);
}

// Opens a file to be read. The names of files are text.
fn open_read(rt: &HostRuntime, name: &[u8]) -> Result<File, Error> {
    match std::str::from_utf8(name) {
        Ok(path) => File::open(rt, path),
        Err(_) => Err(Error::new(ErrorKind::InvalidInput, "the name is not UTF-8")),
    }
}

// Writes what a failure is: the system's words, without the number that std puts behind them.
fn say_words(text: &str) {
    match text.split_once(" (os error ") {
        Some((words, _)) => io::write_all(STDERR, words.as_bytes()),
        None => io::write_all(STDERR, text.as_bytes()),
    };
}

// Says what the system failed with on a file.
fn say_failure(alloc: Global, name: &[u8], error: Error) {
    io::write_all(STDERR, name);
    io::write_all(STDERR, b": ");
    if let Ok(text) = format!(in alloc; "{error}") {
        say_words(text.as_str());
    }
    io::write_all(STDERR, b"\n");
}

// Lists the file of a name, which is written first.
fn try_name(rt: &HostRuntime, name: &[u8]) {
    print(name);
    print(b"\n");
    match open_read(rt, name) {
        Ok(file) => list_file(file),
        Err(error) => say_failure(rt.alloc(), name, error),
    }
}

// Lists the file that an argument names, and answers whether there is such an argument. One that is too long for the buffer is no name.
fn try_file(rt: &HostRuntime, i: usize) -> bool {
    let mut name = io::buffer();
    match rt.arg(i, &mut name) {
        Ok(n) => try_name(rt, &name[..n]),
        Err(FillError::TooLong) => try_name(rt, b""),
        Err(FillError::NotPresent) => return false,
    }
    true
}

fn main(rt: HostRuntime) {
    for i in 1..usize::MAX {
        if !try_file(&rt, i) {
            break;
        }
    }
    ends::print_ends();
}

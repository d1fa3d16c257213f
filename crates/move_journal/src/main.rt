// `move_journal new < journal > journal` moves records that keep the data to the form that keeps the words, `move_journal old` moves them back.
#![tactic(auto)]

ghost use Rattle.std.specs.Prelude.{◌≡◌, ◌≤◌, length, IfSome};

use journal_moves::{Stop, Way};
use std::env::Env;

// The file number of standard input.
const STDIN: i32 = 0;

// The file number of standard output.
const STDOUT: i32 = 1;

// The file number of standard error.
const STDERR: i32 = 2;

// A record is no longer than this; with as many bytes at hand, or where the input has ended, what refuses it is final.
const LONGEST: usize = 135;

// Says where the run stops, and why.
fn say_stop(number: u8, at: u64) {
    io::write_all(STDERR, b"move_journal: refusal ");
    io::print_decimal(STDERR, number as u64);
    io::write_all(STDERR, b" at byte ");
    io::print_decimal(STDERR, at);
    match number {
        14 => io::write_all(STDERR, b": no record of the form that is moved from\n"),
        15 => io::write_all(STDERR, b": the record is cut short\n"),
        16 => io::write_all(STDERR, b": N or the preamble is wrong\n"),
        _ => io::write_all(STDERR, b": a word was altered\n"),
    };
}

// Moves what is whole of the bytes, which begin at `at` of the journal, and writes it; `ended` where no more bytes follow these. Answers how many
// bytes are moved; none where the run is over. The turns are counted up to a number that no run uses up.
fn move_bytes(way: Way, bytes: &[u8], at: u64, ended: bool) -> Option<usize>
    ensures { IfSome result (λ read. read ≤ length bytes.now) }
{
    let mut out = io::large_buffer();
    let mut from: usize = 0;
    for _ in 0..u64::MAX {
        let piece = journal_moves::move_all(way, &bytes[from..], &mut out);
        from += piece.read;
        if !io::write_all(STDOUT, &out[..piece.written]) {
            io::write_all(STDERR, b"move_journal: the output cannot be written\n");
            return None;
        }
        let Stop::At(number) = piece.stop else {
            return Some(from);
        };
        if number != 13 {
            if !ended && bytes.len() - from < LONGEST {
                return Some(from);
            }
            say_stop(number, at.wrapping_add(from as u64));
            return None;
        }
    }
    None
}

// Fills the window behind the bytes that it holds, and answers how many it then holds: all of it, unless the input has ended.
fn fill(window: &mut [u8], held: usize) -> usize
    requires { held ≤ length window.old }
    ensures upper_bound { result ≤ length window.new }
    ensures window_len_unchanged { length window.new ≡ length window.old }
{
    let got = io::read_full(STDIN, &mut window[held..]);
    held + got
}

// Moves all of standard input, a window at a time: what is not moved yet is brought to the window's start.
fn move_input(way: Way, window: &mut [u8]) {
    let mut held: usize = 0;
    let mut at: u64 = 0;
    for _ in 0..u64::MAX {
        let end = fill(window, held);
        let ended = end < window.len();
        let Some(read) = move_bytes(way, &window[..end], at, ended) else {
            return;
        };
        if ended {
            return;
        }
        at = at.wrapping_add(read as u64);
        window.copy_within(read..end, 0);
        held = end - read;
    }
}

// The argument is this word. One that is missing or too long for the buffer is none.
fn asked(rt: &HostRuntime, word: &[u8]) -> bool {
    let mut given = io::buffer();
    match rt.arg(1, &mut given) {
        Ok(n) => &given[..n] == word,
        Err(_) => false,
    }
}

fn main(rt: HostRuntime) {
    let mut window = io::large_buffer();
    if asked(&rt, b"new") {
        move_input(Way::New, &mut window);
    } else if asked(&rt, b"old") {
        move_input(Way::Old, &mut window);
    } else {
        io::write_all(STDERR, b"move_journal: the argument is new or old\n");
    }
}

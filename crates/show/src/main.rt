// `show < journal` prints a journal of either form: a line for each record, which begins with the place of its first byte.
#![tactic(auto)]

ghost use Rattle.std.specs.Prelude.{◌≡◌, ◌≤◌, length};

use frame::Frame;
use journal::Found;

// The file number of standard input.
const STDIN: i32 = 0;

// The file number of standard output.
const STDOUT: i32 = 1;

// The file number of standard error.
const STDERR: i32 = 2;

// How many bytes follow the first three of a record: 3N + 6, or 4N + 8 where it keeps the words. Where N is over 31, none are asked for.
fn size_after(form: u8, n: u8) -> usize
    ensures { result ≤ 132 }
{
    if n > 31 {
        return 0;
    }
    if form == 0x34 {
        return 4 * n as usize + 8;
    }
    3 * n as usize + 6
}

// Reads a record's first three bytes and then the others, as far as there are any, and answers how many bytes came.
fn read_record(bytes: &mut [u8]) -> usize
    requires { length bytes.old ≡ 135 }
    ensures upper_bound { result ≤ 135 }
    ensures bytes_len { length bytes.new ≡ 135 }
{
    let head = io::read_full(STDIN, &mut bytes[..3]);
    if head < 3 {
        return head;
    }
    let end = 3 + size_after(bytes[1], bytes[2]);
    let rest = io::read_full(STDIN, &mut bytes[3..end]);
    3 + rest
}

// Prints a record's line, or says that it cannot. No frame that was recalled is refused, and there is room for the longest line.
fn print_line(at: u64, frame: Frame) -> bool {
    let mut text = io::buffer();
    let Ok(end) = listing::put_line(at, frame, &mut text) else {
        return true;
    };
    if end > text.len() {
        return true;
    }
    let is_written = io::write_all(STDOUT, &text[..end]);
    if !is_written {
        io::write_all(STDERR, b"show: the output cannot be written\n");
    }
    is_written
}

// Says where the run stops, and why.
fn say_stop(number: u8, at: u64) {
    io::write_all(STDERR, b"show: refusal ");
    io::print_decimal(STDERR, number as u64);
    io::write_all(STDERR, b" at byte ");
    io::print_decimal(STDERR, at);
    match number {
        14 => io::write_all(STDERR, b": no record of either form\n"),
        15 => io::write_all(STDERR, b": the record is cut short\n"),
        16 => io::write_all(STDERR, b": N or the preamble is wrong\n"),
        _ => io::write_all(STDERR, b": a word was altered\n"),
    };
}

// Shows the record at place `at` of the journal, and answers how many bytes it has; none where the run is over.
fn show_record(at: u64) -> Option<u64> {
    let mut record = [0u8; 135];
    let n = read_record(&mut record);
    if n == 0 {
        return None;
    }
    let recalled = journal::recall_either(&record[..n]);
    match recalled.answer {
        Found::Record(length) => print_line(at, recalled.frame).then_some(length as u64),
        Found::Refused(number) => {
            say_stop(number, at);
            None
        }
    }
}

// Shows all of standard input. The turns are counted up to a number that no run uses up.
fn show_all() {
    let mut at: u64 = 0;
    for _ in 0..u64::MAX {
        let Some(length) = show_record(at) else {
            return;
        };
        at = at.wrapping_add(length);
    }
}

fn main() {
    show_all();
}

// The files of the arguments, one after the other: each is read whole, and its report is added to that of the files before it.
ghost use Rattle.io.specs.Counts.{IsPrefixLen};

use crate::STDERR;
use crate::pieces::{Course, Ending, read_file};
use season_reports::{Added, Adding, Report};
use std::alloc::Global;
use std::env::Env;
use std::fs::File;
use std::io::{Error, ErrorKind};
use std::ops::ControlFlow;

// Starts a line on standard error with the name of a file.
fn say_name(name: &[u8]) {
    io::write_all(STDERR, b"season: ");
    io::write_all(STDERR, name);
}

// Writes what a failure is: the system's words, without the number that std puts behind them.
fn say_words(text: &str) {
    match text.split_once(" (os error ") {
        Some((words, _)) => io::write_all(STDERR, words.as_bytes()),
        None => io::write_all(STDERR, text.as_bytes()),
    };
}

// Says what a call of the system failed with on a file.
fn say_failure(alloc: Global, name: &[u8], error: Error) {
    say_name(name);
    io::write_all(STDERR, b": ");
    if let Ok(text) = format!(in alloc; "{error}") {
        say_words(text.as_str());
    }
    io::write_all(STDERR, b"\n");
}

// Says a refusal's number of a file.
fn say_refusal(name: &[u8], number: u8) {
    say_name(name);
    io::write_all(STDERR, b": refusal ");
    io::print_decimal(STDERR, number as u64);
}

// Says at which record a file stops, where it does.
fn say_stop(name: &[u8], ending: Ending, at: u64) {
    let Ending::Stopped(number) = ending else {
        return;
    };
    say_refusal(name, number);
    io::write_all(STDERR, b" at byte ");
    io::print_decimal(STDERR, at);
    io::write_all(STDERR, b"\n");
}

// A refusal, with the report as it was.
fn refused(report: Report, number: u8) -> Added {
    let answer = Adding::Refused(number);
    Added { answer, report }
}

// Whether an answer is that a key has no row.
fn is_no_room(answer: Adding) -> bool {
    match answer {
        Adding::Done => false,
        Adding::Refused(number) => number == 18,
    }
}

// The report of a file added to that of the files before it, as if the file had been one piece. 18 is over all its keys and those before: the
// file's own were too many, or both together are. 19 is over all counts: one passed within the file, or does in the sum; and 18 comes first.
fn with_course(report: Report, course: Course) -> Added {
    if course.is_full {
        return refused(report, 18);
    }
    let more = course.report;
    let sum = season_reports::add_report(report, more);
    if !course.is_passed {
        return sum;
    }
    if is_no_room(sum.answer) {
        return sum;
    }
    refused(report, 19)
}

// The report with a file's records. On a refusal the run is over, and the report as it was.
fn with_records(report: Report, name: &[u8], course: Course) -> ControlFlow<Report, Report> {
    let sum = with_course(report, course);
    match sum.answer {
        Adding::Done => {
            say_stop(name, course.ending, course.at);
            ControlFlow::Continue(sum.report)
        }
        Adding::Refused(number) => {
            say_refusal(name, number);
            io::write_all(STDERR, b"\n");
            ControlFlow::Break(sum.report)
        }
    }
}

// Opens a file to be read. The names of files are text.
fn open_read(rt: &HostRuntime, name: &[u8]) -> Result<File, Error> {
    match std::str::from_utf8(name) {
        Ok(path) => File::open(rt, path),
        Err(_) => Err(Error::new(ErrorKind::InvalidInput, "the name is not UTF-8")),
    }
}

// Argument number `i` at the start of a buffer: how many bytes it has, none where it is missing or too long.
fn argument(rt: &HostRuntime, i: usize, buffer: &mut [u8]) -> usize
    ensures { IsPrefixLen result buffer.new }
{
    rt.arg(i, buffer).unwrap_or(0)
}

// Reads a file that is open.
fn with_opened(
    rt: &HostRuntime,
    report: Report,
    name: &[u8],
    mut file: File,
    window: &mut [u8],
) -> ControlFlow<Report, Report> {
    let course = read_file(&mut file, window);
    if let Ending::Unread(error) = course.ending {
        say_failure(rt.alloc(), name, error);
    }
    with_records(report, name, course)
}

// Opens and reads a file. What can't be opened or read is said; the records before that place count.
fn with_file(
    rt: &HostRuntime,
    report: Report,
    name: &[u8],
    window: &mut [u8],
) -> ControlFlow<Report, Report> {
    match open_read(rt, name) {
        Ok(file) => with_opened(rt, report, name, file, window),
        Err(error) => {
            say_failure(rt.alloc(), name, error);
            ControlFlow::Continue(report)
        }
    }
}

// The report with the file that argument number `i` names; a break ends the run.
pub(crate) fn with_argument(
    rt: &HostRuntime,
    report: Report,
    i: usize,
    window: &mut [u8],
) -> ControlFlow<Report, Report> {
    let mut name = io::buffer();
    let length = argument(rt, i, &mut name);
    with_file(rt, report, &name[..length], window)
}

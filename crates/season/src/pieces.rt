// A journal's file read in pieces, and the report of its records. The pieces are gathered in a report of this file alone: what the file adds to
// those before it, and what it is refused with, is then settled once, at its end, and does not hang on where a piece ends.
ghost use Rattle.std.specs.Prelude.{◌≡◌, ◌≤◌, length};

use crate::window::{Filling, fill};
use journal::Found;
use season_reports::{Adding, Extremes, JournalReport, Report, Row};
use std::fs::File;
use std::io::Error;

// A record is no longer than this; with as many bytes at hand, or where the file has ended, what refuses it is final.
const LONGEST: usize = 135;

// What a piece left: the report of the file, whether its keys found no room, whether a count passed, and how many bytes are used.
#[derive(Clone, Copy)]
struct Taken {
    report: Report,
    is_full: bool,
    is_passed: bool,
    used: usize,
}

// How a file ended: more of it may follow, all of it was read, the record at `at` is refused with a number, or a read failed.
#[derive(Clone, Copy)]
pub(crate) enum Ending {
    Open,
    Whole,
    Stopped(u8),
    Unread(Error),
}

// What was read of a file, up to the place `at`. Once a count has passed, the report has the keys of the file, and counts of its last pieces alone.
#[derive(Clone, Copy)]
pub(crate) struct Course {
    pub report: Report,
    pub is_full: bool,
    pub is_passed: bool,
    pub at: u64,
    pub held: usize,
    pub ending: Ending,
}

// The keys of a report, with nothing counted.
fn keys_of(mut report: Report) -> Report {
    for row in report.rows.iter_mut() {
        *row = Row {
            key: row.key,
            usable: 0,
            stops: 0,
            extremes: Extremes::Absent,
            sum: 0,
        };
    }
    report
}

// Whether an answer is that a count would pass.
fn is_count(answer: Adding) -> bool {
    match answer {
        Adding::Done => false,
        Adding::Refused(number) => number == 19,
    }
}

// Whether an answer is a refusal.
fn is_refused(answer: Adding) -> bool {
    match answer {
        Adding::Done => false,
        Adding::Refused(_) => true,
    }
}

// What was added of a piece.
fn taken_of(added: JournalReport, is_passed: bool) -> Taken {
    let answer = added.answer;
    let report = added.report;
    Taken {
        report,
        is_full: is_refused(answer),
        is_passed,
        used: added.used,
    }
}

// The records at the start of a piece, added to the report of the file. Where a count would pass, the piece is added to the keys alone: a later
// piece may have a key without a row, and it is that what the file is then refused with. A piece alone has too few entries for a count to pass.
fn take_piece(report: Report, is_passed: bool, piece: &[u8]) -> Taken {
    let added = season_reports::add_journal(report, piece);
    let answer = added.answer;
    if !is_count(answer) {
        return taken_of(added, is_passed);
    }
    let again = season_reports::add_journal(keys_of(report), piece);
    taken_of(again, true)
}

// That the file stops at a record, with what refuses it.
fn stop_at(bytes: &[u8]) -> Ending {
    let recalled = journal::recall_either(bytes);
    let answer = recalled.answer;
    match answer {
        // never so: what recalls was added
        Found::Record(_) => Ending::Open,
        Found::Refused(number) => Ending::Stopped(number),
    }
}

// How the file goes on behind a piece, with these bytes left of it.
fn ending_of(filling: Result<Filling, Error>, left: &[u8]) -> Ending {
    if left.len() >= LONGEST {
        return stop_at(left);
    }
    match filling {
        Ok(Filling::Full) => Ending::Open,
        Ok(Filling::End) if left.is_empty() => Ending::Whole,
        Ok(Filling::End) => stop_at(left),
        Err(error) => Ending::Unread(error),
    }
}

// One piece more.
fn read_piece(file: &mut File, course: Course, window: &mut [u8]) -> Course
    requires { course.held ≤ length window.old }
    ensures held_in_bounds { result.held ≤ length window.new }
    ensures window_len_unchanged { length window.new ≡ length window.old }
{
    let mut end = course.held;
    let filling = fill(file, window, &mut end);
    let before = course.report;
    let taken = take_piece(before, course.is_passed, &window[..end]);
    let report = taken.report;
    // always all of it: the records lie in the piece
    let used = taken.used.min(end);
    let ending = ending_of(filling, &window[used..end]);
    window.copy_within(used..end, 0);
    Course {
        report,
        is_full: taken.is_full,
        is_passed: taken.is_passed,
        at: std::num::wrapping_add_u64(course.at, used as u64),
        held: end - used,
        ending,
    }
}

// Whether a file has ended, or need not be read any further.
fn is_ended(course: Course) -> bool {
    if course.is_full {
        return true;
    }
    !matches!(course.ending, Ending::Open)
}

// The report of a file, read piece by piece. There are more turns than any run uses up.
pub(crate) fn read_file(file: &mut File, window: &mut [u8]) -> Course {
    let mut course = Course {
        report: season_reports::empty(),
        is_full: false,
        is_passed: false,
        at: 0,
        held: 0,
        ending: Ending::Open,
    };
    for _ in 0..u64::MAX {
        course = read_piece(file, course, window);
        if is_ended(course) {
            return course;
        }
    }
    course
}

// `season FILE..` prints what the journals in these files say of corrections, in lines of tabs that a spreadsheet reads: one for each system,
// station and satellite in the order first seen, and a last one of totals. Standard error has a line for each file of which something can't be
// read; the run goes on with the next. A file that a report has no room for ends the run, and what is printed is the report of the files before.
#![tactic(auto)]

mod files;
mod lines;
mod pieces;
mod sums;
mod window;

use season_reports::Report;
use std::env::{Env, FillError};
use std::ops::ControlFlow;

// The file number of standard output.
pub(crate) const STDOUT: i32 = 1;

// The file number of standard error.
pub(crate) const STDERR: i32 = 2;

// The report of the files that the arguments name, as far as they are added.
fn report_of_files(rt: &HostRuntime, count: usize, window: &mut [u8]) -> Report {
    let mut report = season_reports::empty();
    for i in 1..count {
        match files::with_argument(rt, report, i, window) {
            ControlFlow::Continue(more) => report = more,
            ControlFlow::Break(last) => return last,
        }
    }
    report
}

// Whether there is an argument of this number; the program's name is number 0.
fn has_argument(rt: &HostRuntime, i: usize) -> bool {
    let mut first = [0u8; 1];
    !matches!(rt.arg(i, &mut first), Err(FillError::NotPresent))
}

// How many arguments there are, the program's name among them.
fn argument_count(rt: &HostRuntime) -> usize {
    for count in 0..usize::MAX {
        if !has_argument(rt, count) {
            return count;
        }
    }
    usize::MAX
}

fn main(rt: HostRuntime) {
    let count = argument_count(&rt);
    if count < 2 {
        io::write_all(STDERR, b"usage: season FILE..\n");
        return;
    }
    let mut window = io::large_buffer();
    let report = report_of_files(&rt, count, &mut window);
    if !lines::print_report(report) {
        io::write_all(STDERR, b"season: the output cannot be written\n");
    }
}

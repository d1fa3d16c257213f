// All of IN mended to OUT, a turn for each read.
use crate::STDERR;
use crate::course::Course;
use crate::progress::print_progress;
use crate::report::print_totals;
use crate::window::mend_window;
use std::fs::File;
use std::io::{Read, Write};

// A turn that failed; what failed is said.
#[derive(Clone, Copy, Debug, PartialEq, Eq)]
struct Failed;

// Says what failed.
fn say_failed(what: &[u8]) -> Failed {
    io::write_all(STDERR, what);
    Failed
}

// Reads once behind the bytes that are kept, mends, and writes what was dealt with. Answers how many bytes are kept for the next turn; none where the
// input is at its end.
fn mend_some(
    input: &mut File,
    output: &mut File,
    kept: usize,
    course: &mut Course,
    buffer: &mut [u8],
) -> Result<Option<usize>, Failed> {
    if buffer.len() <= kept {
        return Err(say_failed(b"mend: the buffer is too small\n"));
    }
    let Ok(got) = input.read(&mut buffer[kept..]) else {
        return Err(say_failed(b"mend: IN cannot be read\n"));
    };
    let end = kept + got;
    let used = mend_window(course, got == 0, &mut buffer[..end]);
    if output.write_all(&buffer[..used]).is_err() {
        return Err(say_failed(b"mend: OUT cannot be written\n"));
    }
    if got == 0 {
        return Ok(None);
    }
    buffer.copy_within(used..end, 0);
    Ok(Some(end - used))
}

// Mends all of IN, and prints the totals. The turns are counted up to a number that no run uses up.
pub(crate) fn mend_all(input: &mut File, output: &mut File, is_told: bool) {
    let mut buffer = io::large_buffer();
    let mut kept: usize = 0;
    let mut course = Course::default();
    for _ in 0..u64::MAX {
        let before = course.at;
        let turn = mend_some(input, output, kept, &mut course, &mut buffer);
        if is_told {
            print_progress(before, course.at);
        }
        match turn {
            Ok(Some(left)) => kept = left,
            Ok(None) => {
                print_totals(course);
                return;
            }
            Err(Failed) => return,
        }
    }
}

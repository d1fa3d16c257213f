// The window that a journal is mended through: step after step over the bytes that it holds.
ghost use Rattle.std.specs.Prelude.{◌≡◌, ◌≤◌, length};

use crate::STDOUT;
use crate::course::Course;
use crate::report::print_stretch;
use mender::{LONGEST, Step};

// How many lines a text has.
fn lines_in(text: &[u8]) -> u64 {
    text.iter().filter(|byte| **byte == b'\n').count() as u64
}

// One step at the start of the bytes, with its report, and how many of them it dealt with; none of them where it is refused, which it never is.
fn mend_step(course: &mut Course, bytes: &mut [u8]) -> usize {
    let mut text = io::buffer();
    let left = bytes.len();
    let mended = mender::mend(bytes, course.at, course.searching, &mut text);
    let step = mended.step;
    let next = mender::next_of(step, left);
    let Some(report) = text.get(..mended.written) else {
        return 0;
    };
    if step != Step::Passed {
        print_stretch(course.at, course.stretch);
    }
    io::write_all(STDOUT, report);
    course.count(step, next.on, next.searching, lines_in(report));
    next.on
}

// Mends the bytes of a window as far as steps go, to its end where it is the last, else while the longest record fits into what is left; answers how
// many it dealt with.
pub(crate) fn mend_window(course: &mut Course, last: bool, window: &mut [u8]) -> usize
    ensures dealt_with { result ≤ length window.new }
    ensures window_len_unchanged { length window.new ≡ length window.old }
{
    let mut used: usize = 0;
    // kept: a while, since each step says where the next one begins
    while used < window.len() {
        let left = window.len() - used;
        if !last && left < LONGEST {
            break;
        }
        let on = mend_step(course, &mut window[used..]);
        // never so: a step of bytes deals with one, and with no more than there are
        if on == 0 || left < on {
            break;
        }
        used += on;
    }
    used
}

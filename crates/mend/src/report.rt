// What standard output has beside the reports of the steps: the stretches of bytes passed over, and the totals.
use crate::STDOUT;
use crate::course::Course;

// A label and a number.
fn print_number(label: &[u8], n: u64) {
    io::write_all(STDOUT, label);
    io::print_decimal(STDOUT, n);
}

// The stretch of bytes passed over behind this place, where there is one.
pub(crate) fn print_stretch(at: u64, stretch: u64) {
    if stretch == 0 {
        return;
    }
    print_number(b"passed ", at.wrapping_sub(stretch));
    print_number(b" ", stretch);
    io::write_all(STDOUT, b"\n");
}

// The last stretch, and the totals.
pub(crate) fn print_totals(course: Course) {
    print_stretch(course.at, course.stretch);
    print_number(b"records ", course.records);
    print_number(b" changed ", course.changed);
    print_number(b" lost ", course.lost);
    print_number(b" passed ", course.passed);
    io::write_all(STDOUT, b"\n");
}

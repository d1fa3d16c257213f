// A report in print, as the worked ones are written: GPS is system 1, GLONASS 2.
use frame::System;
use season_reports::{Added, Adding, Extremes, Report, Row};
use test_vectors::{print, print_number, print_signed};

// The file number of standard output.
const STDOUT: i32 = 1;

// Writes a sum behind its name.
fn print_sum(sum: i64) {
    print(b", sum ");
    if sum < 0 {
        print(b"-");
    }
    io::print_decimal(STDOUT, printing::magnitude(sum));
}

// Writes the number of a system.
fn print_system(system: System) {
    match system {
        System::Gps => print(b"system 1"),
        System::Glonass => print(b"system 2"),
    }
}

// Writes the least and the largest.
fn print_extremes(extremes: Extremes) {
    match extremes {
        Extremes::Absent => print(b", absent"),
        Extremes::Present(least, largest) => {
            print_signed(b", least ", least);
            print_signed(b", largest ", largest);
        }
    }
}

// Writes a row.
fn print_row(row: Row) {
    let key = row.key;
    let system = key.system;
    let extremes = row.extremes;
    print_system(system);
    print_number(b", station ", key.station as u64);
    print_number(b", satellite ", key.satellite as u64);
    print_number(b": usable ", row.usable as u64);
    print_number(b", stops ", row.stops as u64);
    print_extremes(extremes);
    print_sum(row.sum);
    print(b"\n");
}

// Writes the rows of a report.
pub(crate) fn print_report(report: Report) {
    for row in report.rows.iter().take(report.used) {
        print_row(*row);
    }
}

// Writes a refusal, or the sum.
fn print_answer<F: FnOnce(Report)>(added: Added, print_sum: F)
    requires { F.IsAlwaysCallable print_sum }
{
    match added.answer {
        Adding::Done => print_sum(added.report),
        Adding::Refused(number) => {
            print_number(b"refusal ", number as u64);
            print(b"\n");
        }
    }
}

// Writes a refusal, or the rows of the sum.
pub(crate) fn print_added(added: Added) {
    print_answer(added, print_report);
}

// Writes a refusal, or how many rows the sum has.
pub(crate) fn print_size(added: Added) {
    print_answer(added, |report| {
        print_number(b"", report.used as u64);
        print(b" rows\n");
    });
}

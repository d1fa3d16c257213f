// A report as lines of tabs: what is counted, the names of the columns, a line for each row, and the totals.
ghost use Rattle.std.specs.Prelude.{◌^◌, ◌<◌};

use crate::STDOUT;
use crate::sums::totals_of;
use frame::System;
use season_reports::{Extremes, Report, Row};

const BILLION: u128 = 1000000000;

// Writes text as it is, and answers whether it was written.
fn print(text: &[u8]) -> bool {
    io::write_all(STDOUT, text)
}

// Writes a number in its column.
fn print_number(n: u64) {
    print(b"\t");
    io::print_decimal(STDOUT, n);
}

// Writes a signed number in its column.
fn print_signed(z: i64) {
    print(b"\t");
    if z < 0 {
        print(b"-");
    }
    io::print_decimal(STDOUT, printing::magnitude(z));
}

// Writes the name of a system.
fn print_system(system: System) {
    match system {
        System::Gps => print(b"GPS"),
        System::Glonass => print(b"GLONASS"),
    };
}

// Writes the least and the largest in their columns.
fn print_extremes(extremes: Extremes) {
    match extremes {
        Extremes::Absent => {
            print(b"\t-\t-");
        }
        Extremes::Present(least, largest) => {
            print_signed(i64::from(least));
            print_signed(i64::from(largest));
        }
    }
}

// Writes the line of a row. The mean is the sum over the count.
fn print_row(row: Row) {
    let key = row.key;
    print_system(key.system);
    print_number(key.station as u64);
    print_number(key.satellite as u64);
    print_number(row.usable as u64);
    print_number(row.stops as u64);
    print_extremes(row.extremes);
    print_signed(row.sum);
    print_number(row.usable as u64);
    print(b"\n");
}

// Writes a number that has nine digits behind thousand millions.
fn print_wide(n: u128)
    requires { n < 2 ^ 74 }
{
    let rest = (n % BILLION) as u64;
    if n < BILLION {
        io::print_decimal(STDOUT, rest);
        return;
    }
    io::print_decimal(STDOUT, (n / BILLION) as u64);
    let mut text = [0u8; 20];
    let k = io::decimal(1000000000 + rest, &mut text);
    print(&text[1..k]);
}

// Writes what is above 0 less what is below, in its column.
fn print_difference(above: u128, below: u128)
    requires { (above < 2 ^ 74) × (below < 2 ^ 74) }
{
    print(b"\t");
    if above < below {
        print(b"-");
        print_wide(below - above);
        return;
    }
    print_wide(above - below);
}

// Writes the line of totals, and answers whether its end was written.
fn print_totals(report: Report) -> bool {
    let totals = totals_of(report);
    print(b"total\t-\t-");
    print_number(totals.usable);
    print_number(totals.stops);
    print_extremes(totals.extremes);
    print_difference(totals.above, totals.below);
    print_number(totals.usable);
    print(b"\n")
}

// Writes a report, and answers whether its end was written.
pub(crate) fn print_report(report: Report) -> bool {
    print(b"# types 1, 9, 31 and 34 are counted, types 41 and 42 are not\n");
    print(b"system\tstation\tsatellite\tusable\tstops\tleast\tlargest\tsum\tcount\n");
    for row in report.rows.iter().take(report.used) {
        print_row(*row);
    }
    print_totals(report)
}

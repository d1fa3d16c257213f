// What adding two reports answers: where rows or counts are used up, where a report can't be one, and at the ends of what a sum can be.
use crate::reports::{of_all, of_one, of_two, row_of, small, stop_of};
use crate::show::{print_added, print_size};
use season_reports::{Extremes, Report, Row};
use test_vectors::print;

// The most that a count can be.
const MOST: u32 = 4294967295;

// A row with so many usable entries, and one with as many stops.
fn most_usable() -> Row {
    row_of(MOST, 0, small(), -3)
}

fn most_stops() -> Row {
    row_of(0, MOST, Extremes::Absent, 0)
}

// One usable entry more.
fn one_usable() -> Row {
    row_of(1, 0, Extremes::Present(7, 7), 7)
}

// Keys where all rows are in use.
pub(crate) fn print_room() {
    let all = of_all(512, stop_of(0, 1));
    print(b"512 rows and a new key: ");
    print_size(season_reports::add_report(all, of_one(stop_of(16, 1))));
    print(b"512 rows and the last key again: ");
    print_size(season_reports::add_report(all, of_one(stop_of(15, 32))));
    print(b"a new key with all rows in use, and a count that passes: ");
    let passing = of_all(512, most_usable());
    print_size(season_reports::add_report(passing, of_two(2, one_usable(), stop_of(16, 1))));
    print(b"513 rows lent: ");
    print_size(season_reports::add_report(of_all(513, stop_of(0, 1)), season_reports::empty()));
}

// Counts that pass, and one that does not.
pub(crate) fn print_counts() {
    let usable = of_one(most_usable());
    let stop = of_one(stop_of(0, 1));
    print(b"count 4294967295 and one more usable: ");
    print_added(season_reports::add_report(usable, of_one(one_usable())));
    print(b"count 4294967295 and one more stop: ");
    print_added(season_reports::add_report(usable, stop));
    print(b"stops 4294967295 and one more stop: ");
    print_added(season_reports::add_report(of_one(most_stops()), stop));
}

// What a report of this row answers, added to.
fn print_lent(name: &[u8], row: Row) {
    print(name);
    print_size(season_reports::add_report(of_one(row), season_reports::empty()));
}

// Reports that can't be.
pub(crate) fn print_bad() {
    let twice = of_two(2, stop_of(0, 1), stop_of(0, 1));
    print(b"one key in two rows: ");
    print_size(season_reports::add_report(twice, season_reports::empty()));
    print_lent(b"count 0 with sum 1: ", row_of(0, 0, Extremes::Absent, 1));
    print_lent(
        b"count 0 with least and largest: ",
        row_of(0, 0, Extremes::Present(0, 0), 0),
    );
    print_lent(
        b"count 1 with both absent: ",
        row_of(1, 0, Extremes::Absent, 0),
    );
    print(b"the second report is the bad one: ");
    let bad: Report = of_one(row_of(1, 0, Extremes::Absent, 0));
    print_size(season_reports::add_report(season_reports::empty(), bad));
}

// Sums at and beyond the ends of what they can be.
pub(crate) fn print_ends() {
    print_lent(
        b"sum one over count times largest: ",
        row_of(2, 0, small(), 15),
    );
    print_lent(b"sum count times largest: ", row_of(2, 0, small(), 14));
    print_lent(b"sum count times least: ", row_of(2, 0, small(), -10));
    print_lent(
        b"sum one under count times least: ",
        row_of(2, 0, small(), -11),
    );
    print(b"count 4294967295, least and largest -2147483648, sum their product: ");
    let lowest = Extremes::Present(-2147483648, -2147483648);
    let row = row_of(MOST, 0, lowest, -9223372034707292160);
    print_added(season_reports::add_report(of_one(row), season_reports::empty()));
}

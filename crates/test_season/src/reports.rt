// Reports that are added: of one row, of two, and of as many as there can be.
use frame::System;
use season_reports::{Extremes, Key, Report, Row};

// Least -5 and largest 7.
pub(crate) fn small() -> Extremes {
    Extremes::Present(-5, 7)
}

// A row of satellite 1 of station 0 of GPS.
pub(crate) fn row_of(usable: u32, stops: u32, extremes: Extremes, sum: i64) -> Row {
    let key = Key {
        system: System::Gps,
        station: 0,
        satellite: 1,
    };
    Row {
        key,
        usable,
        stops,
        extremes,
        sum,
    }
}

// A row of a key with one stop.
pub(crate) fn stop_of(station: u16, satellite: u8) -> Row {
    let key = Key {
        system: System::Gps,
        station,
        satellite,
    };
    let extremes = Extremes::Absent;
    Row {
        key,
        usable: 0,
        stops: 1,
        extremes,
        sum: 0,
    }
}

// The report of one row.
pub(crate) fn of_one(row: Row) -> Report {
    of_two(1, row, row)
}

// The report of two rows, of which `used` are in use.
pub(crate) fn of_two(used: usize, first: Row, second: Row) -> Report {
    let blank = season_reports::empty();
    let mut rows = blank.rows;
    rows[0] = first;
    rows[1] = second;
    Report { used, rows }
}

// A report with 512 rows, or said to have more: the satellites of sixteen stations, and this row for the first of them.
pub(crate) fn of_all(used: usize, first: Row) -> Report {
    let blank = season_reports::empty();
    let mut rows = blank.rows;
    for (i, row) in rows.iter_mut().enumerate() {
        *row = stop_of((i / 32) as u16, (1 + i % 32) as u8);
    }
    rows[0] = first;
    Report { used, rows }
}

// A row of a report as 29 bytes, by way of its nine numbers.
ghost use Rattle.std.specs.Prelude.{◌≡◌, ◌+◌, ◌≤◌, length, drop};
ghost use Rattle.std.proofs.lemmas.List.Edits.{sets};
ghost use Rattle.rtcm2_rows.specs.Rows.{put_by, row_after};
ghost use Rattle.season_reports.specs.Rows.{system_number};
ghost use Rattle.rtcm2_rows.specs.Sizes.{sized_in, sized_bytes};
ghost use Rattle.rtcm2_season.specs.Rows.{key_sizes, end_sizes, sizes, system_with, extremes_with, row_with, names_row, extremes_numbers, row_numbers, report_row};

use crate::number::{code64, number_at, put_number, signed64};
use frame::System;
use rtcm2_rows::row::Put;
use season_reports::{Extremes, Key, Row};

// How many bytes a row takes.
pub const SIZE: usize = 29;

// The nine numbers of the row whose bytes start at `at`.
pub(crate) fn numbers_at(at: usize, bytes: &[u8]) -> [u64; 9]
    requires { at + 29 ≤ length bytes.now }
    ensures { result ≡ sized_in sizes (drop at bytes.now) }
{
    [
        number_at(at, 1, bytes),
        number_at(at + 1, 2, bytes),
        number_at(at + 3, 1, bytes),
        number_at(at + 4, 4, bytes),
        number_at(at + 8, 4, bytes),
        number_at(at + 12, 1, bytes),
        number_at(at + 13, 4, bytes),
        number_at(at + 17, 4, bytes),
        number_at(at + 21, 8, bytes),
    ]
}

// Whether these numbers name a row.
#[tactic(auto, unfolding(crate::specs::Rows::names_row))]
pub(crate) fn names_row(numbers: [u64; 9]) -> bool
    ensures { result ≡ names_row numbers }
{
    numbers[0] < 2 && (numbers[5] == 1 || numbers[5] == 0 && numbers[6] == 0 && numbers[7] == 0)
}

// 0 is GPS, all others are GLONASS.
fn system_with(n: u64) -> System
    ensures { result ≡ system_with n }
{
    match n {
        0 => System::Gps,
        _ => System::Glonass,
    }
}

// Least and largest, where they are present.
fn extremes_with(present: u64, least: u64, largest: u64) -> Extremes
    ensures { result ≡ extremes_with present least largest }
{
    if present == 0 {
        return Extremes::Absent;
    }
    Extremes::Present(
        record_fields::signed32((least % 4294967296) as u32),
        record_fields::signed32((largest % 4294967296) as u32),
    )
}

// The row of these numbers.
pub(crate) fn row_with(numbers: [u64; 9]) -> Row
    ensures { result ≡ row_with numbers }
{
    let key = Key {
        system: system_with(numbers[0]),
        station: (numbers[1] % 65536) as u16,
        satellite: (numbers[2] % 256) as u8,
    };
    Row {
        key,
        usable: (numbers[3] % 4294967296) as u32,
        stops: (numbers[4] % 4294967296) as u32,
        extremes: extremes_with(numbers[5], numbers[6], numbers[7]),
        sum: signed64(numbers[8]),
    }
}

// The number of a system.
fn system_number(system: System) -> u64
    ensures { result ≡ system_number system }
{
    match system {
        System::Gps => 0,
        System::Glonass => 1,
    }
}

// Whether least and largest are present, and they.
fn extremes_numbers(extremes: Extremes) -> [u64; 3]
    ensures { result ≡ extremes_numbers extremes }
{
    match extremes {
        Extremes::Absent => [0, 0, 0],
        Extremes::Present(least, largest) => [
            1,
            record_fields::code32(least) as u64,
            record_fields::code32(largest) as u64,
        ],
    }
}

// The nine numbers of a row.
fn numbers_of(row: Row) -> [u64; 9]
    ensures { result ≡ row_numbers row }
{
    let key = row.key;
    let system = key.system;
    let extremes = row.extremes;
    let three = extremes_numbers(extremes);
    [
        system_number(system),
        key.station as u64,
        key.satellite as u64,
        row.usable as u64,
        row.stops as u64,
        three[0],
        three[1],
        three[2],
        code64(row.sum),
    ]
}

// Puts the numbers of the key and the counts from `at` on.
fn put_key(numbers: [u64; 9], at: usize, bytes: &mut [u8])
    requires { at + 12 ≤ length bytes.old }
    ensures { bytes.new ≡ sets bytes.old at (sized_bytes key_sizes numbers) }
{
    put_number(numbers[0], 1, at, bytes);
    put_number(numbers[1], 2, at + 1, bytes);
    put_number(numbers[2], 1, at + 3, bytes);
    put_number(numbers[3], 4, at + 4, bytes);
    put_number(numbers[4], 4, at + 8, bytes);
}

// Puts the numbers of least, largest and sum from `at` on.
fn put_ends(numbers: [u64; 9], at: usize, bytes: &mut [u8])
    requires { at + 17 ≤ length bytes.old }
    ensures { bytes.new ≡ sets bytes.old at (sized_bytes end_sizes (drop 5 numbers)) }
{
    put_number(numbers[5], 1, at, bytes);
    put_number(numbers[6], 4, at + 1, bytes);
    put_number(numbers[7], 4, at + 5, bytes);
    put_number(numbers[8], 8, at + 9, bytes);
}

// Puts a row from `at` on.
pub(crate) fn put_row_at(row: Row, at: usize, bytes: &mut [u8])
    requires { at + 29 ≤ length bytes.old }
    ensures { bytes.new ≡ sets bytes.old at (report_row.codes row) }
{
    let numbers = numbers_of(row);
    put_key(numbers, at, bytes);
    put_ends(numbers, at + 12, bytes);
}

// A row at the start of the bytes; 13 where they are too few.
pub fn put_row(row: Row, bytes: &mut [u8]) -> Put
    ensures value { result ≡ put_by report_row bytes.old }
    ensures bytes_after { bytes.new ≡ row_after report_row row bytes.old }
{
    if bytes.len() < SIZE {
        return Put::Refused(13);
    }
    put_row_at(row, 0, bytes);
    Put::Done
}

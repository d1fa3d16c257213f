// A report of a season as bytes that a caller lends: how many rows are in use, and 512 rows of 29 bytes each.
#![tactic(auto)]

mod number;
pub mod row;

ghost use Rattle.std.specs.Prelude.{◌≡◌, ◌++◌, ◌-◌, ◌≤◌, length, drop, replicate};
ghost use Rattle.std.proofs.lemmas.List.Edits.{sets};
ghost use Rattle.rtcm2_rows.specs.Rows.{entries_from, row_bytes};
ghost use Rattle.season_reports.specs.Rows.{blank_row};
ghost use Rattle.rtcm2_season.specs.Rows.{report_row};
ghost use Rattle.rtcm2_season.specs.Reports.{report_size, used_in, all_name, holds_report, report_in, report_put_by, report_put};

use crate::number::{number_at, put_number};
use crate::row::{names_row, numbers_at, put_row_at, row_with};
use rtcm2_rows::row::Put;
use season_reports::{Report, Row};

// How many bytes a report takes: how many rows are in use, and the rows.
pub const SIZE: usize = 4 + 512 * row::SIZE;

// How many rows are in use.
fn used_in(bytes: &[u8]) -> usize
    requires { report_size ≤ length bytes.now }
    ensures { result ≡ used_in bytes.now }
{
    number_at(0, 4, bytes) as usize
}

// Whether each of the rows in use names one.
fn all_name(used: usize, bytes: &[u8]) -> bool
    requires { (used ≤ 512) × (report_size ≤ length bytes.now) }
    ensures { result ≡ all_name used (drop 4 bytes.now) }
{
    for i in 0..used {
        if !names_row(numbers_at(4 + i * row::SIZE, bytes)) {
            return false;
        }
    }
    true
}

// The bytes hold a report: there are enough, at most 512 rows are in use, and each of these names one.
pub fn holds_report(bytes: &[u8]) -> bool
    ensures { result ≡ holds_report bytes.now }
{
    if bytes.len() < SIZE {
        return false;
    }
    let used = used_in(bytes);
    if 512 < used {
        return false;
    }
    all_name(used, bytes)
}

// The rows in use, and blank rows past them.
fn rows_in(used: usize, bytes: &[u8]) -> [Row; 512]
    requires { (used ≤ 512) × (report_size ≤ length bytes.now) }
    ensures { result ≡ entries_from report_row used (drop 4 bytes.now) ++ replicate (512 - used) blank_row }
{
    let blank = season_reports::empty();
    let mut rows = blank.rows;
    for i in 0..used {
        rows[i] = row_with(numbers_at(4 + i * row::SIZE, bytes));
    }
    rows
}

// The report that the bytes hold, or one with no row in use where they hold none.
pub fn report_in(bytes: &[u8]) -> Report
    ensures { result ≡ report_in bytes.now }
{
    if !holds_report(bytes) {
        return season_reports::empty();
    }
    let used = used_in(bytes);
    let rows = rows_in(used, bytes);
    Report { used, rows }
}

// Puts all 512 rows.
fn put_rows(rows: [Row; 512], bytes: &mut [u8])
    requires { report_size ≤ length bytes.old }
    ensures { (bytes.new ≡ sets bytes.old 4 (row_bytes report_row rows)) × (length rows ≡ 512) }
{
    for i in 0..512 {
        let row = rows[i];
        put_row_at(row, 4 + i * row::SIZE, bytes);
    }
}

// Puts a report to the first bytes: 5, 13.
pub fn put_report(report: Report, bytes: &mut [u8]) -> Put
    ensures value { result ≡ report_put_by report bytes.old }
    ensures bytes_after { bytes.new ≡ report_put report bytes.old }
{
    if 512 < report.used {
        return Put::Refused(5);
    }
    if bytes.len() < SIZE {
        return Put::Refused(13);
    }
    put_number(report.used as u64, 4, 0, bytes);
    let rows = report.rows;
    put_rows(rows, bytes);
    Put::Done
}

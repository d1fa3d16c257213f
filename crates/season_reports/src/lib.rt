// Reports of a season: of each system, station and satellite how many corrections were usable and how many said stop, the least and the largest
// PRC in mm, and their exact sum. A journal's bytes are added to a report, and one report to another.
#![tactic(auto)]

mod reading;
mod rows;
mod table;

ghost use Rattle.std.specs.Prelude.{◌≡◌, false, [], ◌≤◌};
ghost use Rattle.record_fields.specs.Coding.{Each};
ghost use Rattle.season_reports.specs.Reports.{rows_in, report_with, report_out, refused_add, added_by, journal_added, row_numbered};
ghost use Rattle.season_reports.specs.Tables.{with_rows, no_table, finished_by, SoundRow};

use crate::reading::add_bytes;
use crate::rows::blank_row;
use crate::table::{Table, add_rows, any_wrong, codes_of, is_twice};
use frame::System;

// Whose entries a row counts.
#[derive(Clone, Copy)]
pub struct Key {
    pub system: System,
    pub station: u16,
    pub satellite: u8,
}

// The least and the largest PRC in mm, absent where no entry is usable.
#[derive(Clone, Copy)]
pub enum Extremes {
    Absent,
    Present(i32, i32),
}

// What was counted of a key. The mean is the sum over the usable entries, not divided.
#[derive(Clone, Copy)]
pub struct Row {
    pub key: Key,
    pub usable: u32,
    pub stops: u32,
    pub extremes: Extremes,
    pub sum: i64,
}

// A report: the rows in use, in the order first seen; those behind them are not looked at.
#[derive(Clone, Copy)]
pub struct Report {
    pub used: usize,
    pub rows: [Row; 512],
}

// That it was added, or the refusal's number.
#[derive(Clone, Copy)]
pub enum Adding {
    Done,
    Refused(u8),
}

// The sum of two reports; on a refusal the first as it was.
#[derive(Clone, Copy)]
pub struct Added {
    pub answer: Adding,
    pub report: Report,
}

// A report with a journal's entries added, and how many bytes their records have; on a refusal the report as it was, and 0.
#[derive(Clone, Copy)]
pub struct JournalReport {
    pub answer: Adding,
    pub report: Report,
    pub used: usize,
}

// A row of a report, or the refusal's number.
#[derive(Clone, Copy)]
pub enum RowRead {
    At(Row),
    Refused(u8),
}

// A report without rows.
pub fn empty() -> Report
    ensures { result ≡ report_with [] }
{
    Report {
        used: 0,
        rows: [blank_row(); 512],
    }
}

// Whether a report is refused with 5: over 512 rows, one key in two rows, or a sum that its count, least and largest can't have.
pub fn report_out(report: Report) -> bool
    ensures value { result ≡ report_out report }
    ensures each { result ≡ false → Each SoundRow (rows_in report) }
{
    let used = report.used;
    if used > 512 {
        return true;
    }
    if any_wrong(report) {
        return true;
    }
    let codes = codes_of(report);
    is_twice(&codes, used)
}

// A table with the rows of a report.
fn table_of(report: Report) -> Table
    requires { (report.used ≤ 512) × Each SoundRow (rows_in report) }
    ensures { result ≡ with_rows no_table (rows_in report) }
{
    let table = Table {
        report: empty(),
        over: false,
        full: false,
    };
    add_rows(table, report)
}

// A refusal, with the report as it was.
fn refused(report: Report, number: u8) -> Added
    ensures { result ≡ refused_add report number }
{
    let answer = Adding::Refused(number);
    Added { answer, report }
}

// What a table says once all rows are in it: 18, 19; on a refusal the report as it was.
fn finished(report: Report, table: Table) -> Added
    ensures { result ≡ finished_by report table }
{
    if table.full {
        return refused(report, 18);
    }
    if table.over {
        return refused(report, 19);
    }
    let answer = Adding::Done;
    let sum = table.report;
    Added {
        answer,
        report: sum,
    }
}

// One report added to another: 5, 18, 19.
pub fn add_report(first: Report, second: Report) -> Added
    ensures { result ≡ added_by first second }
{
    if report_out(first) {
        return refused(first, 5);
    }
    if report_out(second) {
        return refused(first, 5);
    }
    let sum = add_rows(table_of(first), second);
    finished(first, sum)
}

// The entries of a journal's bytes added to a report, records of either form from the start while they recall: 5, 18, 19.
pub fn add_journal(report: Report, bytes: &[u8]) -> JournalReport
    ensures { result ≡ journal_added report bytes.now }
{
    if report_out(report) {
        let answer = Adding::Refused(5);
        return JournalReport {
            answer,
            report,
            used: 0,
        };
    }
    let progress = add_bytes(table_of(report), bytes);
    let table = progress.table;
    let sum = finished(report, table);
    let answer = sum.answer;
    let total = sum.report;
    match answer {
        Adding::Done => JournalReport {
            answer,
            report: total,
            used: progress.used,
        },
        Adding::Refused(_) => JournalReport {
            answer,
            report: total,
            used: 0,
        },
    }
}

// Row number `index` of a report: 5, 9.
pub fn row_at(report: Report, index: usize) -> RowRead
    ensures { result ≡ row_numbered report index }
{
    if report_out(report) {
        return RowRead::Refused(5);
    }
    if index >= report.used {
        return RowRead::Refused(9);
    }
    let rows = report.rows;
    RowRead::At(rows[index])
}

// A table to which rows are added: each to the row of its key, or as a new one. It goes by batches, so that the table is passed on once for a
// frame, not once for an entry.
ghost use Rattle.std.specs.Prelude.{◌≡◌, false, ◌||◌, map, ◌-◌, ◌≤◌, min, max, eqb, length, take, drop};
ghost use Rattle.frame.specs.Widths.{any_of};
ghost use Rattle.record_fields.specs.Coding.{Each};
ghost use Rattle.season_reports.specs.Rows.{wrong_sum};
ghost use Rattle.season_reports.specs.Gathering.{keys_of, any_twice};
ghost use Rattle.season_reports.specs.Reports.{rows_in};
ghost use Rattle.season_reports.specs.Tables.{code_of, first_index, with_rows, rows_of_batch, SoundRow, SoundTable};

use crate::rows::{blank_row, code_of, is_over, is_wrong, merged_row};
use crate::{Report, Row};

// The rows so far; whether a count would have passed; whether a row found no room.
#[derive(Clone, Copy)]
pub(crate) struct Table {
    pub report: Report,
    pub over: bool,
    pub full: bool,
}

// As many rows as a frame has entries, at most.
#[derive(Clone, Copy)]
pub(crate) struct Batch {
    pub count: usize,
    pub rows: [Row; 18],
}

// The codes of the keys in use.
pub(crate) fn codes_of(report: Report) -> [u32; 512]
    requires { report.used ≤ 512 }
    ensures { take report.used result ≡ map code_of (keys_of (rows_in report)) }
{
    let rows = report.rows;
    let used = report.used;
    let mut codes = [0u32; 512];
    for i in 0..used {
        let row = rows[i];
        let key = row.key;
        codes[i] = code_of(key);
    }
    codes
}

// The place of a code among the first `used`, or `used`.
fn place_of(codes: &[u32; 512], used: usize, code: u32) -> usize
    requires { (length codes.now ≡ 512) × (used ≤ 512) }
    ensures value { result ≡ first_index (eqb code) (take used codes.now) }
    ensures upper_bound { result ≤ used }
{
    for i in 0..used {
        if codes[i] == code {
            return i;
        }
    }
    used
}

// Whether one of the first `used` codes stands there again.
pub(crate) fn is_twice(codes: &[u32; 512], used: usize) -> bool
    requires { (length codes.now ≡ 512) × (used ≤ 512) }
    ensures { result ≡ any_twice eqb (take used codes.now) }
{
    for i in 0..used {
        if place_of(codes, i, codes[i]) < i {
            return true;
        }
    }
    false
}

// Whether the sum of a row in use can't be.
pub(crate) fn any_wrong(report: Report) -> bool
    requires { report.used ≤ 512 }
    ensures value { result ≡ any_of wrong_sum (rows_in report) }
    ensures each { result ≡ false → Each SoundRow (rows_in report) }
{
    let rows = report.rows;
    let used = report.used;
    for i in 0..used {
        let row = rows[i];
        if is_wrong(row) {
            return true;
        }
    }
    false
}

// The rows of a batch added one after the other. Once one finds no room, the table says so and takes no more.
pub(crate) fn gather(table: Table, batch: Batch) -> Table
    requires sound_table { SoundTable table }
    requires count_bound { (batch.count ≤ 18) × Each SoundRow (rows_of_batch batch) }
    ensures { result ≡ with_rows table (rows_of_batch batch) }
{
    if table.full {
        return table;
    }
    let report = table.report;
    let mut codes = codes_of(report);
    let mut used = report.used;
    let mut rows = report.rows;
    let mut over = table.over;
    let count = batch.count;
    let more = batch.rows;
    for i in 0..count {
        let row = more[i];
        let key = row.key;
        let code = code_of(key);
        let at = place_of(&codes, used, code);
        if at >= 512 {
            return Table {
                report: Report { used, rows },
                over,
                full: true,
            };
        }
        let old = rows[at];
        over |= is_over(old, row);
        rows[at] = merged_row(old, row);
        codes[at] = code;
        used = used.max(at + 1);
    }
    Table {
        report: Report { used, rows },
        over,
        full: false,
    }
}

// Rows of a report from number `from` on, eighteen or those that are left.
fn part_of(report: Report, from: usize) -> Batch
    requires { (report.used ≤ 512) × (from ≤ report.used) }
    ensures { (result.count ≡ min 18 (report.used - from)) × (rows_of_batch result ≡ take 18 (drop from (rows_in report))) }
{
    let count = (report.used - from).min(18);
    let mut rows = [blank_row(); 18];
    rows[..count].copy_from_slice(&report.rows[from..from + count]);
    Batch { count, rows }
}

// The rows of a report added to a table.
pub(crate) fn add_rows(table: Table, report: Report) -> Table
    requires sound_table { SoundTable table }
    requires used_bound { (report.used ≤ 512) × Each SoundRow (rows_in report) }
    ensures { result ≡ with_rows table (rows_in report) }
{
    let used = report.used;
    let mut sum = table;
    let mut from: usize = 0;
    // kept: a turn goes on by as many rows as its batch has, so a range with a step is no plainer.
    while from < used {
        let part = part_of(report, from);
        from += part.count;
        sum = gather(sum, part);
    }
    sum
}

// The entries of a journal's bytes, a batch for each frame, added to a table.
ghost use Rattle.std.specs.Prelude.{◌≡◌, map, ◌≤◌};
ghost use Rattle.record_corrections.specs.Corrections.{count_corrections};
ghost use Rattle.record_fields.specs.Coding.{Each};
ghost use Rattle.record_stages.specs.declared.Count.TheVariants.{Of};
ghost use Rattle.record_values.specs.Values.{exactly, stop};
ghost use Rattle.season_reports.specs.Season.{reading_of, reading_row, entry_row};
ghost use Rattle.season_reports.specs.Journals.{entries_read, contents_of};
ghost use Rattle.season_reports.specs.Reports.{journal_rows};
ghost use Rattle.season_reports.specs.Tables.{with_rows, rows_of_batch, SoundRow, SoundTable};

use crate::rows::blank_row;
use crate::table::{Batch, Table, gather};
use crate::{Extremes, Key, Row};
use frame::Frame;
use journal::Found;
use record_corrections::{Correction, CorrectionRead};
use record_stages::Count;
use record_values::Distance;

// A table, and how many bytes were read into it.
#[derive(Clone, Copy)]
pub(crate) struct Progress {
    pub table: Table,
    pub used: usize,
}

// The row of a stop entry.
fn stop_row(key: Key) -> Row
    ensures value { result ≡ reading_row key stop }
    ensures sound_row { SoundRow result }
{
    let extremes = Extremes::Absent;
    Row {
        key,
        usable: 0,
        stops: 1,
        extremes,
        sum: 0,
    }
}

// The row of a usable entry.
fn usable_row(key: Key, mm: i32) -> Row
    ensures value { result ≡ reading_row key (exactly mm) }
    ensures sound_row { SoundRow result }
{
    let extremes = Extremes::Present(mm, mm);
    Row {
        key,
        usable: 1,
        stops: 0,
        extremes,
        sum: mm as i64,
    }
}

// The row of an entry that was read, whose scale is then 0 or 1.
fn entry_row(key: Key, e: Correction) -> Row
    requires { e.scale ≤ 1 }
    ensures value { result ≡ reading_row key (reading_of e) }
    ensures sound_row { SoundRow result }
{
    let prc = e.prc;
    let rrc = e.rrc;
    if record_values::stops(prc, rrc) {
        return stop_row(key);
    }
    let distance = record_values::prc_mm(e.scale, prc);
    match distance {
        Distance::Millimetres(mm) => usable_row(key, mm),
        Distance::Stop => stop_row(key),
        Distance::Refused(_) => stop_row(key),
    }
}

// The rows of a frame's entries; one that can't be read has none.
fn rows_of(frame: Frame, count: usize) -> Batch
    requires { (count ≤ 18) × (count_corrections frame ≡ Of count) }
    ensures count_bound { (result.count ≤ 18) × (rows_of_batch result ≡ map entry_row (entries_read frame)) }
    ensures each { Each SoundRow (rows_of_batch result) }
{
    let header = frame.header;
    let mut rows = [blank_row(); 18];
    let mut found: usize = 0;
    for i in 0..count {
        let CorrectionRead::Entry(e) = record_corrections::correction_at(frame, i) else {
            continue;
        };
        let key = Key {
            system: frame::system_of(header.kind),
            station: header.station,
            satellite: e.satellite,
        };
        rows[found] = entry_row(key, e);
        found += 1;
    }
    Batch { count: found, rows }
}

// The rows of a frame; one of another type, or that is refused, has none.
fn frame_rows(frame: Frame) -> Batch
    ensures count_bound { (result.count ≤ 18) × (rows_of_batch result ≡ map entry_row (entries_read frame)) }
    ensures each { Each SoundRow (rows_of_batch result) }
{
    let counted = record_corrections::count_corrections(frame);
    match counted {
        Count::Of(count) => rows_of(frame, count),
        Count::Refused(_) => Batch {
            count: 0,
            rows: [blank_row(); 18],
        },
    }
}

// Record after record, until the bytes end or one is refused.
pub(crate) fn add_bytes(table: Table, bytes: &[u8]) -> Progress
    requires { SoundTable table }
    ensures table_value { (result.table ≡ with_rows table (journal_rows bytes.now)) × (result.used ≡ (contents_of bytes.now).used) }
    ensures each { Each SoundRow (journal_rows bytes.now) }
{
    let mut sum = table;
    let mut used: usize = 0;
    // kept: each record tells its own size, so no range counts it.
    while used < bytes.len() {
        let recalled = journal::recall_either(&bytes[used..]);
        let answer = recalled.answer;
        match answer {
            Found::Record(size) => {
                let batch = frame_rows(recalled.frame);
                sum = gather(sum, batch);
                used += size;
            }
            Found::Refused(_) => {
                return Progress { table: sum, used };
            }
        }
    }
    Progress { table: sum, used }
}

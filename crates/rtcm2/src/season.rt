// Reports of a season: each call finds a report in the lent bytes, and puts back what came of it.
ghost use Rattle.std.specs.Prelude.{◌≡◌};
ghost use Rattle.season_reports.specs.Reports.{says_row};
ghost use Rattle.rtcm2_season.specs.Rows.{report_row};
ghost use Rattle.rtcm2_season.specs.Reports.{report_put};
ghost use Rattle.rtcm2.specs.Answer.{number_of, left};
ghost use Rattle.rtcm2.specs.Rows.{row_to, row_held};
ghost use Rattle.rtcm2.specs.Season.{season_started, journal_said, add_said, row_said};

use crate::rows::number_of;
use season_reports::{Adding, RowRead};

// Starts a report: the first bytes become one without rows. Refusal: 13.
pub fn rtcm2_season_start(report: &mut [u8]) -> u8
    ensures value { result ≡ number_of (season_started report.old) }
    ensures report_after { report.new ≡ left (season_started report.old) (λ r. report_put r report.old) report.old }
{
    if report.len() < rtcm2_season::SIZE {
        return 13;
    }
    rtcm2_season::put_report(season_reports::empty(), report);
    0
}

// Adds the entries of a journal's bytes, records of either form from the start while they recall, and tells how many bytes these have. Refusals: 5, 18, 19.
pub fn rtcm2_season_journal(report: &mut [u8], bytes: &[u8], used: &mut usize) -> u8
    ensures value { result ≡ number_of (journal_said report.old bytes.now) }
    ensures report_after { report.new ≡ left (journal_said report.old bytes.now)
        (λ j. report_put j.report report.old) report.old }
    ensures used_after { used.new ≡ left (journal_said report.old bytes.now) (λ j. j.used) used.old }
{
    if !rtcm2_season::holds_report(report) {
        return 5;
    }
    let added = season_reports::add_journal(rtcm2_season::report_in(report), bytes);
    let answer = added.answer;
    if let Adding::Refused(number) = answer {
        return number;
    }
    let next = added.report;
    rtcm2_season::put_report(next, report);
    *used = added.used;
    0
}

// Adds a second report to the first. Refusals: 5, 18, 19.
pub fn rtcm2_season_add(first: &mut [u8], second: &[u8]) -> u8
    ensures value { result ≡ number_of (add_said first.old second.now) }
    ensures first_after { first.new ≡ left (add_said first.old second.now)
        (λ a. report_put a.report first.old) first.old }
{
    if !rtcm2_season::holds_report(first) {
        return 5;
    }
    if !rtcm2_season::holds_report(second) {
        return 5;
    }
    let added = season_reports::add_report(
        rtcm2_season::report_in(first),
        rtcm2_season::report_in(second),
    );
    let answer = added.answer;
    if let Adding::Refused(number) = answer {
        return number;
    }
    let next = added.report;
    rtcm2_season::put_report(next, first);
    0
}

// A row that was read to its place, or the refusal's number.
fn row_to(read: RowRead, row: &mut [u8]) -> u8
    ensures value { result ≡ number_of (row_to report_row (says_row read) row.old) }
    ensures row_after { row.new ≡ row_held report_row (says_row read) row.old }
{
    match read {
        RowRead::At(found) => number_of(rtcm2_season::row::put_row(found, row)),
        RowRead::Refused(number) => number,
    }
}

// Row number `index` of a report, as 29 bytes. Refusals: 5, 9, 13.
pub fn rtcm2_season_row(report: &[u8], index: usize, row: &mut [u8]) -> u8
    ensures value { result ≡ number_of (row_to report_row (row_said report.now index) row.old) }
    ensures row_after { row.new ≡ row_held report_row (row_said report.now index) row.old }
{
    if !rtcm2_season::holds_report(report) {
        return 5;
    }
    row_to(
        season_reports::row_at(rtcm2_season::report_in(report), index),
        row,
    )
}

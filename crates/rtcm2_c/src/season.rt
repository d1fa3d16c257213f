// Reports of a season: each call finds a report in the lent bytes, and puts back what came of it.
ghost use Rattle.std.specs.Prelude.{◌≡◌};
ghost use Rattle.rtcm2_season.specs.Rows.{report_row};
ghost use Rattle.rtcm2_season.specs.Reports.{report_put};
ghost use Rattle.rtcm2.specs.Answer.{number_of, left};
ghost use Rattle.rtcm2.specs.Rows.{row_to, row_held};
ghost use Rattle.rtcm2.specs.Season.{season_started, journal_said, add_said, row_said};

// Starts a report: the first bytes become one without rows. Refusal: 13.
#[unsafe(no_mangle)]
pub extern "C" fn rtcm2_season_start(report: &mut [u8]) -> u8
    ensures value { result ≡ number_of (season_started report.old) }
    ensures report_after { report.new ≡ left (season_started report.old) (λ r. report_put r report.old) report.old }
{
    rtcm2::season::rtcm2_season_start(report)
}

// Adds the entries of a journal's bytes, records of either form from the start while they recall, and tells how many bytes these have. Refusals: 5, 18, 19.
#[unsafe(no_mangle)]
pub extern "C" fn rtcm2_season_journal(report: &mut [u8], bytes: &[u8], used: &mut usize) -> u8
    ensures value { result ≡ number_of (journal_said report.old bytes.now) }
    ensures report_after { report.new ≡ left (journal_said report.old bytes.now)
        (λ j. report_put j.report report.old) report.old }
    ensures used_after { used.new ≡ left (journal_said report.old bytes.now) (λ j. j.used) used.old }
{
    rtcm2::season::rtcm2_season_journal(report, bytes, used)
}

// Adds a second report to the first. Refusals: 5, 18, 19.
#[unsafe(no_mangle)]
pub extern "C" fn rtcm2_season_add(first: &mut [u8], second: &[u8]) -> u8
    ensures value { result ≡ number_of (add_said first.old second.now) }
    ensures first_after { first.new ≡ left (add_said first.old second.now)
        (λ a. report_put a.report first.old) first.old }
{
    rtcm2::season::rtcm2_season_add(first, second)
}

// Row number `index` of a report, as 29 bytes. Refusals: 5, 9, 13.
#[unsafe(no_mangle)]
pub extern "C" fn rtcm2_season_row(report: &[u8], index: usize, row: &mut [u8]) -> u8
    ensures value { result ≡ number_of (row_to report_row (row_said report.now index) row.old) }
    ensures row_after { row.new ≡ row_held report_row (row_said report.now index) row.old }
{
    rtcm2::season::rtcm2_season_row(report, index, row)
}

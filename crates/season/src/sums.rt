// Totals over all rows of a report. A sum over all rows may pass 64 bits, and has 128; what is above 0 and what is below are added apart.
ghost use Rattle.std.specs.Prelude.{◌≡◌, ◌+◌, ◌*◌, ◌^◌, ◌<◌, ◌≤◌};
ghost use Rattle.season_reports.specs.Reports.{rows_in};
ghost use Rattle.season.specs.Sums.{above_of, below_of, usable_in, stops_in, above_in, below_in};

use season_reports::{Extremes, Report, Row};

// What all rows have together; the sum is what is above 0 less what is below.
#[derive(Clone, Copy)]
pub(crate) struct Totals {
    pub usable: u64,
    pub stops: u64,
    pub extremes: Extremes,
    pub above: u128,
    pub below: u128,
}

// The least and the largest of both.
fn widest_of(a: Extremes, b: Extremes) -> Extremes {
    match a {
        Extremes::Absent => b,
        Extremes::Present(least, largest) => match b {
            Extremes::Absent => a,
            Extremes::Present(least2, largest2) => {
                Extremes::Present(least.min(least2), largest.max(largest2))
            }
        },
    }
}

// What is above 0 and what is below, with a sum more.
fn with_sum(above: u128, below: u128, sum: i64) -> (u128, u128)
    requires { (above < 2 ^ 73) × (below < 2 ^ 73) }
    ensures sums { (result.0 ≡ above + above_of sum) × (result.1 ≡ below + below_of sum) }
    ensures sums_bound { (result.0 ≤ above + 2 ^ 63) × (result.1 ≤ below + 2 ^ 63) }
{
    let size = u128::from(printing::magnitude(sum));
    if sum < 0 {
        return (above, below + size);
    }
    (above + size, below)
}

// The totals with a row more, which is row number `i`.
fn with_row(totals: Totals, i: usize, row: Row) -> Totals
    requires counts_bound { (i < 512) × (totals.usable ≤ i * 2 ^ 32) × (totals.stops ≤ i * 2 ^ 32) }
    requires sums_bound { (totals.above ≤ i * 2 ^ 63) × (totals.below ≤ i * 2 ^ 63) }
    ensures counts { (result.usable ≡ totals.usable + row.usable) × (result.stops ≡ totals.stops + row.stops) }
    ensures sums { (result.above ≡ totals.above + above_of row.sum) × (result.below ≡ totals.below + below_of row.sum) }
    ensures counts_bound_2 { (result.usable ≤ (i + 1) * 2 ^ 32) × (result.stops ≤ (i + 1) * 2 ^ 32) }
    ensures sums_bound_2 { (result.above ≤ (i + 1) * 2 ^ 63) × (result.below ≤ (i + 1) * 2 ^ 63) }
{
    let (above, below) = with_sum(totals.above, totals.below, row.sum);
    Totals {
        usable: totals.usable + u64::from(row.usable),
        stops: totals.stops + u64::from(row.stops),
        extremes: widest_of(totals.extremes, row.extremes),
        above,
        below,
    }
}

// The totals of a report.
pub(crate) fn totals_of(report: Report) -> Totals
    ensures counts { (result.usable ≡ usable_in (rows_in report)) × (result.stops ≡ stops_in (rows_in report)) }
    ensures sums { (result.above ≡ above_in (rows_in report)) × (result.below ≡ below_in (rows_in report)) }
    ensures sums_bound { (result.above < 2 ^ 74) × (result.below < 2 ^ 74) }
{
    let mut totals = Totals {
        usable: 0,
        stops: 0,
        extremes: Extremes::Absent,
        above: 0,
        below: 0,
    };
    for i in 0..report.used.min(512) {
        totals = with_row(totals, i, report.rows[i]);
    }
    totals
}

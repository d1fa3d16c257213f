// Rows of a report: keys as numbers, and two rows of one key put together.
ghost use Rattle.std.specs.Prelude.{◌≡◌, false, pos, ◌*ℤ◌};
ghost use Rattle.season_reports.specs.Rows.{system_number, lesser, greater, widest, blank_row, together, wrong_ends, wrong_sum};
ghost use Rattle.season_reports.specs.Tables.{code_of, over_both, merged, TypedRow, SoundRow};
ghost use Rattle.season_reports.specs.declared.Extremes.TheVariants.{Absent, Present};

use crate::{Extremes, Key, Row};
use frame::System;

// What stands where there is no row.
pub(crate) fn blank_row() -> Row
    ensures { result ≡ blank_row }
{
    let key = Key {
        system: System::Gps,
        station: 0,
        satellite: 0,
    };
    let extremes = Extremes::Absent;
    Row {
        key,
        usable: 0,
        stops: 0,
        extremes,
        sum: 0,
    }
}

// The number of a system.
fn system_number(system: System) -> u32
    ensures { result ≡ system_number system }
{
    match system {
        System::Gps => 0,
        System::Glonass => 1,
    }
}

// A key as one number, so that two are compared at once.
pub(crate) fn code_of(key: Key) -> u32
    ensures { result ≡ code_of key }
{
    let system = key.system;
    let first = system_number(system);
    first * 16777216 + key.station as u32 * 256 + key.satellite as u32
}

// The lesser of two numbers.
fn lesser_of(a: i32, b: i32) -> i32
    ensures { result ≡ lesser a b }
{
    a.min(b)
}

// The greater of two numbers.
fn greater_of(a: i32, b: i32) -> i32
    ensures { result ≡ greater a b }
{
    a.max(b)
}

// The least and the largest of two rows.
fn widest_of(a: Extremes, b: Extremes) -> Extremes
    ensures { result ≡ widest a b }
{
    match a {
        Extremes::Absent => b,
        Extremes::Present(least, largest) => match b {
            Extremes::Absent => a,
            Extremes::Present(least2, largest2) => {
                Extremes::Present(lesser_of(least, least2), greater_of(largest, largest2))
            }
        },
    }
}

// Whether a count of two rows together would pass.
pub(crate) fn is_over(a: Row, b: Row) -> bool
    ensures { result ≡ over_both a b }
{
    b.usable > u32::MAX - a.usable || b.stops > u32::MAX - a.stops
}

// Two rows of one key together. The sums of rows that are right have room: each is at most its count times 2^31.
fn joined_row(a: Row, b: Row) -> Row
    requires sound_row { SoundRow a }
    requires sound_row_2 { SoundRow b }
    requires b_value { over_both a b ≡ false }
    ensures { result ≡ together a b }
{
    let key = b.key;
    let first = a.extremes;
    let second = b.extremes;
    let extremes = widest_of(first, second);
    Row {
        key,
        usable: a.usable + b.usable,
        stops: a.stops + b.stops,
        extremes,
        sum: a.sum + b.sum,
    }
}

// Two rows of one key together, or the old one where a count would pass.
pub(crate) fn merged_row(old: Row, row: Row) -> Row
    requires sound_row { SoundRow old }
    requires sound_row_2 { SoundRow row }
    ensures { result ≡ merged old row }
{
    if is_over(old, row) {
        return old;
    }
    joined_row(old, row)
}

// A count times a distance: 32 bits by 32 have room in 64.
fn times(count: u32, mm: i32) -> i64
    ensures { result ≡ pos count *ℤ mm }
{
    count as i64 * mm as i64
}

// Whether a sum is not from count times least to count times largest, or there is no entry to have these.
fn is_beyond(count: u32, sum: i64, least: i32, largest: i32) -> bool
    ensures { result ≡ wrong_ends count sum (Present least largest) }
{
    count == 0 || sum < times(count, least) || times(count, largest) < sum
}

// Whether a count and a sum without least and largest are not both 0.
fn is_left(count: u32, sum: i64) -> bool
    ensures { result ≡ wrong_ends count sum Absent }
{
    count != 0 || sum != 0
}

// Whether a row's sum can't be: refusal 5.
pub(crate) fn is_wrong(row: Row) -> bool
    ensures value { result ≡ wrong_sum row }
    ensures typed_row { TypedRow row }
{
    let extremes = row.extremes;
    match extremes {
        Extremes::Absent => is_left(row.usable, row.sum),
        Extremes::Present(least, largest) => is_beyond(row.usable, row.sum, least, largest),
    }
}

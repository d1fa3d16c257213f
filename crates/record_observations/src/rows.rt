// Observations as rows of numbers: the tables of the head and of a satellite, and the rows of a frame.
ghost use Rattle.std.specs.Prelude.{◌≡◌, map, ◌≤◌, take};
ghost use Rattle.record_fields.specs.Tables.{put_row, put_rows};
ghost use Rattle.record_observations.specs.Editions.{quality_width};
ghost use Rattle.record_observations.specs.Observations.{epoch_rows, widths, least, most, numbers};

use crate::marks::{mark_number, measured_numbers};
use crate::{Edition, Epoch, Observation, Quantity};
use record_fields::Rows;

// THE HEAD: the widths of its fields, the least and the most of each number.
pub(crate) const HEAD_WIDTHS: [u32; 3] = [2, 2, 20];

const HEAD_LEAST: [u32; 1] = [0];

const HEAD_MOST: [u32; 3] = [3, 3, 599999];

// THE LAYOUT of a satellite: the least and the most of each number; any phase and range of 32 bits may be sent.
const LEAST: [u32; 4] = [0, 0, 0, 1];

const PHASE_MOST: [u32; 6] = [1, 1, 1, 32, 7, 31];

const RANGE_MOST: [u32; 6] = [1, 1, 1, 32, 15, 15];

// The width of the quality: all that differs in the widths of the two types.
fn quality_width(quantity: Quantity) -> u32
    ensures { (result ≡ quality_width quantity) × (result ≤ 8) }
{
    match quantity {
        Quantity::Phase => 3,
        Quantity::Range => 4,
    }
}

// The widths of a satellite's fields.
pub(crate) fn widths_of(quantity: Quantity) -> [u32; 7]
    ensures { result ≡ widths quantity }
{
    let quality = quality_width(quantity);
    [1, 1, 1, 5, quality, 8 - quality, 32]
}

// The most of each number.
fn most_of(quantity: Quantity) -> [u32; 6]
    ensures { result ≡ most quantity }
{
    match quantity {
        Quantity::Phase => PHASE_MOST,
        Quantity::Range => RANGE_MOST,
    }
}

// A satellite's numbers, in the order of the fields.
fn numbers_of(edition: Edition, quantity: Quantity, e: Observation) -> [u32; 12]
    ensures { result ≡ numbers edition quantity e }
{
    let mark = e.mark;
    let first = mark_number(edition, quantity, mark);
    let measured = e.measured;
    let last = measured_numbers(quantity, measured);
    [
        first,
        e.code as u32,
        e.system as u32,
        e.satellite as u32,
        e.quality as u32,
        last[0],
        last[1],
        0,
        0,
        0,
        0,
        0,
    ]
}

// The row of the head.
fn head_rows(epoch: Epoch) -> Rows
    ensures { result ≡ epoch_rows epoch }
{
    let values = [
        epoch.frequency as u32,
        epoch.smoothing as u32,
        epoch.time,
        0,
        0,
        0,
        0,
        0,
        0,
        0,
        0,
        0,
    ];
    record_fields::put_row(
        record_fields::no_rows(),
        values,
        &HEAD_WIDTHS,
        &HEAD_LEAST,
        &HEAD_MOST,
    )
}

// One satellite's row more.
fn put_entry(rows: Rows, edition: Edition, quantity: Quantity, e: Observation) -> Rows
    ensures { result ≡ put_row (widths quantity) least (most quantity) (numbers edition quantity e) rows }
{
    let widths = widths_of(quantity);
    let most = most_of(quantity);
    let values = numbers_of(edition, quantity, e);
    record_fields::put_row(rows, values, &widths, &LEAST, &most)
}

// The rows of the head, and of the satellites below the count.
pub(crate) fn rows_of(
    edition: Edition,
    quantity: Quantity,
    epoch: Epoch,
    entries: [Observation; 15],
    count: usize,
) -> Rows
    ensures { result ≡ put_rows (widths quantity) least (most quantity) (map (numbers edition quantity) (take count entries)) (epoch_rows epoch) }
{
    entries
        .iter()
        .take(count)
        .fold(head_rows(epoch), |rows, e| {
            put_entry(rows, edition, quantity, *e)
        })
}

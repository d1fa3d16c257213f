// Observations of either edition and type as bytes, twelve each.
ghost use Rattle.std.specs.Prelude.{◌≡◌, [], ◌∷◌, ◌+◌, ◌*◌, ◌≤◌, get_or, drop};
ghost use Rattle.record_observations.specs.Editions.{which_mark, mark_bit};
ghost use Rattle.rtcm2_rows.specs.Rows.{entry_of, entries_from, put_by, row_after};
ghost use Rattle.rtcm2_rows.specs.Observations.{mark_with, measured_with, which_measured, beside_byte, amount_number, row};

use crate::row::{Put, put_row, row_at};
use record_observations::{Mark, Measured, Observation};
use std::array;

// The bytes of one observation.
pub const SIZE: usize = 12;

// A mark by its number and its bit; a number over 2 gives one that can't be sent.
#[tactic(auto, unfolding(crate::specs::Observations::mark_with))]
fn mark_with(which: u8, bit: u8) -> Mark
    ensures { result ≡ mark_with which bit }
{
    match which {
        0 => Mark::Half(bit),
        1 => Mark::Reserved(bit),
        2 => Mark::More(bit),
        _ => Mark::More(255),
    }
}

// What was measured, by its number, a phase or a range; a number over 1 gives one that can't be sent.
#[tactic(auto, unfolding(crate::specs::Observations::measured_with))]
fn measured_with(which: u8, beside: u8, amount: u32) -> Measured
    ensures { result ≡ measured_with which beside amount }
{
    match which {
        0 => Measured::Phase(beside, record_fields::signed32(amount)),
        1 => Measured::Range(beside, amount),
        _ => Measured::Range(255, amount),
    }
}

// The observation whose bytes start at `at`; a byte past the last counts as 0.
fn entry_from(bytes: &[u8], at: usize) -> Observation
    requires { at + 12 ≤ 744 }
    ensures { result ≡ entry_of row (drop at bytes.now) }
{
    let [
        which,
        bit,
        code,
        system,
        satellite,
        quality,
        beside,
        sort,
        b0,
        b1,
        b2,
        b3,
    ] = row_at::<SIZE>(bytes, at);
    Observation {
        mark: mark_with(which, bit),
        code,
        system,
        satellite,
        quality,
        measured: measured_with(sort, beside, u32::from_le_bytes([b0, b1, b2, b3])),
    }
}

// The first 15 rows; rows past the last byte are zeros.
pub fn observations_in(bytes: &[u8]) -> [Observation; 15]
    ensures { result ≡ entries_from row 15 bytes.now }
{
    array::from_fn(|i| entry_from(bytes, i * SIZE))
}

// The number of a mark, and its bit.
#[tactic(auto, unfolding(record_observations::specs::Editions::which_mark, record_observations::specs::Editions::mark_bit))]
fn mark_bytes(mark: Mark) -> [u8; 2]
    ensures { result ≡ which_mark mark ∷ mark_bit mark ∷ [] }
{
    match mark {
        Mark::Half(bit) => [0, bit],
        Mark::Reserved(bit) => [1, bit],
        Mark::More(bit) => [2, bit],
    }
}

// What was measured as three numbers: which, what stands beside it, and the amount.
#[tactic(auto, unfolding(crate::specs::Observations::which_measured, crate::specs::Observations::beside_byte, crate::specs::Observations::amount_number))]
fn measured_numbers(measured: Measured) -> [u32; 3]
    ensures { result ≡ which_measured measured ∷ beside_byte measured ∷ amount_number measured ∷ [] }
{
    match measured {
        Measured::Phase(losses, phase) => [0, losses as u32, record_fields::code32(phase)],
        Measured::Range(multipath, range) => [1, multipath as u32, range],
    }
}

// An observation as a row at the start of the bytes; 13 where they are too few.
pub fn put_observation(entry: Observation, bytes: &mut [u8]) -> Put
    ensures value { result ≡ put_by row bytes.old }
    ensures bytes_after { bytes.new ≡ row_after row entry bytes.old }
{
    let [which, bit] = mark_bytes(entry.mark);
    let [sort, beside, amount] = measured_numbers(entry.measured);
    let [sort, ..] = sort.to_le_bytes();
    let [beside, ..] = beside.to_le_bytes();
    let [b0, b1, b2, b3] = amount.to_le_bytes();
    let Observation {
        code,
        system,
        satellite,
        quality,
        ..
    } = entry;
    put_row::<SIZE>(
        [
            which, bit, code, system, satellite, quality, beside, sort, b0, b1, b2, b3,
        ],
        bytes,
    )
}

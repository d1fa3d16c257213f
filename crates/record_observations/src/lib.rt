// Raw observations, types 18 and 19 of both editions: a head of one word, then two words a satellite, 1 to 15 satellites. The types differ
// in the width of the quality and in what is measured, the editions in what the first bit of a satellite says.
#![tactic(auto)]

mod marks;
pub mod meanings;
mod rows;

ghost use Rattle.std.specs.Prelude.{◌≡◌, ◌+◌, ◌≤◌};
ghost use Rattle.bits.specs.Fields.{fields_at};
ghost use Rattle.bits.specs.Rows.{data_bits};
ghost use Rattle.record_observations.specs.Editions.{quantity_of};
ghost use Rattle.record_observations.specs.Observations.{epoch_meant, epoch_widths, time_of, widths, meant};
ghost use Rattle.record_observations.specs.Observations.{count_observations, read_epoch, observation_at, make_observations};

use crate::marks::{mark_of, measured_of};
use crate::rows::{HEAD_WIDTHS, rows_of, widths_of};
use answer::Refusal;
use frame::{Frame, Header, Layout};
use record_stages::{Count, Made, Place};

// The document whose meaning is asked for: GOST R 53612-2009, or BD 410002-2015.
#[derive(Clone, Copy)]
pub enum Edition {
    Gost,
    Bd,
}

// What a type measures: type 18 the phase of the carrier, type 19 the range.
#[derive(Clone, Copy)]
pub enum Quantity {
    Phase,
    Range,
}

// What the first bit of a satellite says: half a wavelength, nothing yet, or that more frames of the set follow.
#[derive(Clone, Copy, PartialEq, Eq)]
pub enum Mark {
    Half(u8),
    Reserved(u8),
    More(u8),
}

// What was measured, in whole counts of its step: losses of continuity and phase, or multipath error and range.
#[derive(Clone, Copy)]
pub enum Measured {
    Phase(u8, i32),
    Range(u8, u32),
}

// The head: frequency, smoothing (type 18: two reserved bits), and the time in microseconds.
#[derive(Clone, Copy)]
pub struct Epoch {
    pub frequency: u8,
    pub smoothing: u8,
    pub time: u32,
}

// One satellite's observation.
#[derive(Clone, Copy)]
pub struct Observation {
    pub mark: Mark,
    pub code: u8,
    pub system: u8,
    pub satellite: u8,
    pub quality: u8,
    pub measured: Measured,
}

// The head of a frame, or the refusal's number.
#[derive(Clone, Copy)]
pub enum EpochRead {
    At(Epoch),
    Refused(u8),
}

// An observation, or the refusal's number.
#[derive(Clone, Copy)]
pub enum ObservationRead {
    Entry(Observation),
    Refused(u8),
}

// No bit is left to fill.
const FILL: u32 = 0;

// What a type measures: 18 phases; 19, the only other type of the layout, ranges.
#[tactic(auto, unfolding(crate::specs::Editions::quantity_of))]
pub fn quantity_of(kind: u8) -> Quantity
    ensures { result ≡ quantity_of kind }
{
    if kind == 18 {
        Quantity::Phase
    } else {
        Quantity::Range
    }
}

// How many satellites a frame has: 5, 6, 7, 8.
#[tactic(auto, unfolding(crate::specs::Observations::count_observations))]
pub fn count_observations(frame: Frame) -> Count
    ensures { result ≡ count_observations frame }
{
    record_stages::count_in(Layout::Observation, 24, 48, frame)
}

// The head that the first word of the data says.
fn epoch_from(words: [u32; 31]) -> Epoch
    ensures { result ≡ epoch_meant (fields_at epoch_widths 0 (data_bits words)) }
{
    let row = record_fields::fields(words, 0, &HEAD_WIDTHS);
    Epoch {
        frequency: row[0] as u8,
        smoothing: row[1] as u8,
        time: row[2],
    }
}

// Whether the time is in its range, which is all that refuses a head that is read.
fn time_of(epoch: Epoch) -> Result<(), Refusal>
    ensures { result ≡ time_of epoch }
{
    if epoch.time > 599999 {
        return Err(Refusal::Field);
    }
    Ok(())
}

// The head of a frame: 5, 6, 7, 8, 10.
pub fn read_epoch(frame: Frame) -> EpochRead
    ensures { result ≡ read_epoch frame }
{
    let words = frame.words;
    let counted = record_stages::count_in(Layout::Observation, 24, 48, frame);
    match counted {
        Count::Of(_) => {
            let epoch = epoch_from(words);
            let Ok(()) = time_of(epoch) else {
                return EpochRead::Refused(10);
            };
            EpochRead::At(epoch)
        }
        Count::Refused(n) => EpochRead::Refused(n),
    }
}

// The satellite whose bits start at bit `at` of the data.
fn entry_from(edition: Edition, quantity: Quantity, words: [u32; 31], at: u32) -> Observation
    requires { at + 48 ≤ 744 }
    ensures { result ≡ meant edition quantity (fields_at (widths quantity) at (data_bits words)) }
{
    let widths = widths_of(quantity);
    let row = record_fields::fields(words, at, &widths);
    let mark = mark_of(edition, quantity, row[0] as u8);
    let measured = measured_of(quantity, row[5] as u8, row[6]);
    Observation {
        mark,
        code: row[1] as u8,
        system: row[2] as u8,
        satellite: record_fields::satellite_of(row[3]),
        quality: row[4] as u8,
        measured,
    }
}

// Satellite number `index`, with its first bit as an edition means it: 5, 6, 7, 8, 9, 10.
pub fn observation_at(edition: Edition, frame: Frame, index: usize) -> ObservationRead
    ensures { result ≡ observation_at edition frame index }
{
    let words = frame.words;
    let header = frame.header;
    let quantity = quantity_of(header.kind);
    let place = record_stages::entry_place(Layout::Observation, 24, 48, frame, index);
    match place {
        Place::At(at) => {
            let Ok(()) = time_of(epoch_from(words)) else {
                return ObservationRead::Refused(10);
            };
            ObservationRead::Entry(entry_from(edition, quantity, words, at))
        }
        Place::Refused(n) => ObservationRead::Refused(n),
    }
}

// A frame of a head and its satellites, each with its edition's first bit: 5, 6, 7, 12, 10.
pub fn make_observations(
    edition: Edition,
    header: Header,
    epoch: Epoch,
    entries: [Observation; 15],
    count: usize,
) -> Made
    ensures { result ≡ make_observations edition header epoch entries count }
{
    let quantity = quantity_of(header.kind);
    let rows = rows_of(edition, quantity, epoch, entries, count);
    record_stages::make_frame(Layout::Observation, 15, FILL, header, count, rows)
}

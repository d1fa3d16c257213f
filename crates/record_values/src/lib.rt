// What the numbers of a record and of a header stand for, in whole units: mm, mm/s, dBHz, minutes, tenths of a second; and which letters
// the characters of a text are.
#![tactic(auto)]

pub mod general;

ghost use Rattle.std.specs.Prelude.{◌≡◌, pos, ◌*ℤ◌};
ghost use Rattle.record_values.specs.Values.{step_of, stops_use, hundredths_of};
ghost use Rattle.record_values.specs.Answer.{prc_mm, rrc_mm_s, udre_limit, cn0_db_hz, minutes_of, z_tenths, letter_of};

use frame::{State, clock_of, health_of};

// A pseudorange correction (PRC), that the satellite is not to be used, or the refusal's number.
#[derive(Clone, Copy)]
pub enum Distance {
    Millimetres(i32),
    Stop,
    Refused(u8),
}

// A range rate correction (RRC), that the satellite is not to be used, or the refusal's number.
#[derive(Clone, Copy)]
pub enum Rate {
    MillimetresPerSecond(i32),
    Stop,
    Refused(u8),
}

// An ionosphere delay, that it is not to be used, or the refusal's number.
#[derive(Clone, Copy)]
pub enum Delay {
    Millimetres(u32),
    Unusable,
    Refused(u8),
}

// A UDRE's upper limit of types 41 and 42 in hundredths of a mm, that it has none, or the refusal's number.
#[derive(Clone, Copy)]
pub enum GeneralLimit {
    Hundredths(u32),
    NoLimit,
    Refused(u8),
}

// How long corrections may be used, or the refusal's number.
#[derive(Clone, Copy)]
pub enum Period {
    Seconds(u8),
    Refused(u8),
}

// A UDRE's upper limit, that it has none, or the refusal's number.
#[derive(Clone, Copy)]
pub enum Limit {
    Millimetres(u32),
    NoLimit,
    Refused(u8),
}

// A satellite's C/N0, that the station does not track it, or the refusal's number.
#[derive(Clone, Copy)]
pub enum Strength {
    DbHz(u8),
    NotTracked,
    Refused(u8),
}

// The time of a health entry, or the refusal's number.
#[derive(Clone, Copy)]
pub enum Time {
    Minutes(u8),
    Refused(u8),
}

// The time of a Z count, from the full hour on, or the refusal's number.
#[derive(Clone, Copy)]
pub enum SinceHour {
    Tenths(u16),
    Refused(u8),
}

// A character's number in Unicode, or the refusal's number.
#[derive(Clone, Copy)]
pub enum Letter {
    Unicode(u32),
    Refused(u8),
}

// The upper limits of UDRE codes 0 to 2 at factor 1, in mm.
const LIMITS: [u32; 3] = [1000, 4000, 8000];

// The step of a scale.
fn step_of(small: u16, large: u16, scale: u8) -> u16
    ensures { result ≡ step_of small large scale }
{
    if scale == 0 { small } else { large }
}

// A signed number times a step: sixteen bits by sixteen always fit, so this is exact at both ends.
pub(crate) fn product(number: i16, step: u16) -> i32
    ensures { result ≡ number *ℤ pos step }
{
    number as i32 * step as i32
}

// PRC in mm: 16 bits in steps of 20 mm or 320 mm. Whether its satellite is to be used depends on RRC too: `stops`.
pub fn prc_mm(scale: u8, prc: i16) -> Distance
    ensures { result ≡ prc_mm scale prc }
{
    if scale > 1 {
        return Distance::Refused(10);
    }
    if prc == -32768 {
        return Distance::Stop;
    }
    Distance::Millimetres(product(prc, step_of(20, 320, scale)))
}

// RRC in mm/s: 8 bits in steps of 2 mm/s or 32 mm/s. Whether its satellite is to be used depends on PRC too: `stops`.
pub fn rrc_mm_s(scale: u8, rrc: i8) -> Rate
    ensures { result ≡ rrc_mm_s scale rrc }
{
    if scale > 1 {
        return Rate::Refused(10);
    }
    if rrc == -128 {
        return Rate::Stop;
    }
    Rate::MillimetresPerSecond(product(rrc as i16, step_of(2, 32, scale)))
}

// Whether a correction with these two numbers says to stop using its satellite: either number does.
pub fn stops(prc: i16, rrc: i8) -> bool
    ensures { result ≡ stops_use prc rrc }
{
    prc == -32768 || rrc == -128
}

// The factor of a state in hundredths: a station that is not monitored or not working has factor 1.
#[tactic(auto, unfolding(crate::specs::Values::hundredths_of))]
pub(crate) fn hundredths_of(state: State) -> u8
    ensures { result ≡ hundredths_of state }
{
    match state {
        State::Factor(factor) => factor,
        State::Unmonitored | State::Down => 100,
    }
}

// A UDRE's upper limit in mm, with the station's factor. A state outside its widths has no health code.
#[tactic(auto, unfolding(crate::specs::Values::udre_value, crate::specs::Values::limits))]
pub fn udre_limit(state: State, udre: u8) -> Limit
    ensures { result ≡ udre_limit state udre }
{
    let Ok(_) = health_of(state) else {
        return Limit::Refused(5);
    };
    if udre > 3 {
        return Limit::Refused(10);
    }
    if udre == 3 {
        return Limit::NoLimit;
    }
    Limit::Millimetres(LIMITS[udre as usize] * hundredths_of(state) as u32 / 100)
}

// C/N0 in dBHz.
pub fn cn0_dbhz(code: u8) -> Strength
    ensures { result ≡ cn0_db_hz code }
{
    if code > 31 {
        return Strength::Refused(10);
    }
    if code == 0 {
        return Strength::NotTracked;
    }
    Strength::DbHz(24 + code)
}

// The time of a health entry in minutes, 5 each.
pub fn minutes(code: u8) -> Time
    ensures { result ≡ minutes_of code }
{
    if code > 15 {
        return Time::Refused(10);
    }
    Time::Minutes(5 * code)
}

// A Z count in tenths of a second, 6 each.
pub fn z_tenths(z: u16) -> SinceHour
    ensures { result ≡ z_tenths z }
{
    if z > 8191 {
        return SinceHour::Refused(5);
    }
    let Ok(()) = clock_of(z) else {
        return SinceHour::Refused(7);
    };
    SinceHour::Tenths(6 * z)
}

// What a character of types 16 and 36 is: 1 to 127 are ASCII. 128 to 191 are the table of annex G, the Russian capital and then the small
// letters in the order of the alphabet, both without yo: the same 64 in the same order as in Unicode from U+0410 on.
pub fn letter_of(code: u8) -> Letter
    ensures { result ≡ letter_of code }
{
    match code {
        1..=127 => Letter::Unicode(code as u32),
        128..=191 => Letter::Unicode(0x0410 + (code as u32 - 128)),
        _ => Letter::Refused(11),
    }
}

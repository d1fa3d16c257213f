// What a record's numbers stand for; a meaning that has no number has a flag beside it, and the number is then 0.
ghost use Rattle.std.specs.Prelude.{◌≡◌};
ghost use Rattle.bits.specs.Bits.{val};
ghost use Rattle.rtcm2.specs.Answer.{number_of, left};
ghost use Rattle.rtcm2.specs.Values.{prc_said, rrc_said, stops_said, limit_said, strength_said, letter_said};
ghost use Rattle.rtcm2.specs.Values.{stop_flag, exact_or0, limit_flag, limit_or0, tracked_flag, db_hz_or0};
ghost use Rattle.rtcm2.specs.Values.{general_prc_said, delay_said, usable_flag, delay_or0, general_limit_said, seconds_said};

use record_values::{Delay, Distance, GeneralLimit, Letter, Limit, Period, Rate, Strength};

// PRC in mm. Order 10.
pub fn rtcm2_prc_mm(scale: u8, prc: i16, stop: &mut u8, mm: &mut i32) -> u8
    ensures value { result ≡ number_of (prc_said scale prc) }
    ensures stop_after { stop.new ≡ left (prc_said scale prc) stop_flag stop.old }
    ensures mm_after { mm.new ≡ left (prc_said scale prc) exact_or0 mm.old }
{
    match record_values::prc_mm(scale, prc) {
        Distance::Millimetres(exact) => {
            *stop = 0;
            *mm = exact;
            0
        }
        Distance::Stop => {
            *stop = 1;
            *mm = 0;
            0
        }
        Distance::Refused(number) => number,
    }
}

// RRC in mm/s. Order 10.
pub fn rtcm2_rrc_mm_s(scale: u8, rrc: i8, stop: &mut u8, rate: &mut i32) -> u8
    ensures value { result ≡ number_of (rrc_said scale rrc) }
    ensures stop_after { stop.new ≡ left (rrc_said scale rrc) stop_flag stop.old }
    ensures rate_after { rate.new ≡ left (rrc_said scale rrc) exact_or0 rate.old }
{
    match record_values::rrc_mm_s(scale, rrc) {
        Rate::MillimetresPerSecond(exact) => {
            *stop = 0;
            *rate = exact;
            0
        }
        Rate::Stop => {
            *stop = 1;
            *rate = 0;
            0
        }
        Rate::Refused(number) => number,
    }
}

// Whether a correction with these two numbers stops its satellite. No refusal.
pub fn rtcm2_stops(prc: i16, rrc: i8, stop: &mut u8) -> u8
    ensures value { result ≡ number_of (stops_said prc rrc) }
    ensures stop_after { stop.new ≡ left (stops_said prc rrc) val stop.old }
{
    if record_values::stops(prc, rrc) {
        *stop = 1;
        return 0;
    }
    *stop = 0;
    0
}

// The upper limit of a UDRE code under the station's health, in mm. Order 5, 10.
pub fn rtcm2_udre_limit_mm(health: u8, udre: u8, limited: &mut u8, mm: &mut u32) -> u8
    ensures value { result ≡ number_of (limit_said health udre) }
    ensures limited_after { limited.new ≡ left (limit_said health udre) limit_flag limited.old }
    ensures mm_after { mm.new ≡ left (limit_said health udre) limit_or0 mm.old }
{
    if health > 7 {
        return 5;
    }
    let state = frame::state_of(health as u32);
    match record_values::udre_limit(state, udre) {
        Limit::Millimetres(limit) => {
            *limited = 1;
            *mm = limit;
            0
        }
        Limit::NoLimit => {
            *limited = 0;
            *mm = 0;
            0
        }
        Limit::Refused(number) => number,
    }
}

// C/N0 in dBHz. Order 10.
pub fn rtcm2_cn0_dbhz(code: u8, tracked: &mut u8, dbhz: &mut u8) -> u8
    ensures value { result ≡ number_of (strength_said code) }
    ensures tracked_after { tracked.new ≡ left (strength_said code) tracked_flag tracked.old }
    ensures dbhz_after { dbhz.new ≡ left (strength_said code) db_hz_or0 dbhz.old }
{
    match record_values::cn0_dbhz(code) {
        Strength::DbHz(strength) => {
            *tracked = 1;
            *dbhz = strength;
            0
        }
        Strength::NotTracked => {
            *tracked = 0;
            *dbhz = 0;
            0
        }
        Strength::Refused(number) => number,
    }
}

// A character of a text as its number in Unicode. Order 11.
pub fn rtcm2_letter_of(code: u8, letter: &mut u32) -> u8
    ensures value { result ≡ number_of (letter_said code) }
    ensures letter_after { letter.new ≡ left (letter_said code) (λ k. k) letter.old }
{
    match record_values::letter_of(code) {
        Letter::Unicode(unicode) => {
            *letter = unicode;
            0
        }
        Letter::Refused(number) => number,
    }
}

// PRC of types 41 and 42 in mm. Order 10.
pub fn rtcm2_general_prc_mm(prc: i16, stop: &mut u8, mm: &mut i32) -> u8
    ensures value { result ≡ number_of (general_prc_said prc) }
    ensures stop_after { stop.new ≡ left (general_prc_said prc) stop_flag stop.old }
    ensures mm_after { mm.new ≡ left (general_prc_said prc) exact_or0 mm.old }
{
    match record_values::general::general_prc_mm(prc) {
        Distance::Millimetres(exact) => {
            *stop = 0;
            *mm = exact;
            0
        }
        Distance::Stop => {
            *stop = 1;
            *mm = 0;
            0
        }
        Distance::Refused(number) => number,
    }
}

// The ionosphere's delay in mm. Order 10.
pub fn rtcm2_delay_mm(delay: u16, usable: &mut u8, mm: &mut u32) -> u8
    ensures value { result ≡ number_of (delay_said delay) }
    ensures usable_after { usable.new ≡ left (delay_said delay) usable_flag usable.old }
    ensures mm_after { mm.new ≡ left (delay_said delay) delay_or0 mm.old }
{
    match record_values::general::delay_mm(delay) {
        Delay::Millimetres(exact) => {
            *usable = 1;
            *mm = exact;
            0
        }
        Delay::Unusable => {
            *usable = 0;
            *mm = 0;
            0
        }
        Delay::Refused(number) => number,
    }
}

// The upper limit of a UDRE code of types 41 and 42 under the station's health, in hundredths of a mm. Order 5, 10.
pub fn rtcm2_general_udre(health: u8, udre: u8, limited: &mut u8, hundredths: &mut u32) -> u8
    ensures value { result ≡ number_of (general_limit_said health udre) }
    ensures limited_after { limited.new ≡ left (general_limit_said health udre) limit_flag limited.old }
    ensures hundredths_after { hundredths.new ≡ left (general_limit_said health udre) limit_or0 hundredths.old }
{
    if health > 7 {
        return 5;
    }
    let state = frame::state_of(health as u32);
    match record_values::general::general_udre(state, udre) {
        GeneralLimit::Hundredths(limit) => {
            *limited = 1;
            *hundredths = limit;
            0
        }
        GeneralLimit::NoLimit => {
            *limited = 0;
            *hundredths = 0;
            0
        }
        GeneralLimit::Refused(number) => number,
    }
}

// How long corrections of types 41 and 42 may be used, in seconds. Order 10.
pub fn rtcm2_use_seconds(code: u8, seconds: &mut u8) -> u8
    ensures value { result ≡ number_of (seconds_said code) }
    ensures seconds_after { seconds.new ≡ left (seconds_said code) (λ k. k) seconds.old }
{
    match record_values::general::use_seconds(code) {
        Period::Seconds(period) => {
            *seconds = period;
            0
        }
        Period::Refused(number) => number,
    }
}

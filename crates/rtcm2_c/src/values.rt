// What a record's numbers stand for; a meaning that has no number has a flag beside it, and the number is then 0.
ghost use Rattle.std.specs.Prelude.{◌≡◌};
ghost use Rattle.bits.specs.Bits.{val};
ghost use Rattle.rtcm2.specs.Answer.{number_of, left};
ghost use Rattle.rtcm2.specs.Values.{prc_said, rrc_said, stops_said, limit_said, strength_said, letter_said};
ghost use Rattle.rtcm2.specs.Values.{stop_flag, exact_or0, limit_flag, limit_or0, tracked_flag, db_hz_or0};
ghost use Rattle.rtcm2.specs.Values.{general_prc_said, delay_said, usable_flag, delay_or0, general_limit_said, seconds_said};

// PRC in mm. Order 10.
#[unsafe(no_mangle)]
pub extern "C" fn rtcm2_prc_mm(scale: u8, prc: i16, stop: &mut u8, mm: &mut i32) -> u8
    ensures value { result ≡ number_of (prc_said scale prc) }
    ensures stop_after { stop.new ≡ left (prc_said scale prc) stop_flag stop.old }
    ensures mm_after { mm.new ≡ left (prc_said scale prc) exact_or0 mm.old }
{
    rtcm2::values::rtcm2_prc_mm(scale, prc, stop, mm)
}

// RRC in mm/s. Order 10.
#[unsafe(no_mangle)]
pub extern "C" fn rtcm2_rrc_mm_s(scale: u8, rrc: i8, stop: &mut u8, rate: &mut i32) -> u8
    ensures value { result ≡ number_of (rrc_said scale rrc) }
    ensures stop_after { stop.new ≡ left (rrc_said scale rrc) stop_flag stop.old }
    ensures rate_after { rate.new ≡ left (rrc_said scale rrc) exact_or0 rate.old }
{
    rtcm2::values::rtcm2_rrc_mm_s(scale, rrc, stop, rate)
}

// Whether a correction with these two numbers stops its satellite. No refusal.
#[unsafe(no_mangle)]
pub extern "C" fn rtcm2_stops(prc: i16, rrc: i8, stop: &mut u8) -> u8
    ensures value { result ≡ number_of (stops_said prc rrc) }
    ensures stop_after { stop.new ≡ left (stops_said prc rrc) val stop.old }
{
    rtcm2::values::rtcm2_stops(prc, rrc, stop)
}

// The upper limit of a UDRE code under the station's health, in mm. Order 5, 10.
#[unsafe(no_mangle)]
pub extern "C" fn rtcm2_udre_limit_mm(health: u8, udre: u8, limited: &mut u8, mm: &mut u32) -> u8
    ensures value { result ≡ number_of (limit_said health udre) }
    ensures limited_after { limited.new ≡ left (limit_said health udre) limit_flag limited.old }
    ensures mm_after { mm.new ≡ left (limit_said health udre) limit_or0 mm.old }
{
    rtcm2::values::rtcm2_udre_limit_mm(health, udre, limited, mm)
}

// C/N0 in dBHz. Order 10.
#[unsafe(no_mangle)]
pub extern "C" fn rtcm2_cn0_dbhz(code: u8, tracked: &mut u8, dbhz: &mut u8) -> u8
    ensures value { result ≡ number_of (strength_said code) }
    ensures tracked_after { tracked.new ≡ left (strength_said code) tracked_flag tracked.old }
    ensures dbhz_after { dbhz.new ≡ left (strength_said code) db_hz_or0 dbhz.old }
{
    rtcm2::values::rtcm2_cn0_dbhz(code, tracked, dbhz)
}

// A character of a text as its number in Unicode. Order 11.
#[unsafe(no_mangle)]
pub extern "C" fn rtcm2_letter_of(code: u8, letter: &mut u32) -> u8
    ensures value { result ≡ number_of (letter_said code) }
    ensures letter_after { letter.new ≡ left (letter_said code) (λ k. k) letter.old }
{
    rtcm2::values::rtcm2_letter_of(code, letter)
}

// PRC of types 41 and 42 in mm. Order 10.
#[unsafe(no_mangle)]
pub extern "C" fn rtcm2_general_prc_mm(prc: i16, stop: &mut u8, mm: &mut i32) -> u8
    ensures value { result ≡ number_of (general_prc_said prc) }
    ensures stop_after { stop.new ≡ left (general_prc_said prc) stop_flag stop.old }
    ensures mm_after { mm.new ≡ left (general_prc_said prc) exact_or0 mm.old }
{
    rtcm2::values::rtcm2_general_prc_mm(prc, stop, mm)
}

// The ionosphere's delay in mm. Order 10.
#[unsafe(no_mangle)]
pub extern "C" fn rtcm2_delay_mm(delay: u16, usable: &mut u8, mm: &mut u32) -> u8
    ensures value { result ≡ number_of (delay_said delay) }
    ensures usable_after { usable.new ≡ left (delay_said delay) usable_flag usable.old }
    ensures mm_after { mm.new ≡ left (delay_said delay) delay_or0 mm.old }
{
    rtcm2::values::rtcm2_delay_mm(delay, usable, mm)
}

// The upper limit of a UDRE code of types 41 and 42 under the station's health, in hundredths of a mm. Order 5, 10.
#[unsafe(no_mangle)]
pub extern "C" fn rtcm2_general_udre(
    health: u8,
    udre: u8,
    limited: &mut u8,
    hundredths: &mut u32,
) -> u8
    ensures value { result ≡ number_of (general_limit_said health udre) }
    ensures limited_after { limited.new ≡ left (general_limit_said health udre) limit_flag limited.old }
    ensures hundredths_after { hundredths.new ≡ left (general_limit_said health udre) limit_or0 hundredths.old }
{
    rtcm2::values::rtcm2_general_udre(health, udre, limited, hundredths)
}

// How long corrections of types 41 and 42 may be used, in seconds. Order 10.
#[unsafe(no_mangle)]
pub extern "C" fn rtcm2_use_seconds(code: u8, seconds: &mut u8) -> u8
    ensures value { result ≡ number_of (seconds_said code) }
    ensures seconds_after { seconds.new ≡ left (seconds_said code) (λ k. k) seconds.old }
{
    rtcm2::values::rtcm2_use_seconds(code, seconds)
}

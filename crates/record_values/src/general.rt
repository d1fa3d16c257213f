// What the numbers of types 41 and 42 stand for: mm, hundredths of a mm, seconds.
ghost use Rattle.std.specs.Prelude.{◌≡◌};
ghost use Rattle.record_values.specs.GeneralAnswer.{general_prc_mm, delay_mm, general_udre, use_seconds};

use crate::{Delay, Distance, GeneralLimit, Period, hundredths_of, product};
use frame::{State, health_of};

// The upper limits of UDRE codes 0 to 14 of types 41 and 42 at factor 1, in mm.
const GENERAL_LIMITS: [u32; 15] = [
    40, 62, 96, 149, 231, 358, 555, 860, 1333, 2066, 3202, 4963, 7692, 11923, 18480,
];

// The longest use of the four codes, in seconds.
const SECONDS: [u8; 4] = [15, 30, 60, 120];

// PRC of types 41 and 42 in mm: 14 bits in steps of 20 mm.
pub fn general_prc_mm(prc: i16) -> Distance
    ensures { result ≡ general_prc_mm prc }
{
    if prc < -8192 || prc > 8191 {
        return Distance::Refused(10);
    }
    if prc == -8192 {
        return Distance::Stop;
    }
    Distance::Millimetres(product(prc, 20))
}

// An ionosphere delay in mm: 12 bits in steps of 20 mm.
pub fn delay_mm(delay: u16) -> Delay
    ensures { result ≡ delay_mm delay }
{
    if delay > 4095 {
        return Delay::Refused(10);
    }
    if delay == 4095 {
        return Delay::Unusable;
    }
    Delay::Millimetres(20 * delay as u32)
}

// A UDRE's upper limit of types 41 and 42 in hundredths of a mm, with the station's factor: exact, since the factor is in hundredths.
#[tactic(auto, unfolding(crate::specs::GeneralValues::general_udre_value, crate::specs::GeneralValues::general_limits))]
pub fn general_udre(state: State, udre: u8) -> GeneralLimit
    ensures { result ≡ general_udre state udre }
{
    let Ok(_) = health_of(state) else {
        return GeneralLimit::Refused(5);
    };
    if udre > 15 {
        return GeneralLimit::Refused(10);
    }
    if udre == 15 {
        return GeneralLimit::NoLimit;
    }
    GeneralLimit::Hundredths(GENERAL_LIMITS[udre as usize] * hundredths_of(state) as u32)
}

// How long corrections of types 41 and 42 may be used, in seconds.
#[tactic(auto, unfolding(crate::specs::GeneralValues::seconds_of_use))]
pub fn use_seconds(code: u8) -> Period
    ensures { result ≡ use_seconds code }
{
    if code > 3 {
        return Period::Refused(10);
    }
    Period::Seconds(SECONDS[code as usize])
}

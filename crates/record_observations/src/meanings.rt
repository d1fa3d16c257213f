// What numbers of types 18 and 19 stand for where the editions or the types tell it differently: frequency codes, and the step of a phase.
ghost use Rattle.std.specs.Prelude.{◌≡◌};
ghost use Rattle.record_observations.specs.Meanings.{first_code, other_band, frequency_of, phase_step};

use crate::marks::mark_number;
use crate::{Edition, Mark, Quantity, quantity_of};
use frame::Layout;
use record_stages::Asked;

// What a frequency code says: L1 or L2, the difference that the ionosphere makes, free of the ionosphere, special, reserved; or the
// refusal's number.
#[derive(Clone, Copy)]
pub enum Frequency {
    L1,
    L2,
    Difference,
    IonosphereFree,
    Special,
    Reserved,
    Refused(u8),
}

// The step of a phase: one 256th of a wavelength, one 128th of half a wavelength; or the refusal's number.
#[derive(Clone, Copy)]
pub enum Step {
    Wavelength256,
    HalfWavelength128,
    Refused(u8),
}

// What GOST means by code 1.
#[tactic(auto, unfolding(crate::specs::Meanings::first_code))]
fn first_code(quantity: Quantity) -> Frequency
    ensures { result ≡ first_code quantity }
{
    match quantity {
        Quantity::Phase => Frequency::Difference,
        Quantity::Range => Frequency::IonosphereFree,
    }
}

// What a code other than those of L1 and L2 says.
#[tactic(auto, unfolding(crate::specs::Meanings::other_band))]
fn other_band(edition: Edition, quantity: Quantity, code: u8) -> Frequency
    ensures { result ≡ other_band edition quantity code }
{
    match edition {
        Edition::Gost if code == 3 => Frequency::Special,
        Edition::Gost => first_code(quantity),
        Edition::Bd => Frequency::Reserved,
    }
}

// What a frequency code of a type says in an edition: 6, 10.
#[tactic(auto, unfolding(crate::specs::Meanings::frequency_of))]
pub fn frequency_of(edition: Edition, kind: u8, code: u8) -> Frequency
    ensures { result ≡ frequency_of edition kind code }
{
    let Asked::Same = record_stages::asked_of(Layout::Observation, kind) else {
        return Frequency::Refused(6);
    };
    if code > 3 {
        return Frequency::Refused(10);
    }
    match code {
        0 => Frequency::L1,
        2 => Frequency::L2,
        _ => other_band(edition, quantity_of(kind), code),
    }
}

// The step of a phase with a mark in an edition: 6 for a type other than 18, 10 for a mark that it can't have.
#[tactic(auto, unfolding(crate::specs::Meanings::step_of, crate::specs::Meanings::phase_step))]
pub fn phase_step(edition: Edition, kind: u8, mark: Mark) -> Step
    ensures { result ≡ phase_step edition kind mark }
{
    if kind != 18 {
        return Step::Refused(6);
    }
    if mark_number(edition, Quantity::Phase, mark) > 1 {
        return Step::Refused(10);
    }
    match mark {
        Mark::Half(1) => Step::HalfWavelength128,
        Mark::Half(_) | Mark::Reserved(_) | Mark::More(_) => Step::Wavelength256,
    }
}

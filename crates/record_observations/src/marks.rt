// The numbers of an observation whose meaning is the edition's or the type's: its first bit, and what was measured.
ghost use Rattle.std.specs.Prelude.{◌≡◌, [], ◌∷◌};
ghost use Rattle.record_observations.specs.Editions.{mark_of, mark_bit, mark_number, measured_of, beside_of, amount_of};

use crate::{Edition, Mark, Measured, Quantity};

// What the first bit of a satellite says.
#[tactic(auto, unfolding(crate::specs::Editions::mark_of))]
pub(crate) fn mark_of(edition: Edition, quantity: Quantity, bit: u8) -> Mark
    ensures { result ≡ mark_of edition quantity bit }
{
    match (edition, quantity) {
        (Edition::Gost, Quantity::Phase) => Mark::Half(bit),
        (Edition::Gost, Quantity::Range) => Mark::Reserved(bit),
        (Edition::Bd, _) => Mark::More(bit),
    }
}

// The bit of a mark.
#[tactic(auto, unfolding(crate::specs::Editions::mark_bit))]
fn bit_of(mark: Mark) -> u8
    ensures { result ≡ mark_bit mark }
{
    match mark {
        Mark::Half(bit) | Mark::Reserved(bit) | Mark::More(bit) => bit,
    }
}

// What can't be sent for a bit.
const NO_BIT: u32 = 2;

// The number of a mark; where it is another edition's or another type's, one that can't be sent.
pub(crate) fn mark_number(edition: Edition, quantity: Quantity, mark: Mark) -> u32
    ensures { result ≡ mark_number edition quantity mark }
{
    let bit = bit_of(mark);
    if mark == mark_of(edition, quantity, bit) {
        u32::from(bit)
    } else {
        NO_BIT
    }
}

// What was measured, by its two numbers: a phase is two's complement.
pub(crate) fn measured_of(quantity: Quantity, beside: u8, amount: u32) -> Measured
    ensures { result ≡ measured_of quantity beside amount }
{
    match quantity {
        Quantity::Phase => Measured::Phase(beside, record_fields::signed32(amount)),
        Quantity::Range => Measured::Range(beside, amount),
    }
}

// The two numbers of what was measured; where it is the other type's, a first one that can't be sent.
#[tactic(auto, unfolding(crate::specs::Editions::beside_of, crate::specs::Editions::amount_of))]
pub(crate) fn measured_numbers(quantity: Quantity, measured: Measured) -> [u32; 2]
    ensures { result ≡ beside_of quantity measured ∷ amount_of quantity measured ∷ [] }
{
    match (quantity, measured) {
        (Quantity::Phase, Measured::Phase(losses, phase)) => {
            [u32::from(losses), record_fields::code32(phase)]
        }
        (Quantity::Range, Measured::Range(multipath, range)) => [u32::from(multipath), range],
        (Quantity::Phase, Measured::Range(_, _)) | (Quantity::Range, Measured::Phase(_, _)) => {
            [256, 0]
        }
    }
}

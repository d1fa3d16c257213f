// The factors, and a state's health code.
ghost use Rattle.std.specs.Prelude.{◌≡◌, ◌≤◌};
ghost use Rattle.frame.specs.Header.{factors, place_in, code_of};

use crate::State;

// The UDRE factors of health codes 0 to 5, in hundredths.
pub(crate) static FACTORS: [u8; 6] = [100, 75, 50, 30, 20, 10];

// The place of a factor among the six, or 6.
pub(crate) fn place_of(factor: u8) -> usize
    ensures value { result ≡ place_in factor factors }
    ensures bound { result ≤ 6 }
{
    let place = FACTORS.iter().position(|known| factor == *known);
    place.unwrap_or(6)
}

// A state's health code, whether or not its factor is one of the six.
#[tactic(auto, unfolding(crate::specs::Header::code_of))]
pub(crate) fn code_of(state: State) -> u8
    ensures { result ≡ code_of state }
{
    match state {
        State::Factor(factor) => place_of(factor) as u8,
        State::Unmonitored => 6,
        State::Down => 7,
    }
}

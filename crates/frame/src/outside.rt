// The tests of refusal 5: what is outside its width.
ghost use Rattle.std.specs.Prelude.{◌≡◌, leb};
ghost use Rattle.frame.specs.Widths.{any_of, state_outside, numbers_outside, header_outside, pair_outside, outside};

use crate::code::place_of;
use crate::{Carried, Frame, Header, State};

// The state has a factor other than the six.
#[tactic(auto, unfolding(crate::specs::Widths::state_outside, crate::specs::Header::factors))]
pub(crate) fn state_outside(state: State) -> bool
    ensures { result ≡ state_outside state }
{
    match state {
        State::Factor(factor) => place_of(factor) == 6,
        State::Unmonitored | State::Down => false,
    }
}

// Type not 1 to 64, station over 10 bits, Z over 13, sequence over 3.
#[tactic(auto, unfolding(crate::specs::Widths::numbers_outside))]
fn numbers_outside(header: Header) -> bool
    ensures { result ≡ numbers_outside header.kind header.station header.z header.sequence }
{
    !(1..=64).contains(&header.kind)
        || header.station > 1023
        || header.z > 8191
        || header.sequence > 7
}

// A number of the header, or its state, is outside its width.
#[tactic(auto, unfolding(crate::specs::Widths::header_outside))]
pub(crate) fn header_outside(header: Header) -> bool
    ensures { result ≡ header_outside header }
{
    numbers_outside(header) || state_outside(header.state)
}

// A carried bit is neither 0 nor 1.
#[tactic(auto, unfolding(crate::specs::Widths::pair_outside))]
fn carried_outside(carried: Carried) -> bool
    ensures { result ≡ pair_outside carried }
{
    carried.d29 > 1 || carried.d30 > 1
}

// One of the words is at least `least`.
fn any_from(words: &[u32], least: u32) -> bool
    ensures { result ≡ any_of (leb least) words.now }
{
    words.iter().any(|word| *word >= least)
}

// A part of a frame is outside its width: its header, N, a word over 24 bits, a word past N that is not zero, a carried bit.
#[tactic(auto, unfolding(crate::specs::Widths::outside))]
pub(crate) fn frame_outside(frame: Frame) -> bool
    ensures { result ≡ outside frame }
{
    // the words alone are copied: to lend a part of `frame` copies all of it
    let words = frame.words;
    header_outside(frame.header)
        || frame.n > 31
        || any_from(&words, 16777216)
        || any_from(&words[frame.n..], 1)
        || carried_outside(frame.carried)
}

// The small-beacon profile of one harbour group: types 3, 5, 6, 9 and 16 alone, of type 9 at most three satellites and none twice. A checker
// of frames, and a sender's side that cuts a list of corrections into such frames.
#![tactic(auto)]

mod arms;
mod cuts;
mod satellites;

ghost use Rattle.std.specs.Prelude.{◌≡◌};
ghost use Rattle.profile.specs.Profile.{check_profile};
ghost use Rattle.profile.specs.Cutting.{refused_cut, cut_corrections};

use crate::arms::{
    corrections_profile, healths_profile, null_profile, position_profile, text_profile,
};
use crate::cuts::cut_all;
use crate::satellites::{satellites_of, twice};
use frame::{Frame, Header};
use record_corrections::Correction;
use record_stages::Making;

// Whether a frame is in the profile, or the refusal's number.
#[derive(Clone, Copy)]
pub enum Profile {
    Inside,
    Refused(u8),
}

// How many frames a list is cut into, or the refusal's number.
#[derive(Clone, Copy)]
pub enum Cutting {
    Frames(usize),
    Refused(u8),
}

// The frames of a list, in order; behind them, and where cutting is refused, blank frames.
#[derive(Clone, Copy)]
pub struct Cut {
    pub answer: Cutting,
    pub frames: [Frame; 6],
}

// Whether a frame is in the profile: 5, 7, 20, 8, 10 or 11, 21, 22.
pub fn check_profile(frame: Frame) -> Profile
    ensures { result ≡ check_profile frame }
{
    let Ok(()) = frame::frame_widths(frame) else {
        return Profile::Refused(5);
    };
    let header = frame.header;
    let Ok(()) = frame::clock_of(header.z) else {
        return Profile::Refused(7);
    };
    let kind = header.kind;
    match kind {
        3 => position_profile(frame),
        5 => healths_profile(frame),
        6 => null_profile(frame),
        9 => corrections_profile(frame),
        16 => text_profile(frame),
        _ => Profile::Refused(20),
    }
}

// A refusal, with blank frames.
#[tactic(auto, unfolding(crate::specs::Cutting::refused_cut, crate::specs::Cutting::no_frames))]
fn refused(number: u8) -> Cut
    ensures { result ≡ refused_cut number }
{
    Cut {
        answer: Cutting::Refused(number),
        frames: [frame::no_frame(); 6],
    }
}

// Corrections for different satellites as frames of type 9, three a frame, the sequence rising by one: 5, 6, 7, 12, 10, 22. The frame of the
// whole list is made for its refusals alone.
pub fn cut_corrections(header: Header, entries: [Correction; 18], count: usize) -> Cut
    ensures { result ≡ cut_corrections header entries count }
{
    let Ok(()) = frame::header_widths(header) else {
        return refused(5);
    };
    if header.kind != 9 {
        return refused(6);
    }
    let made = record_corrections::make_corrections(header, entries, count);
    let answer = made.answer;
    if let Making::Refused(n) = answer {
        return refused(n);
    }
    let satellites = satellites_of(entries);
    if twice(&satellites[..count]) {
        return refused(22);
    }
    let frames = cut_all(header, entries, count);
    Cut {
        answer: Cutting::Frames(count.div_ceil(3)),
        frames,
    }
}

// Frames by value: the station's state, the header, the data words, and the checks that every call on a frame shares.
#![tactic(auto)]

mod code;
mod outside;

ghost use Rattle.std.specs.Prelude.{◌≡◌, ◌%◌, ◌<◌};
ghost use Rattle.bits.specs.Bits.{bits};
ghost use Rattle.frame.specs.Header.{state_of, kind_of, header_of, n_of, preambled};
ghost use Rattle.frame.specs.Frames.{built_of, blank};
ghost use Rattle.frame.specs.Answer.{health_of, header_words, header_widths, frame_widths, clock_of};
ghost use Rattle.frame.specs.Layout.{layout_of, layout_number, system_of};

use crate::code::{FACTORS, code_of};
use crate::outside::{frame_outside, header_outside, state_outside};
use answer::Refusal;

// The station's state: its UDRE factor in whole hundredths, not monitored, or not working.
#[derive(Clone, Copy, Debug, PartialEq, Eq)]
pub enum State {
    Factor(u8),
    Unmonitored,
    Down,
}

// The header without N, which stands beside it in the frame.
#[derive(Clone, Copy, Debug, PartialEq, Eq)]
pub struct Header {
    pub kind: u8,
    pub station: u16,
    pub z: u16,
    pub sequence: u8,
    pub state: State,
}

// The two line bits before a word, each 0 or 1. Either value occurs on a sound line: they do not tell whether it is turned.
#[derive(Clone, Copy, Debug, PartialEq, Eq)]
pub struct Carried {
    pub d29: u8,
    pub d30: u8,
}

// A frame: the two bits before word 1; N data words, d1 of each in bit 23; the words past N are 0.
#[derive(Clone, Copy, Debug, PartialEq, Eq)]
pub struct Frame {
    pub header: Header,
    pub carried: Carried,
    pub n: usize,
    pub words: [u32; 31],
}

// What a type number says about the data words; two types have a list or are null, by their N: 34, and 42 of the general ones.
#[derive(Clone, Copy, Debug, PartialEq, Eq)]
pub enum Layout {
    Correction = 0,
    CorrectionOrNull = 6,
    Position = 1,
    Health = 2,
    Null = 3,
    Text = 4,
    Observation = 7,
    General = 8,
    Plain = 5,
}

// A system of satellites.
#[derive(Clone, Copy, Debug, PartialEq, Eq)]
pub enum System {
    Gps,
    Glonass,
}

// The preamble of word 1.
const PREAMBLE: u32 = 0b01100110;

// A health code, three bits, to the state.
#[tactic(auto, unfolding(crate::specs::Header::state_of, crate::specs::Header::factors))]
pub fn state_of(health: u32) -> State
    ensures { result ≡ state_of (health % 8) }
{
    match health % 8 {
        6 => State::Unmonitored,
        7 => State::Down,
        code => State::Factor(FACTORS[code as usize]),
    }
}

// A state's health code; 5 for a factor other than the six.
pub fn health_of(state: State) -> Result<u8, Refusal>
    ensures { result ≡ health_of state }
{
    if state_outside(state) {
        return Err(Refusal::Width);
    }
    Ok(code_of(state))
}

// A type code, six bits, to the type number: 0 means 64.
fn kind_of(code: u32) -> u8
    requires { code < 64 }
    ensures { result ≡ kind_of code }
{
    match code {
        0 => 64,
        _ => code as u8,
    }
}

// The header that the data of words 1 and 2 holds.
pub fn header_of(first: u32, second: u32) -> Header
    ensures { result ≡ header_of (bits 24 first) (bits 24 second) }
{
    Header {
        kind: kind_of(first / 1024 % 64),
        station: (first % 1024) as u16,
        z: (second / 2048 % 8192) as u16,
        sequence: (second / 256 % 8) as u8,
        state: state_of(second),
    }
}

// A frame that did not come from the line: made, recalled, or given by its numbers. Its carried bits are 00.
pub fn built(header: Header, n: usize, words: [u32; 31]) -> Frame
    ensures { result ≡ built_of header n words }
{
    Frame {
        header,
        carried: Carried { d29: 0, d30: 0 },
        n,
        words,
    }
}

// What stands for a frame where there is none: type 0, which every call refuses with 5.
#[tactic(auto, unfolding(crate::specs::Frames::blank))]
pub fn no_frame() -> Frame
    ensures { result ≡ blank }
{
    let header = Header {
        kind: 0,
        station: 0,
        z: 0,
        sequence: 0,
        state: State::Factor(100),
    };
    built(header, 0, [0; 31])
}

// N, in word 2.
pub fn n_of(second: u32) -> usize
    ensures { result ≡ n_of (bits 24 second) }
{
    (second / 8 % 32) as usize
}

// Word 1 begins with the preamble.
pub fn has_preamble(first: u32) -> bool
    ensures { result ≡ preambled (bits 24 first) }
{
    first / 65536 % 256 == PREAMBLE
}

// Whether a header is within its widths.
pub fn header_widths(header: Header) -> Result<(), Refusal>
    ensures { result ≡ header_widths header }
{
    if header_outside(header) {
        return Err(Refusal::Width);
    }
    Ok(())
}

// The data of words 1 and 2; 5 for a header outside its widths or N over 31.
pub fn header_words(header: Header, n: usize) -> Result<(u32, u32), Refusal>
    ensures { result ≡ header_words header n }
{
    if header_outside(header) || n > 31 {
        return Err(Refusal::Width);
    }
    let first = PREAMBLE * 65536 + header.kind as u32 % 64 * 1024 + header.station as u32;
    let second = header.z as u32 * 2048
        + header.sequence as u32 * 256
        + n as u32 * 8
        + code_of(header.state) as u32;
    Ok((first, second))
}

// Whether a frame is within its widths.
pub fn frame_widths(frame: Frame) -> Result<(), Refusal>
    ensures { result ≡ frame_widths frame }
{
    if frame_outside(frame) {
        return Err(Refusal::Width);
    }
    Ok(())
}

// Whether a Z count is within the hour.
pub fn clock_of(z: u16) -> Result<(), Refusal>
    ensures { result ≡ clock_of z }
{
    if z >= 6000 {
        return Err(Refusal::ZCount);
    }
    Ok(())
}

// What a type number says about the data words.
#[tactic(auto, unfolding(crate::specs::Layout::layout_of))]
pub fn layout_of(kind: u8) -> Layout
    ensures { result ≡ layout_of kind }
{
    match kind {
        1 | 9 | 31 => Layout::Correction,
        34 => Layout::CorrectionOrNull,
        3 | 32 => Layout::Position,
        5 | 33 => Layout::Health,
        6 => Layout::Null,
        16 | 36 => Layout::Text,
        18 | 19 => Layout::Observation,
        41 | 42 => Layout::General,
        _ => Layout::Plain,
    }
}

// A number for each layout, so that two can be compared.
// kept: `PartCalls` of the promises has its contract as the field `layout-number`; in code `==` compares layouts
pub fn layout_number(layout: Layout) -> u8
    ensures { result ≡ layout_number layout }
{
    layout as u8
}

// The system whose satellites a type number's records speak of: GLONASS from 31 to 36, else GPS.
#[tactic(auto, unfolding(crate::specs::Layout::system_of))]
pub fn system_of(kind: u8) -> System
    ensures { result ≡ system_of kind }
{
    match kind {
        31..=36 => System::Glonass,
        _ => System::Gps,
    }
}

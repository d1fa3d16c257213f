// General corrections, types 41 and 42: a head of 13 bits, then 32 bits a satellite, or 44 with its ionosphere delay, up to 22 or 16
// satellites. Type 42 with one data word is a null frame.
#![tactic(auto)]

mod rows;
mod stages;

ghost use Rattle.std.specs.Prelude.{◌≡◌, ◌+◌, ◌≤◌};
ghost use Rattle.bits.specs.Fields.{fields_at};
ghost use Rattle.bits.specs.Rows.{data_bits};
ghost use Rattle.record_stages.specs.Stages.{refused_made};
ghost use Rattle.record_generals.specs.Generals.{widths, meant, entry_read, most_generals};
ghost use Rattle.record_generals.specs.Generals.{count_generals, read_head, general_at, make_generals};
ghost use Rattle.record_generals.specs.GeneralNulls.{read_general_null, make_general_null};

use crate::rows::{rows_of, system_rows};
use crate::stages::{delay_width, head_from, known_of, staged_of};
use frame::{Frame, Header, Layout};
use record_stages::{Asked, Count, Made, Making, Place, Size};

// The head: system, signal, ephemeris type, period of use, and whether every satellite has its ionosphere delay.
#[derive(Clone, Copy)]
pub struct GeneralHead {
    pub system: u8,
    pub signal: u8,
    pub ephemeris: u8,
    pub period: u8,
    pub ionosphere: u8,
}

// One satellite's part; without ionosphere its delay is 0.
#[derive(Clone, Copy)]
pub struct General {
    pub satellite: u8,
    pub udre: u8,
    pub iod: u8,
    pub prc: i16,
    pub delay: u16,
}

// The head of a frame, or the refusal's number.
#[derive(Clone, Copy)]
pub enum HeadRead {
    Head(GeneralHead),
    Refused(u8),
}

// A satellite's part, or the refusal's number.
#[derive(Clone, Copy)]
pub enum GeneralRead {
    Entry(General),
    Refused(u8),
}

// A null frame's N and system, or the refusal's number.
#[derive(Clone, Copy)]
pub enum GeneralNullRead {
    Null(usize, u8),
    Refused(u8),
}

// The width of the delay in a list of a known system, or the refusal's number.
#[derive(Clone, Copy)]
enum Staged {
    List(u32),
    Refused(u8),
}

// The fill of a word, 1 and 0 in turn: its first bits stand wherever a word is broken off.
const FILL: u32 = 0xAAAAAA;

// How many satellites a frame has: 5, 6, 7, 8, 23, 8.
pub fn count_generals(frame: Frame) -> Count
    ensures { result ≡ count_generals frame }
{
    let staged = staged_of(frame);
    match staged {
        Staged::List(delay) => {
            record_stages::count_in(Layout::General, 13, 32 + delay as usize, frame)
        }
        Staged::Refused(n) => Count::Refused(n),
    }
}

// The head of a frame: 5, 6, 7, 8, 23, 8.
pub fn read_head(frame: Frame) -> HeadRead
    ensures { result ≡ read_head frame }
{
    let words = frame.words;
    let counted = count_generals(frame);
    match counted {
        Count::Of(_) => HeadRead::Head(head_from(words)),
        Count::Refused(n) => HeadRead::Refused(n),
    }
}

// The satellite whose bits start at bit `at` of the data.
fn entry_from(words: [u32; 31], delay: u32, at: u32) -> General
    requires { (delay ≤ 12) × (at + (32 + delay) ≤ 744) }
    ensures { result ≡ meant (fields_at (widths delay) at (data_bits words)) }
{
    let widths = [6, 4, 8, 14, delay];
    let row = record_fields::fields(words, at, &widths);
    General {
        satellite: row[0] as u8,
        udre: row[1] as u8,
        iod: row[2] as u8,
        prc: record_fields::signed14(row[3]),
        delay: row[4] as u16,
    }
}

// Satellite number `index` of a list whose delays have `delay` bits: 5, 6, 7, 8, 9, 10.
fn entry_in(frame: Frame, delay: u32, index: usize) -> GeneralRead
    requires { delay ≤ 12 }
    ensures { result ≡ entry_read delay frame index }
{
    let words = frame.words;
    let place = record_stages::entry_place(Layout::General, 13, 32 + delay as usize, frame, index);
    match place {
        Place::At(at) => {
            let general = entry_from(words, delay, at);
            if general.satellite == 0 {
                return GeneralRead::Refused(10);
            }
            GeneralRead::Entry(general)
        }
        Place::Refused(n) => GeneralRead::Refused(n),
    }
}

// Satellite number `index`: 5, 6, 7, 8, 23, 8, 9, 10.
pub fn general_at(frame: Frame, index: usize) -> GeneralRead
    ensures { result ≡ general_at frame index }
{
    let staged = staged_of(frame);
    match staged {
        Staged::List(delay) => entry_in(frame, delay, index),
        Staged::Refused(n) => GeneralRead::Refused(n),
    }
}

// A refusal to make, with the blank frame.
#[tactic(auto, unfolding(record_stages::specs::Stages::refused_made))]
fn refused(number: u8) -> Made
    ensures { result ≡ refused_made number }
{
    Made {
        answer: Making::Refused(number),
        frame: frame::no_frame(),
    }
}

// The most satellites of a frame: as many as 31 words hold behind the head.
fn most_of(delay: u32) -> usize
    requires { delay ≤ 12 }
    ensures { result ≡ most_generals delay }
{
    (744 - 13) / (32 + delay as usize)
}

// A frame of a head and its satellites: 5, 6, 7, 23, 12, 10.
pub fn make_generals(
    header: Header,
    head: GeneralHead,
    entries: [General; 22],
    count: usize,
) -> Made
    ensures { result ≡ make_generals header head entries count }
{
    let Ok(()) = frame::header_widths(header) else {
        return refused(5);
    };
    let Asked::Same = record_stages::asked_of(Layout::General, header.kind) else {
        return refused(6);
    };
    let Ok(()) = frame::clock_of(header.z) else {
        return refused(7);
    };
    let Ok(()) = known_of(head.system) else {
        return refused(23);
    };
    let delay = delay_width(head.ionosphere);
    let rows = rows_of(delay, head, entries, count);
    record_stages::make_frame(Layout::General, most_of(delay), FILL, header, count, rows)
}

// Whether a frame is the null frame of type 42, its N and its system: 5, 6, 7, 8, 23. The rest of its word may have any bits.
pub fn read_general_null(frame: Frame) -> GeneralNullRead
    ensures { result ≡ read_general_null frame }
{
    let Ok(()) = frame::frame_widths(frame) else {
        return GeneralNullRead::Refused(5);
    };
    let header = frame.header;
    if header.kind != 42 {
        return GeneralNullRead::Refused(6);
    }
    let Ok(()) = frame::clock_of(header.z) else {
        return GeneralNullRead::Refused(7);
    };
    let Size::Right = record_stages::size_of(1, frame.n) else {
        return GeneralNullRead::Refused(8);
    };
    let words = frame.words;
    let system = record_fields::field(words, 0, 4) as u8;
    let Ok(()) = known_of(system) else {
        return GeneralNullRead::Refused(23);
    };
    GeneralNullRead::Null(frame.n, system)
}

// The null frame of type 42 for a system, of one data word: 5, 6, 7, 23, 12.
pub fn make_general_null(header: Header, n: usize, system: u8) -> Made
    ensures { result ≡ make_general_null header n system }
{
    let Ok(()) = frame::header_widths(header) else {
        return refused(5);
    };
    if header.kind != 42 {
        return refused(6);
    }
    let Ok(()) = frame::clock_of(header.z) else {
        return refused(7);
    };
    let Ok(()) = known_of(system) else {
        return refused(23);
    };
    let Size::Right = record_stages::size_of(1, n) else {
        return refused(12);
    };
    record_stages::make_frame(Layout::General, 1, FILL, header, 1, system_rows(system))
}

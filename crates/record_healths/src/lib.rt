// Satellite health, one word a satellite, 1 to 31 satellites: type 5 of GPS, 33 of GLONASS. Three bits alone say something else.
#![tactic(auto)]

ghost use Rattle.std.specs.Prelude.{◌≡◌, map, ◌+◌, ◌≤◌, take};
ghost use Rattle.bits.specs.Fields.{fields_at};
ghost use Rattle.bits.specs.Rows.{data_bits};
ghost use Rattle.record_fields.specs.Tables.{no_rows, put_rows};
ghost use Rattle.record_healths.specs.Conditions.{condition_of, data_number, condition_number};
ghost use Rattle.record_healths.specs.Healths.{widths, least, most, meant, numbers, count_healths, health_at, make_healths};

use frame::{Frame, Header, Layout, System};
use record_fields::Rows;
use record_stages::{Count, Made, Place};

// What the three health bits say: a code of GPS, or the data health of GLONASS and two reserved bits.
#[derive(Clone, Copy)]
pub enum Condition {
    Code(u8),
    Data(u8, u8),
}

// One satellite's health: the codes as sent, reserved bits too.
#[derive(Clone, Copy)]
pub struct SatelliteHealth {
    pub reserved: u8,
    pub satellite: u8,
    pub link: u8,
    pub health: Condition,
    pub cn0: u8,
    pub enable: u8,
    pub new_data: u8,
    pub loss: u8,
    pub time: u8,
    pub spare: u8,
}

// One satellite's health, or the refusal's number.
#[derive(Clone, Copy)]
pub enum HealthRead {
    Entry(SatelliteHealth),
    Refused(u8),
}

// THE LAYOUT: the widths of the ten fields; the least and the most of each; entries end with a word, and nothing is filled.
pub const WIDTHS: [u32; 10] = [1, 5, 1, 3, 5, 1, 1, 1, 4, 2];

pub const LEAST: [u32; 10] = [0, 1, 0, 0, 0, 0, 0, 0, 0, 0];

pub const MOST: [u32; 10] = [1, 32, 1, 7, 31, 1, 1, 1, 15, 3];

pub const FILL: u32 = 0;

// How many satellites a frame has: 5, 6, 7, 8.
#[tactic(auto, unfolding(crate::specs::Healths::count_healths))]
pub fn count_healths(frame: Frame) -> Count
    ensures { result ≡ count_healths frame }
{
    record_stages::count_in(Layout::Health, 0, 24, frame)
}

// What three bits say; bits past them are kept, and can't be sent.
#[tactic(auto, unfolding(crate::specs::Conditions::condition_of))]
pub fn condition_of(system: System, three: u8) -> Condition
    ensures { result ≡ condition_of system three }
{
    match system {
        System::Gps => Condition::Code(three),
        System::Glonass => Condition::Data(three / 4, three % 4),
    }
}

// The number of a data health and two reserved bits; 8 or more where they take more than three bits.
#[tactic(auto, unfolding(crate::specs::Conditions::data_number))]
fn data_number(health: u8, reserved: u8) -> u32
    ensures { result ≡ data_number health reserved }
{
    if reserved > 3 {
        return 8;
    }
    health as u32 * 4 + reserved as u32
}

// The number of the three bits; 8, which can't be sent, where the condition is the other system's.
#[tactic(auto, unfolding(crate::specs::Conditions::condition_number))]
fn condition_number(system: System, condition: Condition) -> u32
    ensures { result ≡ condition_number system condition }
{
    match system {
        System::Gps => match condition {
            Condition::Code(code) => code as u32,
            Condition::Data(_, _) => 8,
        },
        System::Glonass => match condition {
            Condition::Code(_) => 8,
            Condition::Data(health, reserved) => data_number(health, reserved),
        },
    }
}

// The entry whose bits start at bit `at` of the data.
fn entry_from(system: System, words: [u32; 31], at: u32) -> SatelliteHealth
    requires { at + 24 ≤ 744 }
    ensures { result ≡ meant system (fields_at widths at (data_bits words)) }
{
    let row = record_fields::fields(words, at, &WIDTHS);
    let health = condition_of(system, row[3] as u8);
    SatelliteHealth {
        reserved: row[0] as u8,
        satellite: record_fields::satellite_of(row[1]),
        link: row[2] as u8,
        health,
        cn0: row[4] as u8,
        enable: row[5] as u8,
        new_data: row[6] as u8,
        loss: row[7] as u8,
        time: row[8] as u8,
        spare: row[9] as u8,
    }
}

// Satellite number `index`: 5, 6, 7, 8, 9.
pub fn health_at(frame: Frame, index: usize) -> HealthRead
    ensures { result ≡ health_at frame index }
{
    let words = frame.words;
    let header = frame.header;
    let system = frame::system_of(header.kind);
    let place = record_stages::entry_place(Layout::Health, 0, 24, frame, index);
    match place {
        Place::At(at) => HealthRead::Entry(entry_from(system, words, at)),
        Place::Refused(n) => HealthRead::Refused(n),
    }
}

// An entry's numbers, in the order of the fields.
fn numbers_of(system: System, e: SatelliteHealth) -> [u32; 12]
    ensures { result ≡ numbers system e }
{
    let health = e.health;
    let three = condition_number(system, health);
    [
        e.reserved as u32,
        e.satellite as u32,
        e.link as u32,
        three,
        e.cn0 as u32,
        e.enable as u32,
        e.new_data as u32,
        e.loss as u32,
        e.time as u32,
        e.spare as u32,
        0,
        0,
    ]
}

// The rows of the entries below the count.
fn rows_of(system: System, entries: [SatelliteHealth; 31], count: usize) -> Rows
    ensures { result ≡ put_rows widths least most (map (numbers system) (take count entries)) no_rows }
{
    entries
        .iter()
        .take(count)
        .fold(record_fields::no_rows(), |rows, e| {
            record_fields::put_row(rows, numbers_of(system, *e), &WIDTHS, &LEAST, &MOST)
        })
}

// A frame of healths: 5, 6, 7, 12, 10.
pub fn make_healths(header: Header, entries: [SatelliteHealth; 31], count: usize) -> Made
    ensures { result ≡ make_healths header entries count }
{
    let system = frame::system_of(header.kind);
    let rows = rows_of(system, entries, count);
    record_stages::make_frame(Layout::Health, 31, FILL, header, count, rows)
}

// Corrections, 40 bits a satellite, 1 to 18 satellites: types 1 and 9 of GPS, 31 and 34 of GLONASS. The last eight bits alone differ.
#![tactic(auto)]

ghost use Rattle.std.specs.Prelude.{◌≡◌, [], ◌∷◌, map, ◌+◌, ◌≤◌, take};
ghost use Rattle.bits.specs.Fields.{fields_at};
ghost use Rattle.bits.specs.Rows.{data_bits};
ghost use Rattle.record_fields.specs.Tables.{no_rows, put_row, put_rows};
ghost use Rattle.record_stages.specs.Stages.{ranged_of};
ghost use Rattle.record_corrections.specs.Issues.{issue_in, issue_first, issue_others};
ghost use Rattle.record_corrections.specs.Corrections.{widths, least, most, meant, numbers, out_of_range};
ghost use Rattle.record_corrections.specs.Corrections.{count_corrections, correction_at, make_corrections};

use frame::{Frame, Header, Layout, System};
use record_fields::Rows;
use record_stages::{Count, Made, Place, Ranged};

// What the last eight bits say: the issue of GPS data, or the change bit and the time tb of GLONASS data.
#[derive(Clone, Copy)]
pub enum Issue {
    Iod(u8),
    Age(u8, u8),
}

// One satellite's correction: PRC and RRC as sent, the stop numbers too.
#[derive(Clone, Copy)]
pub struct Correction {
    pub scale: u8,
    pub udre: u8,
    pub satellite: u8,
    pub prc: i16,
    pub rrc: i8,
    pub issue: Issue,
}

// A correction, or the refusal's number.
#[derive(Clone, Copy)]
pub enum CorrectionRead {
    Entry(Correction),
    Refused(u8),
}

// THE LAYOUT of both systems: the widths of the fields, the last eight bits as one and seven; the least and the most of each number, of
// which the last is the system's; the fill, 10101010 once per 8 bits.
const WIDTHS: [u32; 7] = [1, 2, 5, 16, 8, 1, 7];

const LEAST: [u32; 3] = [0, 0, 1];

const GPS_MOST: [u32; 7] = [1, 3, 32, 65535, 255, 1, 127];

const GLONASS_MOST: [u32; 7] = [1, 3, 32, 65535, 255, 1, 119];

const FILL: u32 = 0xAAAAAA;

// How many corrections a frame has: 5, 6, 7, 8.
#[tactic(auto, unfolding(crate::specs::Corrections::count_corrections))]
pub fn count_corrections(frame: Frame) -> Count
    ensures { result ≡ count_corrections frame }
{
    record_stages::count_in(Layout::Correction, 0, 40, frame)
}

// The most of each number.
#[tactic(auto, unfolding(crate::specs::Issues::last_most))]
fn most_of(system: System) -> [u32; 7]
    ensures { result ≡ most system }
{
    match system {
        System::Gps => GPS_MOST,
        System::Glonass => GLONASS_MOST,
    }
}

// What the last eight bits of a correction say.
#[tactic(auto, unfolding(crate::specs::Issues::issue_of))]
pub fn issue_of(system: System, last: u8) -> Issue
    ensures { result ≡ issue_in system last }
{
    match system {
        System::Gps => Issue::Iod(last),
        System::Glonass => Issue::Age(last / 128, last % 128),
    }
}

// The last two numbers of a row; where the issue is the other system's, one that can't be sent.
#[tactic(auto, unfolding(crate::specs::Issues::issue_first, crate::specs::Issues::issue_others))]
fn issue_numbers(system: System, issue: Issue) -> [u32; 2]
    ensures { result ≡ issue_first system issue ∷ issue_others system issue ∷ [] }
{
    match system {
        System::Gps => match issue {
            Issue::Iod(iod) => [iod as u32 / 128, iod as u32 % 128],
            Issue::Age(_, _) => [2, 0],
        },
        System::Glonass => match issue {
            Issue::Iod(_) => [2, 0],
            Issue::Age(change, tb) => [change as u32, tb as u32],
        },
    }
}

// The entry whose bits start at bit `at` of the data.
fn entry_from(system: System, words: [u32; 31], at: u32) -> Correction
    requires { at + 40 ≤ 744 }
    ensures { result ≡ meant system (fields_at widths at (data_bits words)) }
{
    let row = record_fields::fields(words, at, &WIDTHS);
    let issue = issue_of(system, (row[5] * 128 + row[6]) as u8);
    Correction {
        scale: row[0] as u8,
        udre: row[1] as u8,
        satellite: record_fields::satellite_of(row[2]),
        prc: record_fields::signed16(row[3]),
        rrc: record_fields::signed8(row[4]),
        issue,
    }
}

// An entry's numbers, in the order of the fields.
fn numbers_of(system: System, e: Correction) -> [u32; 12]
    ensures { result ≡ numbers system e }
{
    let prc = record_fields::code16(e.prc);
    let rrc = record_fields::code8(e.rrc);
    let issue = e.issue;
    let last = issue_numbers(system, issue);
    [
        e.scale as u32,
        e.udre as u32,
        e.satellite as u32,
        prc,
        rrc,
        last[0],
        last[1],
        0,
        0,
        0,
        0,
        0,
    ]
}

// Whether every number of an entry is in its range.
fn range_of(system: System, e: Correction) -> Ranged
    ensures { result ≡ ranged_of (out_of_range system e) }
{
    let most = most_of(system);
    let values = numbers_of(system, e);
    if record_fields::table::row_out(values, &LEAST, &most) {
        return Ranged::Outside;
    }
    Ranged::Inside
}

// Correction number `index`: 5, 6, 7, 8, 9, 10.
pub fn correction_at(frame: Frame, index: usize) -> CorrectionRead
    ensures { result ≡ correction_at frame index }
{
    let words = frame.words;
    let header = frame.header;
    let system = frame::system_of(header.kind);
    let place = record_stages::entry_place(Layout::Correction, 0, 40, frame, index);
    match place {
        Place::At(at) => {
            let entry = entry_from(system, words, at);
            let Ranged::Inside = range_of(system, entry) else {
                return CorrectionRead::Refused(10);
            };
            CorrectionRead::Entry(entry)
        }
        Place::Refused(n) => CorrectionRead::Refused(n),
    }
}

// One entry's row more.
fn put_entry(rows: Rows, system: System, e: Correction) -> Rows
    ensures { result ≡ put_row widths least (most system) (numbers system e) rows }
{
    let most = most_of(system);
    let values = numbers_of(system, e);
    record_fields::put_row(rows, values, &WIDTHS, &LEAST, &most)
}

// The rows of the entries below the count.
fn rows_of(system: System, entries: [Correction; 18], count: usize) -> Rows
    ensures { result ≡ put_rows widths least (most system) (map (numbers system) (take count entries)) no_rows }
{
    entries.iter().take(count).fold(
        record_fields::no_rows(),
        |rows, e| put_entry(rows, system, *e),
    )
}

// A frame of corrections, each with its system's issue: 5, 6, 7, 12, 10.
pub fn make_corrections(header: Header, entries: [Correction; 18], count: usize) -> Made
    ensures { result ≡ make_corrections header entries count }
{
    let system = frame::system_of(header.kind);
    let rows = rows_of(system, entries, count);
    record_stages::make_frame(Layout::Correction, 18, FILL, header, count, rows)
}

// Satellites' health of types 5 and 33: counted, read and made.
ghost use Rattle.std.specs.Prelude.{◌≡◌, length};
ghost use Rattle.frame.specs.Layout.{system_of};
ghost use Rattle.frame.specs.declared.System.TheVariants.{Gps};
ghost use Rattle.record_healths.specs.Healths.{make_healths};
ghost use Rattle.rtcm2_rows.specs.Rows.{row_size, count_of, entries_from};
ghost use Rattle.rtcm2.specs.Answer.{number_of, left};
ghost use Rattle.rtcm2.specs.Header.{headed};
ghost use Rattle.rtcm2.specs.Frames.{frame_said, kept_to, held_to, size_to};
ghost use Rattle.rtcm2.specs.Rows.{row_to, row_held};
ghost use Rattle.rtcm2.specs.Lists.{count_said, entry_said, made_said};
ghost use Rattle.rtcm2.specs.Healths.{health_bits, numbers, row, health_list};

use crate::header::Headed;
use frame::{Header, Layout};
use journal::Found;
use record_healths::{Condition, HealthRead, SatelliteHealth};
use record_stages::Made;

// THE ROW: how many bytes it has, and each of its numbers.
const SIZE: usize = 10;

const SIZES: [u8; 12] = [1, 1, 1, 1, 1, 1, 1, 1, 1, 1, 0, 0];

// How many satellites a frame has. Order 14, 15, 16, 15, 16, then 6, 7, 8.
pub fn rtcm2_count_healths(frame: &[u8], count: &mut usize) -> u8
    ensures value { result ≡ number_of (count_said health_list (frame_said frame.now)) }
    ensures count_after { count.new ≡ left (count_said health_list (frame_said frame.now)) (λ k. k) count.old }
{
    crate::rows::count_at(Layout::Health, 0, 24, frame, count)
}

// The health bits, as they are sent.
fn bits_of(condition: Condition) -> u32
    ensures { result ≡ health_bits condition }
{
    match condition {
        Condition::Code(code) => code as u32,
        Condition::Data(health, reserved) => health as u32 * 4 + reserved as u32,
    }
}

// The numbers of a row.
fn row_of(e: SatelliteHealth) -> [u32; 12]
    ensures { result ≡ numbers e }
{
    let health = e.health;
    let bits = bits_of(health);
    [
        e.reserved as u32,
        e.satellite as u32,
        e.link as u32,
        bits,
        e.cn0 as u32,
        e.enable as u32,
        e.new_data as u32,
        e.loss as u32,
        e.time as u32,
        e.spare as u32,
        0,
        0,
    ]
}

// Entry number `index` of a frame. Order 14, 15, 16, 15, 16, then 6, 7, 8, 9, 13.
pub fn rtcm2_health_at(frame: &[u8], index: usize, bytes: &mut [u8]) -> u8
    ensures value { result ≡ number_of (row_to (row Gps) (entry_said health_list (frame_said frame.now) index) bytes.old) }
    ensures bytes_after { bytes.new ≡ row_held (row Gps) (entry_said health_list (frame_said frame.now) index) bytes.old }
{
    let recalled = journal::recall(frame);
    let answer = recalled.answer;
    if let Found::Refused(number) = answer {
        return number;
    }
    match record_healths::health_at(recalled.frame, index) {
        HealthRead::Entry(entry) => {
            let numbers = row_of(entry);
            crate::rows::number_of(rtcm2_rows::table::put_numbers(numbers, SIZES, bytes))
        }
        HealthRead::Refused(number) => number,
    }
}

// The frame of a header and the satellites' health in these bytes, which are of its type's system.
fn made_of(header: Header, healths: &[u8]) -> Made
    ensures { result ≡ make_healths header (entries_from (row (system_of header.kind)) 31 healths.now)
        (count_of (row_size (row Gps)) (length healths.now)) }
{
    let count = rtcm2_rows::row::count_of(SIZE, healths.len());
    let rows = rtcm2_rows::table::rows_in(
        31,
        SIZES,
        &record_healths::WIDTHS,
        &record_healths::LEAST,
        &record_healths::MOST,
        healths,
    );
    record_stages::make_frame(
        Layout::Health,
        31,
        record_healths::FILL,
        header,
        count,
        rows,
    )
}

// Makes a frame of satellites' health. Order 5, 6, 7, 12, 10, 13.
pub fn rtcm2_make_healths(
    kind: u8,
    station: u16,
    z: u16,
    sequence: u8,
    health: u8,
    healths: &[u8],
    frame: &mut [u8],
    length: &mut usize,
) -> u8
    ensures value { result ≡ number_of (kept_to (made_said health_list (headed kind station z sequence health) healths.now) frame.old) }
    ensures frame_after { frame.new ≡ held_to (made_said health_list (headed kind station z sequence health) healths.now) frame.old }
    ensures length_after { length.new
        ≡ size_to (made_said health_list (headed kind station z sequence health) healths.now) frame.old length.old }
{
    match crate::header::header_of(kind, station, z, sequence, health) {
        Headed::Header(header) => crate::frames::keep_made(made_of(header, healths), frame, length),
        Headed::Refused(number) => number,
    }
}

// Corrections of the general types 41 and 42 as bytes, seven each.
ghost use Rattle.std.specs.Prelude.{◌≡◌, ◌+◌, ◌≤◌, drop};
ghost use Rattle.rtcm2_rows.specs.Rows.{entry_of, entries_from, put_by, row_after};
ghost use Rattle.rtcm2_rows.specs.Generals.{row};

use crate::row::{Put, put_row, row_at};
use record_generals::General;
use std::array;

// The bytes of one general correction.
pub const SIZE: usize = 7;

// The general correction whose bytes start at `at`; a byte past the last counts as 0.
fn entry_from(bytes: &[u8], at: usize) -> General
    requires { at + 7 ≤ 744 }
    ensures { result ≡ entry_of row (drop at bytes.now) }
{
    let [satellite, udre, iod, low, high, low_delay, high_delay] = row_at::<SIZE>(bytes, at);
    General {
        satellite,
        udre,
        iod,
        prc: record_fields::signed16(u16::from_le_bytes([low, high]) as u32),
        delay: u16::from_le_bytes([low_delay, high_delay]),
    }
}

// The first 22 rows; rows past the last byte are zeros.
pub fn generals_in(bytes: &[u8]) -> [General; 22]
    ensures { result ≡ entries_from row 22 bytes.now }
{
    array::from_fn(|i| entry_from(bytes, i * SIZE))
}

// A general correction as a row at the start of the bytes; 13 where they are too few.
pub fn put_general(entry: General, bytes: &mut [u8]) -> Put
    ensures value { result ≡ put_by row bytes.old }
    ensures bytes_after { bytes.new ≡ row_after row entry bytes.old }
{
    let [low, high, ..] = record_fields::code16(entry.prc).to_le_bytes();
    let [low_delay, high_delay] = entry.delay.to_le_bytes();
    put_row::<SIZE>(
        [
            entry.satellite,
            entry.udre,
            entry.iod,
            low,
            high,
            low_delay,
            high_delay,
        ],
        bytes,
    )
}

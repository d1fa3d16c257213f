// Corrections of either system as bytes, seven each.
ghost use Rattle.std.specs.Prelude.{◌≡◌, ◌+◌, ◌≤◌, drop};
ghost use Rattle.frame.specs.declared.System.TheVariants.{Gps};
ghost use Rattle.rtcm2_rows.specs.Rows.{entry_of, entries_from, put_by, row_after};
ghost use Rattle.rtcm2_rows.specs.Corrections.{last_byte, row};

use crate::row::{Put, put_row, row_at};
use frame::System;
use record_corrections::{Correction, Issue};
use std::array;

// The bytes of one correction.
pub const SIZE: usize = 7;

// The last eight bits of a correction, as they are sent.
#[tactic(auto, unfolding(crate::specs::Corrections::last_byte))]
fn last_of(issue: Issue) -> u8
    ensures { result ≡ last_byte issue }
{
    match issue {
        Issue::Iod(iod) => iod,
        Issue::Age(change, tb) => ((change as u32 * 128 + tb as u32) % 256) as u8,
    }
}

// The correction whose bytes start at `at`; a byte past the last counts as 0.
fn entry_from(system: System, bytes: &[u8], at: usize) -> Correction
    requires { at + 7 ≤ 744 }
    ensures { result ≡ entry_of (row system) (drop at bytes.now) }
{
    let [scale, udre, satellite, low, high, last, eight] = row_at::<SIZE>(bytes, at);
    Correction {
        scale,
        udre,
        satellite,
        prc: record_fields::signed16(u16::from_le_bytes([low, high]) as u32),
        rrc: record_fields::signed8(last as u32),
        issue: record_corrections::issue_of(system, eight),
    }
}

// The first 18 rows; rows past the last byte are zeros.
pub fn corrections_in(system: System, bytes: &[u8]) -> [Correction; 18]
    ensures { result ≡ entries_from (row system) 18 bytes.now }
{
    array::from_fn(|i| entry_from(system, bytes, i * SIZE))
}

// A correction as a row at the start of the bytes; 13 where they are too few. What is put is the same in both systems.
pub fn put_correction(entry: Correction, bytes: &mut [u8]) -> Put
    ensures value { result ≡ put_by (row Gps) bytes.old }
    ensures bytes_after { bytes.new ≡ row_after (row Gps) entry bytes.old }
{
    let [low, high, ..] = record_fields::code16(entry.prc).to_le_bytes();
    let [rrc, ..] = record_fields::code8(entry.rrc).to_le_bytes();
    let last = last_of(entry.issue);
    put_row::<SIZE>(
        [
            entry.scale,
            entry.udre,
            entry.satellite,
            low,
            high,
            rrc,
            last,
        ],
        bytes,
    )
}

// The small-beacon profile: frames checked, and corrections cut into its frames.
ghost use Rattle.std.specs.Prelude.{◌≡◌, ◌++◌, ◌≤◌};
ghost use Rattle.std.proofs.Math.ListN as list;
ghost use Rattle.answer.specs.Order.{answers};
ghost use Rattle.frame.specs.declared.System.TheVariants.{Gps};
ghost use Rattle.record_fields.specs.Coding.{Each};
ghost use Rattle.profile.specs.Cutting.{cut_corrections, says_cut};
ghost use Rattle.rtcm2_rows.specs.Rows.{row_size, count_of, entries_from};
ghost use Rattle.rtcm2_rows.specs.Corrections.{row};
ghost use Rattle.rtcm2.specs.Answer.{number_of};
ghost use Rattle.rtcm2.specs.Header.{headed};
ghost use Rattle.rtcm2.specs.Frames.{frame_said};
ghost use Rattle.rtcm2.specs.Beacon.{profile_said, cut_said, records_of, kept_all, held_all, size_all, Storable, CutStorable};

use crate::header::{Headed, header_of};
use frame::{Frame, Header, System};
use journal::Found;
use profile::{Cut, Cutting, Profile};

// Whether the frame of a record is in the profile. Order 14, 15, 16, 15, 16, then 7, 20, 8, 10 or 11, 21, 22.
pub fn rtcm2_check_profile(frame: &[u8]) -> u8
    ensures { result ≡ number_of (profile_said (frame_said frame.now)) }
{
    let recalled = journal::recall(frame);
    let answer = recalled.answer;
    match answer {
        Found::Record(_) => match profile::check_profile(recalled.frame) {
            Profile::Inside => 0,
            Profile::Refused(number) => number,
        },
        Found::Refused(number) => number,
    }
}

// How many bytes the records of the first frames take.
fn records_size(cut: [Frame; 6], number: usize) -> usize
    requires { (number ≤ 6) × Each Storable (list.take number cut) }
    ensures { result ≡ list.length (records_of (list.take number cut)) }
{
    let mut size = 0;
    for i in 0..number {
        let f = cut[i];
        size += 3 * f.n + 9;
    }
    size
}

// Writes the records of the first frames, one after the other.
fn put_records(cut: [Frame; 6], number: usize, frames: &mut [u8])
    requires { (number ≤ 6) × Each Storable (list.take number cut) × (list.length (records_of (list.take number cut)) ≤ list.length frames.old) }
    ensures { frames.new
        ≡ records_of (list.take number cut) ++ list.drop (list.length (records_of (list.take number cut))) frames.old }
{
    let mut at = 0;
    for i in 0..number {
        let f = cut[i];
        journal::keep(f, &mut frames[at..]);
        at = at + 3 * f.n + 9;
    }
}

// Keeps the first frames as records, one after the other: 13.
fn keep_all(cut: [Frame; 6], number: usize, frames: &mut [u8], length: &mut usize) -> u8
    requires { (number ≤ 6) × Each Storable (list.take number cut) }
    ensures value { result ≡ number_of (kept_all (answers (list.take number cut)) frames.old) }
    ensures frames_after { frames.new ≡ held_all (answers (list.take number cut)) frames.old }
    ensures length_after { length.new ≡ size_all (answers (list.take number cut)) frames.old length.old }
{
    let size = records_size(cut, number);
    if frames.len() < size {
        return 13;
    }
    put_records(cut, number, frames);
    *length = size;
    0
}

// Keeps what was cut: the refusal that there was, or 13.
fn keep_cut(cut: Cut, frames: &mut [u8], length: &mut usize) -> u8
    requires { CutStorable cut }
    ensures value { result ≡ number_of (kept_all (says_cut cut) frames.old) }
    ensures frames_after { frames.new ≡ held_all (says_cut cut) frames.old }
    ensures length_after { length.new ≡ size_all (says_cut cut) frames.old length.old }
{
    let answer = cut.answer;
    let all = cut.frames;
    match answer {
        Cutting::Frames(number) => keep_all(all, number, frames, length),
        Cutting::Refused(number) => number,
    }
}

// The frames of a header and the corrections in these bytes, which are of GPS.
fn cut_of(header: Header, corrections: &[u8]) -> Cut
    ensures { result ≡ cut_corrections header (entries_from (row Gps) 18 corrections.now)
        (count_of (row_size (row Gps)) (list.length corrections.now)) }
{
    let count = rtcm2_rows::row::count_of(rtcm2_rows::correction::SIZE, corrections.len());
    let entries = rtcm2_rows::correction::corrections_in(System::Gps, corrections);
    profile::cut_corrections(header, entries, count)
}

// Cuts corrections for different satellites into frames of type 9, kept one after the other. Order 5, 6, 7, 12, 10, 22, 13.
pub fn rtcm2_cut_corrections(
    kind: u8,
    station: u16,
    z: u16,
    sequence: u8,
    health: u8,
    corrections: &[u8],
    frames: &mut [u8],
    length: &mut usize,
) -> u8
    ensures value { result ≡ number_of (kept_all (cut_said (headed kind station z sequence health) corrections.now) frames.old) }
    ensures frames_after { frames.new ≡ held_all (cut_said (headed kind station z sequence health) corrections.now) frames.old }
    ensures length_after { length.new
        ≡ size_all (cut_said (headed kind station z sequence health) corrections.now) frames.old length.old }
{
    match header_of(kind, station, z, sequence, health) {
        Headed::Header(header) => keep_cut(cut_of(header, corrections), frames, length),
        Headed::Refused(number) => number,
    }
}

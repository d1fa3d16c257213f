// Frames and their journal records: a frame is kept from its numbers, and its numbers are recalled.
ghost use Rattle.std.specs.Prelude.{◌≡◌, ◌++◌, ◌+◌, ◌*◌, ◌-◌, ◌≤◌};
ghost use Rattle.std.proofs.Math.ListN as list;
ghost use Rattle.answer.specs.Order.{answers};
ghost use Rattle.journal.specs.Bytes.{word_in, words_from};
ghost use Rattle.record_stages.specs.Stages.{says_made};
ghost use Rattle.rtcm2.specs.Answer.{number_of, left};
ghost use Rattle.rtcm2.specs.Frames.{kept_to, held_to, size_to, words_said, keep_said};
ghost use Rattle.rtcm2.specs.Frames.{recall_said, kind_said, station_said, z_count_said, sequence_said, health_said, n_said, length_said};

use crate::header::{Headed, header_of};
use frame::{Frame, Header};
use journal::{Found, Kept};
use record_stages::{Made, Making};

// Keeps a frame at the start of the bytes. Order 5, 13.
fn keep_frame(value: Frame, frame: &mut [u8], length: &mut usize) -> u8
    ensures value { result ≡ number_of (kept_to (answers value) frame.old) }
    ensures frame_after { frame.new ≡ held_to (answers value) frame.old }
    ensures length_after { length.new ≡ size_to (answers value) frame.old length.old }
{
    match journal::keep(value, frame) {
        Kept::Done(size) => {
            *length = size;
            0
        }
        Kept::Refused(number) => number,
    }
}

// Keeps a made frame at the start of the bytes: the maker's refusal, or 13.
pub(crate) fn keep_made(made: Made, frame: &mut [u8], length: &mut usize) -> u8
    ensures value { result ≡ number_of (kept_to (says_made made) frame.old) }
    ensures frame_after { frame.new ≡ held_to (says_made made) frame.old }
    ensures length_after { length.new ≡ size_to (says_made made) frame.old length.old }
{
    let answer = made.answer;
    match answer {
        Making::Done => keep_frame(made.frame, frame, length),
        Making::Refused(number) => number,
    }
}

// The word of the three bytes from `at` on, highest bits first.
fn word_at(at: usize, bytes: &[u8]) -> u32
    requires { at + 3 ≤ list.length bytes.now }
    ensures { result ≡ word_in (list.take 3 (list.drop at bytes.now)) }
{
    (bytes[at] as u32 * 256 + bytes[at + 1] as u32) * 256 + bytes[at + 2] as u32
}

// The first n words, three bytes each; zeros past them.
fn words_of(n: usize, bytes: &[u8]) -> [u32; 31]
    requires { (n ≤ 31) × (3 * n ≤ list.length bytes.now) }
    ensures { result ≡ words_from 3 n bytes.now ++ list.replicate (31 - n) 0 }
{
    let mut words = [0u32; 31];
    for i in 0..n {
        words[i] = word_at(3 * i, bytes);
    }
    words
}

// Keeps the frame of a header and its data words. Order 5, also where the bytes are no whole number of words or over 31 words, 13.
fn keep_data(header: Header, bytes: &[u8], frame: &mut [u8], length: &mut usize) -> u8
    ensures value { result ≡ number_of (kept_to (words_said header bytes.now) frame.old) }
    ensures frame_after { frame.new ≡ held_to (words_said header bytes.now) frame.old }
    ensures length_after { length.new ≡ size_to (words_said header bytes.now) frame.old length.old }
{
    if bytes.len() % 3 != 0 {
        return 5;
    }
    let n = bytes.len() / 3;
    if n > 31 {
        return 5;
    }
    let words = words_of(n, bytes);
    keep_frame(frame::built(header, n, words), frame, length)
}

// Keeps a frame of any type, from its five numbers and the bytes of its data words. Order 5, 13.
pub fn rtcm2_keep(
    kind: u8,
    station: u16,
    z: u16,
    sequence: u8,
    health: u8,
    bytes: &[u8],
    frame: &mut [u8],
    length: &mut usize,
) -> u8
    ensures value { result ≡ number_of (kept_to (keep_said kind station z sequence health bytes.now) frame.old) }
    ensures frame_after { frame.new ≡ held_to (keep_said kind station z sequence health bytes.now) frame.old }
    ensures length_after { length.new ≡ size_to (keep_said kind station z sequence health bytes.now) frame.old length.old }
{
    match header_of(kind, station, z, sequence, health) {
        Headed::Header(header) => keep_data(header, bytes, frame, length),
        Headed::Refused(number) => number,
    }
}

// Recalls the record at the start of the bytes: its header's five numbers, N and its length. Order 14, 15, 16, 15, 16.
pub fn rtcm2_recall(
    frame: &[u8],
    kind: &mut u8,
    station: &mut u16,
    z: &mut u16,
    sequence: &mut u8,
    health: &mut u8,
    n: &mut u8,
    length: &mut usize,
) -> u8
    ensures value { result ≡ number_of (recall_said frame.now) }
    ensures kind_after { kind.new ≡ left (recall_said frame.now) kind_said kind.old }
    ensures station_after { station.new ≡ left (recall_said frame.now) station_said station.old }
    ensures z_after { z.new ≡ left (recall_said frame.now) z_count_said z.old }
    ensures sequence_after { sequence.new ≡ left (recall_said frame.now) sequence_said sequence.old }
    ensures health_after { health.new ≡ left (recall_said frame.now) health_said health.old }
    ensures n_after { n.new ≡ left (recall_said frame.now) n_said n.old }
    ensures length_after { length.new ≡ left (recall_said frame.now) length_said length.old }
{
    let recalled = journal::recall(frame);
    let answer = recalled.answer;
    let value = recalled.frame;
    let header = value.header;
    let state = header.state;
    match answer {
        Found::Record(size) => match frame::health_of(state) {
            Ok(code) => {
                *kind = header.kind;
                *station = header.station;
                *z = header.z;
                *sequence = header.sequence;
                *health = code;
                *n = value.n as u8;
                *length = size;
                0
            }
            // no state that is recalled lacks a code
            Err(refusal) => refusal.number(),
        },
        Found::Refused(number) => number,
    }
}

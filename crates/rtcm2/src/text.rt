// Text: 1 to 90 characters, 1 to 127 in type 16, 1 to 191 in type 36.
ghost use Rattle.std.specs.Prelude.{◌≡◌};
ghost use Rattle.rtcm2.specs.Answer.{number_of};
ghost use Rattle.rtcm2.specs.Frames.{frame_said, kept_to, held_to, size_to};
ghost use Rattle.rtcm2.specs.Texts.{text_said, text_after, count_after, make_said};

use crate::frames::keep_made;
use crate::header::{Headed, header_of};
use journal::Found;
use record_stages::Count;

// The text of the frame of a record, at the start of the bytes. Order 14, 15, 16, 15, 16, then 6, 7, 8, 11, 13.
pub fn rtcm2_read_text(frame: &[u8], text: &mut [u8], length: &mut usize) -> u8
    ensures value { result ≡ number_of (text_said (frame_said frame.now) text.old) }
    ensures text_after { text.new ≡ text_after (frame_said frame.now) text.old }
    ensures length_after { length.new ≡ count_after (frame_said frame.now) text.old length.old }
{
    let recalled = journal::recall(frame);
    let answer = recalled.answer;
    match answer {
        Found::Record(_) => match record_texts::read_text(recalled.frame, text) {
            Count::Of(count) => {
                *length = count;
                0
            }
            Count::Refused(number) => number,
        },
        Found::Refused(number) => number,
    }
}

// Makes a frame of text. Order 5, 6, 7, 12, 11, 13.
pub fn rtcm2_make_text(
    kind: u8,
    station: u16,
    z: u16,
    sequence: u8,
    health: u8,
    text: &[u8],
    frame: &mut [u8],
    length: &mut usize,
) -> u8
    ensures value { result ≡ number_of (kept_to (make_said kind station z sequence health text.now) frame.old) }
    ensures frame_after { frame.new ≡ held_to (make_said kind station z sequence health text.now) frame.old }
    ensures length_after { length.new ≡ size_to (make_said kind station z sequence health text.now) frame.old length.old }
{
    match header_of(kind, station, z, sequence, health) {
        Headed::Header(header) => keep_made(record_texts::make_text(header, text), frame, length),
        Headed::Refused(number) => number,
    }
}

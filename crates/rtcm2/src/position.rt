// The station's position, types 3 and 32: X, Y and Z in centimetres.
ghost use Rattle.std.specs.Prelude.{◌≡◌};
ghost use Rattle.rtcm2.specs.Answer.{number_of, left};
ghost use Rattle.rtcm2.specs.Frames.{frame_said, kept_to, held_to, size_to};
ghost use Rattle.rtcm2.specs.Positions.{position_said, x_said, y_said, z_said, make_said};

use crate::frames::keep_made;
use crate::header::{Headed, header_of};
use journal::Found;
use record_positions::{Position, PositionRead};

// The position of the frame of a record. Order 14, 15, 16, 15, 16, then 6, 7, 8, 10.
pub fn rtcm2_read_position(frame: &[u8], x_cm: &mut i32, y_cm: &mut i32, z_cm: &mut i32) -> u8
    ensures value { result ≡ number_of (position_said (frame_said frame.now)) }
    ensures x_cm_after { x_cm.new ≡ left (position_said (frame_said frame.now)) x_said x_cm.old }
    ensures y_cm_after { y_cm.new ≡ left (position_said (frame_said frame.now)) y_said y_cm.old }
    ensures z_cm_after { z_cm.new ≡ left (position_said (frame_said frame.now)) z_said z_cm.old }
{
    let recalled = journal::recall(frame);
    let answer = recalled.answer;
    match answer {
        Found::Record(_) => match record_positions::read_position(recalled.frame) {
            PositionRead::At(position) => {
                let x = position.x;
                let y = position.y;
                let z = position.z;
                *x_cm = x;
                *y_cm = y;
                *z_cm = z;
                0
            }
            PositionRead::Refused(number) => number,
        },
        Found::Refused(number) => number,
    }
}

// Makes a frame of a position. Order 5, 6, 7, 10, 13.
pub fn rtcm2_make_position(
    kind: u8,
    station: u16,
    z: u16,
    sequence: u8,
    health: u8,
    x_cm: i32,
    y_cm: i32,
    z_cm: i32,
    frame: &mut [u8],
    length: &mut usize,
) -> u8
    ensures value { result ≡ number_of (kept_to (make_said kind station z sequence health x_cm y_cm z_cm) frame.old) }
    ensures frame_after { frame.new ≡ held_to (make_said kind station z sequence health x_cm y_cm z_cm) frame.old }
    ensures length_after { length.new ≡ size_to (make_said kind station z sequence health x_cm y_cm z_cm) frame.old length.old }
{
    match header_of(kind, station, z, sequence, health) {
        Headed::Header(header) => {
            let position = Position {
                x: x_cm,
                y: y_cm,
                z: z_cm,
            };
            keep_made(
                record_positions::make_position(header, position),
                frame,
                length,
            )
        }
        Headed::Refused(number) => number,
    }
}

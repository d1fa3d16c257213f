// Positions in print.
use crate::{print, print_refusal, print_signed};
use frame::Frame;
use record_positions::PositionRead;

// Writes the three numbers of a frame.
pub fn print_position(frame: Frame) {
    match record_positions::read_position(frame) {
        PositionRead::At(position) => {
            print_signed(b"X ", position.x);
            print_signed(b", Y ", position.y);
            print_signed(b", Z ", position.z);
            print(b" cm\n");
        }
        PositionRead::Refused(number) => print_refusal(number),
    }
}

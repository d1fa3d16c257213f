// Null frames in print.
use crate::{print, print_number, print_refusal};
use frame::Frame;
use record_nulls::NullRead;

// Writes the number of words of a null frame.
pub fn print_null(frame: Frame) {
    match record_nulls::read_null(frame) {
        NullRead::Null(n) => {
            print_number(b"null, N ", n as u64);
            print(b"\n");
        }
        NullRead::Refused(number) => print_refusal(number),
    }
}

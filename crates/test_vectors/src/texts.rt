// Texts in print, by their codes.
use crate::{print, print_number, print_refusal};
use frame::Frame;
use record_stages::Count;

// Writes the codes of the first `count` characters.
fn print_codes(buffer: [u8; 90], count: usize) {
    print(b"codes");
    for (i, code) in buffer.iter().take(count).enumerate() {
        print_code(i, *code);
    }
    print(b"\n");
}

// Writes the code of character number `i`.
fn print_code(i: usize, code: u8) {
    if i == 0 {
        print_number(b" ", code as u64);
        return;
    }
    print_number(b", ", code as u64);
}

// Writes the text of a frame.
pub fn print_text(frame: Frame) {
    let mut buffer = [0u8; 90];
    match record_texts::read_text(frame, &mut buffer) {
        Count::Of(count) => print_codes(buffer, count),
        Count::Refused(number) => print_refusal(number),
    }
}

// The text of type 36, and what letters its codes stand for.
use frame::Frame;
use record_values::Letter;
use test_vectors::texts::print_text;
use test_vectors::{frame_of, header_with, print, print_number, print_refusal, print_vector};

// Makes text into a frame, and reads the frame of the words.
fn show(name: &[u8], text: &[u8], read: Frame) {
    let header = header_with(36);
    let made = record_texts::make_text(header, text);
    print_vector(name, made, read);
    print_text(read);
}

// Writes a code and its number in Unicode.
fn print_letter(code: u8) {
    print_number(b"code ", code as u64);
    print(b" in Unicode: ");
    match record_values::letter_of(code) {
        Letter::Unicode(letter) => {
            print_number(b"", letter as u64);
            print(b"\n");
        }
        Letter::Refused(number) => print_refusal(number),
    }
}

// The ends of the two halves; two zeros close the last word.
fn ends() {
    let text = [1u8, 127, 128, 191];
    let data = [0x017F80u32, 0xBF0000];
    show(b"G36a", &text, frame_of(0x669005, 0x032310, &data));
    print_letter(0);
    print_letter(1);
    print_letter(127);
    print_letter(128);
    print_letter(191);
    print_letter(192);
}

// The codes of all letters.
const ALL: [u8; 64] = [
    128, 129, 130, 131, 132, 133, 134, 135, 136, 137, 138, 139, 140, 141, 142, 143, 144, 145, 146,
    147, 148, 149, 150, 151, 152, 153, 154, 155, 156, 157, 158, 159, 160, 161, 162, 163, 164, 165,
    166, 167, 168, 169, 170, 171, 172, 173, 174, 175, 176, 177, 178, 179, 180, 181, 182, 183, 184,
    185, 186, 187, 188, 189, 190, 191,
];

// The words of all letters.
const ALL_WORDS: [u32; 22] = [
    0x808182, 0x838485, 0x868788, 0x898A8B, 0x8C8D8E, 0x8F9091, 0x929394, 0x959697, 0x98999A,
    0x9B9C9D, 0x9E9FA0, 0xA1A2A3, 0xA4A5A6, 0xA7A8A9, 0xAAABAC, 0xADAEAF, 0xB0B1B2, 0xB3B4B5,
    0xB6B7B8, 0xB9BABB, 0xBCBDBE, 0xBF0000,
];

// All letters.
fn all() {
    let text = ALL;
    let data = ALL_WORDS;
    show(b"G36b", &text, frame_of(0x669005, 0x0323B0, &data));
}

// The longest text of letters, without a zero.
fn longest() {
    let text = [191u8; 90];
    let data = [0xBFBFBFu32; 30];
    show(b"G36c", &text, frame_of(0x669005, 0x0323F0, &data));
}

// The vectors of texts.
pub(crate) fn print_vectors() {
    ends();
    all();
    longest();
}

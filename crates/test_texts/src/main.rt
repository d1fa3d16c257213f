// Type 16: text, made from its characters and read from its words.
#![tactic(auto)]

use frame::Frame;
use test_vectors::texts::print_text;
use test_vectors::{frame_of, header_with, print, print_made, print_vector};

// Makes text into a frame, and reads the frame of the words.
fn show(name: &[u8], text: &[u8], read: Frame) {
    let header = header_with(16);
    let made = record_texts::make_text(header, text);
    print_vector(name, made, read);
    print_text(read);
}

// The longest text, 90 characters, has N 30; one character more is refused.
fn longest() {
    let data = [0x414243u32; 30];
    show(
        b"V16d",
        b"ABCABCABCABCABCABCABCABCABCABCABCABCABCABCABCABCABCABCABCABCABCABCABCABCABCABCABCABCABCABC",
        frame_of(0x664005, 0x0323F0, &data),
    );
    let header = header_with(16);
    let made = record_texts::make_text(
        header,
        b"ABCABCABCABCABCABCABCABCABCABCABCABCABCABCABCABCABCABCABCABCABCABCABCABCABCABCABCABCABCABCD",
    );
    print(b"V16e 91 characters\n");
    print_made(made);
}

// The vectors of type 16: one zero closes the last word, two zeros, none; the longest text.
fn main() {
    let one = [0x515549u32, 0x434B00];
    show(b"V16a", b"QUICK", frame_of(0x664005, 0x032310, &one));
    let two = [0x414243u32, 0x444546, 0x470000];
    show(b"V16b", b"ABCDEFG", frame_of(0x664005, 0x032318, &two));
    let none = [0x017F20u32];
    show(
        b"V16c",
        b"\x01\x7F\x20",
        frame_of(0x664005, 0x032308, &none),
    );
    longest();
}

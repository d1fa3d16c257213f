// Prints worked bytes with the six line bits that they carry, and worked windows with their remainders, to be compared with the tables of vectors.
#![tactic(auto)]

use test_vectors::{print, print_hex};

// The lowest bit in print.
fn bit(n: u32) -> u8 {
    b'0' + (n % 2) as u8
}

// The lowest six bits behind a space, the highest first, and the end of the line.
fn print_six(six: u32) {
    let text = [
        b' ',
        bit(six / 32),
        bit(six / 16),
        bit(six / 8),
        bit(six / 4),
        bit(six / 2),
        bit(six),
        b'\n',
    ];
    print(&text);
}

// A byte and the bits that it carries, the first sent first, or that it is refused.
fn show_byte(byte: u8) {
    print_hex(u64::from(byte), 2);
    let Ok(six) = line::six_of(byte) else {
        print(b" refused\n");
        return;
    };
    print_six(six);
}

// A window and its remainder, D25 first.
fn show_window(window: u32) {
    print_hex(u64::from(window), 8);
    print_six(word::remainder(window));
}

fn main() {
    show_byte(0x40);
    show_byte(0x41);
    show_byte(0x60);
    show_byte(0x66);
    show_byte(0x7F);
    show_byte(0x59);
    show_byte(0x3F);
    show_byte(0x80);
    // two windows, their xor, and the first turned over
    show_window(0x12345678);
    show_window(0xAAAAAAAA);
    show_window(0x12345678 ^ 0xAAAAAAAA);
    show_window(0x12345678 ^ 0xFFFFFFFF);
    // word 1 of the worked stream, and with its first 1, 3, 5, 7 and 31 bits turned
    show_window(0x1986017F);
    show_window(0x1986017F ^ 0x80000000);
    show_window(0x1986017F ^ 0xE0000000);
    show_window(0x1986017F ^ 0xF8000000);
    show_window(0x1986017F ^ 0xFE000000);
    show_window(0x1986017F ^ 0xFFFFFFFE);
    // word 2, no bit, all bits, and D30* alone
    show_window(0xFF373FC8);
    show_window(0x00000000);
    show_window(0xFFFFFFFF);
    show_window(0x40000000);
}

// The worked journals A to L: what is turned in the three sound records, or how they are cut.
use crate::journals::{kept, mark_and_third};
use crate::show::show;

// Three sound records (offsets 0, 11, 26).
pub(crate) fn show_sound() {
    let mut journal = kept();
    show(b"A", &mut journal);
}

// One bit in four words (D5 of word 1 of the first; D30* of word 2 and D24 of word 3 of the second; D30 of word 4 of the third).
pub(crate) fn show_single_bits() {
    let mut journal = kept();
    journal[3] = 0x1B;
    journal[18] = 0x40;
    journal[25] = 0x2A;
    journal[44] = 0x8B;
    show(b"B", &mut journal);
}

// Two bits of word 3 of the second: lost, not touched.
pub(crate) fn show_two_bits() {
    let mut journal = kept();
    journal[22] = 0x51;
    journal[23] = 0x15;
    show(b"C", &mut journal);
}

// N byte of the second 1 -> 3: word 2 wins.
pub(crate) fn show_wrong_number() {
    let mut journal = kept();
    journal[13] = 0x03;
    show(b"D", &mut journal);
}

// Word 2 of the second has two turned bits, N is sound: lost, and the third is found behind it.
pub(crate) fn show_broken_header() {
    let mut journal = kept();
    journal[18] = 0x04;
    journal[19] = 0x88;
    journal[30] = 0x01;
    show(b"E", &mut journal);
}

// The same and N is 82: its mark and N byte alone; byte by byte to the third.
pub(crate) fn show_numberless() {
    let mut journal = kept();
    journal[13] = 0x52;
    journal[18] = 0x04;
    journal[19] = 0x88;
    show(b"F", &mut journal);
}

// A bit of the second mark turned (52 -> 53): byte by byte to the third.
pub(crate) fn show_turned_mark() {
    let mut journal = kept();
    journal[11] = 0x53;
    show(b"G", &mut journal);
}

// The third cut short by a byte.
pub(crate) fn show_cut_short() {
    let mut journal = kept();
    show(b"H", &mut journal[..44]);
}

// One bit of N in word 2 of the first (N 0 -> 1 there): word 2 is mended first, then N agrees.
pub(crate) fn show_number_mended() {
    let mut journal = kept();
    journal[9] = 0x3D;
    show(b"I", &mut journal);
}

// Three turned bits in word 1 of the first: an odd remainder, a fourth bit is turned; it reads, and is wrong (one turned bit is promised).
pub(crate) fn show_three_bits() {
    let mut journal = kept();
    journal[4] = 0x8A;
    journal[5] = 0x41;
    show(b"J", &mut journal);
}

// D29* of word 2 of the first and its D25, D27, D30 (a right word after other bits): sound by itself, 17, lost.
pub(crate) fn show_other_word() {
    let mut journal = kept();
    journal[7] = 0x7F;
    journal[10] = 0xE1;
    show(b"K", &mut journal);
}

// A lost record whose N byte is 52 and a right mark behind it (52 34 52 34 ..): the record at the N byte is found.
pub(crate) fn show_mark_behind_mark() {
    let mut journal = mark_and_third();
    show(b"L", &mut journal);
}

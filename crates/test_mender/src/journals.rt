// The bytes that the worked journals are made of: three sound records, which keep the words of frames with N 0, 1 and 2.

// All three together have this many bytes.
pub(crate) const SIZE: usize = 45;

// The third record.
const THIRD: [u8; 19] =
    *b"\x52\x34\x02\x19\x81\x01\x44\x00\xC8\xC4\x1B\xFF\x3F\x05\xE2\xBE\xD3\x6A\x8A";

// Three sound records, at 0, 11 and 26.
pub(crate) fn kept() -> [u8; SIZE] {
    let mut journal = [0u8; SIZE];
    journal[..11].copy_from_slice(b"\x52\x34\x00\x19\x86\x01\x7F\xFF\x37\x3F\xC8");
    journal[11..26].copy_from_slice(
        b"\x52\x34\x01\xE6\x79\xFE\x80\x00\xC8\xC2\x21\x55\x55\x55\x6A",
    );
    journal[26..].copy_from_slice(&THIRD);
    journal
}

// A mark, and the third record behind it: so its mark's first byte stands where the N byte of the first mark would.
pub(crate) fn mark_and_third() -> [u8; 21] {
    let mut journal = [0u8; 21];
    journal[..2].copy_from_slice(b"\x52\x34");
    journal[2..].copy_from_slice(&THIRD);
    journal
}

// A worked journal in print: its letter, the report of mending it, how many bytes were passed over, and its bytes.
use crate::mending::mend_all;
use test_vectors::{print, print_bytes, print_number};

// A worked journal, with its letter.
pub(crate) fn show(letter: &[u8], journal: &mut [u8]) {
    print(letter);
    print(b"\n");
    let passed = mend_all(journal);
    print_number(b"passed over ", passed);
    print(b":");
    print_bytes(journal);
    print(b"\n");
}

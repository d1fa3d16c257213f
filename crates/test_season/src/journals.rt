// The worked journal of ten frames, whole and split behind the second.
use crate::show::{print_added, print_report};
use season_reports::Report;
use test_vectors::print;

// The first two records end here, and all ten.
const SPLIT: usize = 45;

const SIZE: usize = 168;

// The first two frames, of types 1 and 9.
fn put_first(journal: &mut [u8; SIZE]) {
    journal[..21].copy_from_slice(
        b"\x52\x32\x04\x66\x04\x05\x03\x23\x20\x03\x03\xE8\xFB\x01\x87\x80\x01\x00\x01\xAA\xAA",
    );
    journal[21..SPLIT].copy_from_slice(
        b"\x52\x32\x05\x66\x24\x05\x03\x23\x28\x03\x80\x00\x00\x01\x00\x00\x05\x80\x01\x03\xFF\xFF\x00\x02",
    );
}

// Four frames of types 31 and 34; in one of three entries a time can't be read, and one is null.
fn put_glonass(journal: &mut [u8; SIZE]) {
    journal[SPLIT..60].copy_from_slice(
        b"\x52\x32\x02\x66\x7C\x05\x03\x23\x10\x83\x7F\xFF\x00\x07\xAA",
    );
    journal[60..72].copy_from_slice(b"\x52\x32\x01\x66\x88\x05\x03\x23\x08\xAA\xAA\xAA");
    journal[72..87].copy_from_slice(
        b"\x52\x32\x02\x66\x88\x06\x03\x23\x10\x03\x00\x00\x00\xF7\xAA",
    );
    journal[87..108].copy_from_slice(
        b"\x52\x32\x04\x66\x7C\x07\x03\x23\x20\x03\x03\xE8\xFB\x4D\x01\x00\x01\xFF\x78\xAA\xAA",
    );
}

// Four of which the last alone is counted: N 3, Z 6000, a text, and a frame of type 1.
fn put_last(journal: &mut [u8; SIZE]) {
    journal[108..126].copy_from_slice(
        b"\x52\x32\x03\x66\x04\x05\x03\x23\x18\x00\x00\x00\x00\x00\x00\x00\x00\x00",
    );
    journal[126..141].copy_from_slice(
        b"\x52\x32\x02\x66\x04\x05\xBB\x83\x10\x03\x03\xE8\xFB\x4D\xAA",
    );
    journal[141..153].copy_from_slice(b"\x52\x32\x01\x66\x40\x05\x03\x23\x08\x41\x00\x00");
    journal[153..].copy_from_slice(b"\x52\x32\x02\x66\x04\x05\x03\x23\x10\x87\x80\x01\x01\x01\xAA");
}

// The ten records, in the form that keeps the data.
fn journal() -> [u8; SIZE] {
    let mut bytes = [0u8; SIZE];
    put_first(&mut bytes);
    put_glonass(&mut bytes);
    put_last(&mut bytes);
    bytes
}

// The report of bytes.
fn report_of(bytes: &[u8]) -> Report {
    let added = season_reports::add_journal(season_reports::empty(), bytes);
    added.report
}

// The report of the whole journal.
pub(crate) fn print_whole() {
    let bytes = journal();
    print(b"the journal of ten frames\n");
    print_report(report_of(&bytes));
}

// The reports of its two parts, and the second added to the first.
pub(crate) fn print_parts() {
    let bytes = journal();
    let first = report_of(&bytes[0..SPLIT]);
    let second = report_of(&bytes[SPLIT..]);
    print(b"its first two frames\n");
    print_report(first);
    print(b"the other eight\n");
    print_report(second);
    print(b"the second added to the first\n");
    print_added(season_reports::add_report(first, second));
}

// A record of types 41 and 42 in print.
use frame::Frame;
use record_generals::{General, GeneralHead, GeneralNullRead, GeneralRead, HeadRead};
use record_stages::Count;
use test_vectors::{entries_to_write, print, print_number, print_refusal, print_signed};

// Writes a head's numbers.
fn print_numbers(head: GeneralHead) {
    print_number(b"system ", head.system as u64);
    print_number(b", signal ", head.signal as u64);
    print_number(b", ephemeris ", head.ephemeris as u64);
    print_number(b", period ", head.period as u64);
    print_number(b", ionosphere ", head.ionosphere as u64);
    print(b"\n");
}

// Writes what the head of a frame reads as.
pub(crate) fn print_head(frame: Frame) {
    match record_generals::read_head(frame) {
        HeadRead::Head(head) => print_numbers(head),
        HeadRead::Refused(number) => print_refusal(number),
    }
}

// Writes a PRC behind its name.
pub(crate) fn print_prc(name: &[u8], prc: i16) {
    print_signed(name, i32::from(prc));
}

// Writes one satellite's fields.
fn print_entry(g: General) {
    print_number(b"satellite ", g.satellite as u64);
    print_number(b", UDRE ", g.udre as u64);
    print_number(b", IOD ", g.iod as u64);
    print_prc(b", PRC ", g.prc);
    print_number(b", delay ", g.delay as u64);
    print(b"\n");
}

// Writes satellite number `index` of a frame.
pub(crate) fn print_at(frame: Frame, index: usize) {
    match record_generals::general_at(frame, index) {
        GeneralRead::Entry(g) => print_entry(g),
        GeneralRead::Refused(number) => print_refusal(number),
    }
}

// Writes the count of a frame, or r and the refusal's number.
pub(crate) fn print_short(frame: Frame) {
    match record_generals::count_generals(frame) {
        Count::Of(count) => print_number(b" ", count as u64),
        Count::Refused(number) => print_number(b" r", number as u64),
    }
}

// Writes the count of a frame.
pub(crate) fn print_count(name: &[u8], frame: Frame) {
    print(name);
    print_short(frame);
    print(b"\n");
}

// Writes what a frame reads as, as a null frame.
pub(crate) fn print_null(name: &[u8], frame: Frame) {
    print(name);
    match record_generals::read_general_null(frame) {
        GeneralNullRead::Null(n, system) => {
            print_number(b"null, N ", n as u64);
            print_number(b", system ", system as u64);
            print(b"\n");
        }
        GeneralNullRead::Refused(number) => print_refusal(number),
    }
}

// Writes the head of a frame, and every satellite.
pub(crate) fn print_record(frame: Frame) {
    print_head(frame);
    for i in 0..entries_to_write(record_generals::count_generals(frame)) {
        print_at(frame, i);
    }
}

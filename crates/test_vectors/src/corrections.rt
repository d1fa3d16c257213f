// Corrections in print, with PRC and RRC in whole units.
use crate::{entries_to_write, print, print_number, print_refusal, print_signed};
use frame::Frame;
use record_corrections::{Correction, CorrectionRead, Issue};
use record_values::{Distance, Rate};

// Writes the refusal's number where a value would stand.
fn print_no_value(number: u8) {
    print_number(b" (refused with ", number as u64);
    print(b")");
}

// Writes what a PRC stands for.
fn print_distance(scale: u8, prc: i16) {
    match record_values::prc_mm(scale, prc) {
        Distance::Millimetres(mm) => {
            print_signed(b" (", mm);
            print(b" mm)");
        }
        Distance::Stop => print(b" (stop)"),
        Distance::Refused(number) => print_no_value(number),
    }
}

// Writes what an RRC stands for.
fn print_rate(scale: u8, rrc: i8) {
    match record_values::rrc_mm_s(scale, rrc) {
        Rate::MillimetresPerSecond(mm) => {
            print_signed(b" (", mm);
            print(b" mm/s)");
        }
        Rate::Stop => print(b" (stop)"),
        Rate::Refused(number) => print_no_value(number),
    }
}

// Writes PRC and RRC and what they stand for: stop for both, where either says that the satellite is not to be used.
fn print_values(scale: u8, prc: i16, rrc: i8) {
    let stopped = record_values::stops(prc, rrc);
    print_signed(b", PRC ", i32::from(prc));
    if stopped {
        print(b" (stop)");
    } else {
        print_distance(scale, prc);
    }
    print_signed(b", RRC ", i32::from(rrc));
    if stopped {
        print(b" (stop)");
    } else {
        print_rate(scale, rrc);
    }
}

// A correction with an IOD, its fields in the order of the line.
pub fn with_iod(scale: u8, udre: u8, satellite: u8, prc: i16, rrc: i8, iod: u8) -> Correction {
    Correction {
        scale,
        udre,
        satellite,
        prc,
        rrc,
        issue: Issue::Iod(iod),
    }
}

// Writes what the last eight bits say.
fn print_issue(issue: Issue) {
    match issue {
        Issue::Iod(iod) => print_number(b", IOD ", iod as u64),
        Issue::Age(change, tb) => {
            print_number(b", change ", change as u64);
            print_number(b", tb ", tb as u64);
        }
    }
}

// Writes one satellite's fields and values.
fn print_entry(e: Correction) {
    print_number(b"scale ", e.scale as u64);
    print_number(b", UDRE ", e.udre as u64);
    print_number(b", satellite ", e.satellite as u64);
    print_values(e.scale, e.prc, e.rrc);
    let issue = e.issue;
    print_issue(issue);
    print(b"\n");
}

// Writes entry number `index` of a frame.
pub fn print_at(frame: Frame, index: usize) {
    match record_corrections::correction_at(frame, index) {
        CorrectionRead::Entry(e) => print_entry(e),
        CorrectionRead::Refused(number) => print_refusal(number),
    }
}

// Writes every entry of a frame.
pub fn print_entries(frame: Frame) {
    for i in 0..entries_to_write(record_corrections::count_corrections(frame)) {
        print_at(frame, i);
    }
}

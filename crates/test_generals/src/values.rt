// What the numbers of types 41 and 42 mean: PRC, delay, the table of UDRE, the longest use.
use crate::show::print_prc;
use frame::State;
use record_values::general::{delay_mm, general_prc_mm, general_udre, use_seconds};
use record_values::{Delay, Distance, GeneralLimit, Period};
use test_vectors::{print, print_number, print_refusal, print_signed};

// Writes what a PRC means.
fn prc(number: i16) {
    print_prc(b"PRC ", number);
    print(b": ");
    match general_prc_mm(number) {
        Distance::Millimetres(mm) => {
            print_signed(b"", mm);
            print(b" mm\n");
        }
        Distance::Stop => print(b"stop\n"),
        Distance::Refused(n) => print_refusal(n),
    }
}

// Writes what a delay means.
fn delay(code: u16) {
    print_number(b"delay ", code as u64);
    print(b": ");
    match delay_mm(code) {
        Delay::Millimetres(mm) => {
            print_number(b"", mm as u64);
            print(b" mm\n");
        }
        Delay::Unusable => print(b"not to be used\n"),
        Delay::Refused(n) => print_refusal(n),
    }
}

// Writes the limit of a UDRE code, in hundredths of a mm.
fn limit(state: State, code: u8) {
    match general_udre(state, code) {
        GeneralLimit::Hundredths(hundredths) => print_number(b" ", hundredths as u64),
        GeneralLimit::NoLimit => print(b" none"),
        GeneralLimit::Refused(n) => print_number(b" r", n as u64),
    }
}

// The limits of the codes 0 to 16 in a state.
fn limits(name: &[u8], state: State) {
    print(name);
    for code in 0..17 {
        limit(state, code);
    }
    print(b"\n");
}

// Writes the longest use of a code.
fn period(code: u8) {
    print_number(b"use ", code as u64);
    print(b": ");
    match use_seconds(code) {
        Period::Seconds(seconds) => {
            print_number(b"", seconds as u64);
            print(b" s\n");
        }
        Period::Refused(n) => print_refusal(n),
    }
}

// What numbers mean.
pub(crate) fn print_answers() {
    prc(8191);
    prc(-8191);
    prc(-8192);
    prc(8192);
    prc(-8193);
    delay(0);
    delay(4094);
    delay(4095);
    delay(4096);
    limits(b"UDRE, health 0:", State::Factor(100));
    limits(b"UDRE, health 3:", State::Factor(30));
    limits(b"UDRE, health 6:", State::Unmonitored);
    limits(b"UDRE, a factor of 0.99:", State::Factor(99));
    period(0);
    period(1);
    period(2);
    period(3);
    period(4);
}

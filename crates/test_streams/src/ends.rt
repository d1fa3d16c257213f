// What a health entry's time and a Z count stand for, at the ends of their ranges and past them.
use record_values::{SinceHour, Time};
use test_vectors::{print, print_number};

// Writes a time code and its minutes, or the refusal's number.
fn print_minutes(code: u8) {
    print_number(b"time ", code as u64);
    match record_values::minutes(code) {
        Time::Minutes(minutes) => print_number(b" minutes ", minutes as u64),
        Time::Refused(number) => print_number(b" refused ", number as u64),
    }
    print(b"\n");
}

// Writes a Z count and its tenths of a second, or the refusal's number.
fn print_tenths(z: u16) {
    print_number(b"z ", z as u64);
    match record_values::z_tenths(z) {
        SinceHour::Tenths(tenths) => print_number(b" tenths ", tenths as u64),
        SinceHour::Refused(number) => print_number(b" refused ", number as u64),
    }
    print(b"\n");
}

// Writes both at the first and the last number of each answer.
pub(crate) fn print_ends() {
    print_minutes(0);
    print_minutes(15);
    print_minutes(16);
    print_minutes(255);
    print_tenths(0);
    print_tenths(5999);
    print_tenths(6000);
    print_tenths(8191);
    print_tenths(8192);
    print_tenths(65535);
}

// Satellite health in print.
use crate::{entries_to_write, print, print_number, print_refusal};
use frame::Frame;
use record_healths::{Condition, HealthRead, SatelliteHealth};

// Writes what the three health bits say.
fn print_condition(health: Condition) {
    match health {
        Condition::Code(code) => print_number(b", health ", code as u64),
        Condition::Data(data, reserved) => {
            print_number(b", data health ", data as u64);
            print_number(b", reserved ", reserved as u64);
        }
    }
}

// Writes one satellite's fields.
fn print_entry(e: SatelliteHealth) {
    print_number(b"reserved ", e.reserved as u64);
    print_number(b", satellite ", e.satellite as u64);
    print_number(b", link ", e.link as u64);
    let health = e.health;
    print_condition(health);
    print_number(b", C/N0 code ", e.cn0 as u64);
    print_number(b", enable ", e.enable as u64);
    print_number(b", new ", e.new_data as u64);
    print_number(b", loss ", e.loss as u64);
    print_number(b", time ", e.time as u64);
    print_number(b", reserved ", e.spare as u64);
    print(b"\n");
}

// Writes entry number `index` of a frame.
fn print_at(frame: Frame, index: usize) {
    match record_healths::health_at(frame, index) {
        HealthRead::Entry(e) => print_entry(e),
        HealthRead::Refused(number) => print_refusal(number),
    }
}

// Writes every entry of a frame.
pub fn print_entries(frame: Frame) {
    for i in 0..entries_to_write(record_healths::count_healths(frame)) {
        print_at(frame, i);
    }
}

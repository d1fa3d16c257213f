// What frequency codes and the step of a phase mean, by edition and type.
use record_observations::meanings::{Frequency, Step, frequency_of, phase_step};
use record_observations::{Edition, Mark};
use test_vectors::{print, print_number, print_refusal};

// Writes what a frequency code says.
fn frequency(edition: Edition, kind: u8, code: u8) {
    print_number(b"type ", kind as u64);
    print_number(b", frequency ", code as u64);
    print(b": ");
    match frequency_of(edition, kind, code) {
        Frequency::L1 => print(b"L1\n"),
        Frequency::L2 => print(b"L2\n"),
        Frequency::Difference => print(b"ionospheric difference\n"),
        Frequency::IonosphereFree => print(b"free of the ionosphere\n"),
        Frequency::Special => print(b"special\n"),
        Frequency::Reserved => print(b"reserved\n"),
        Frequency::Refused(number) => print_refusal(number),
    }
}

// Writes the step of a phase.
fn step(name: &[u8], edition: Edition, kind: u8, mark: Mark) {
    print(name);
    match phase_step(edition, kind, mark) {
        Step::Wavelength256 => print(b"1/256 of a wavelength\n"),
        Step::HalfWavelength128 => print(b"1/128 of half a wavelength\n"),
        Step::Refused(number) => print_refusal(number),
    }
}

// The codes 0 to 4 of an edition, of both types and another.
fn codes(name: &[u8], edition: Edition) {
    print(name);
    frequency(edition, 18, 0);
    frequency(edition, 18, 1);
    frequency(edition, 18, 2);
    frequency(edition, 18, 3);
    frequency(edition, 18, 4);
    frequency(edition, 19, 1);
    frequency(edition, 19, 3);
    frequency(edition, 20, 4);
}

// What codes mean.
pub(crate) fn print_answers() {
    codes(b"edition GOST\n", Edition::Gost);
    codes(b"edition BD\n", Edition::Bd);
    step(b"edition GOST, half 0: ", Edition::Gost, 18, Mark::Half(0));
    step(b"edition GOST, half 1: ", Edition::Gost, 18, Mark::Half(1));
    step(b"edition BD, more 1: ", Edition::Bd, 18, Mark::More(1));
    step(b"edition BD, half 1: ", Edition::Bd, 18, Mark::Half(1));
    step(b"edition GOST, half 2: ", Edition::Gost, 18, Mark::Half(2));
    step(
        b"type 19, reserved 0: ",
        Edition::Gost,
        19,
        Mark::Reserved(0),
    );
}

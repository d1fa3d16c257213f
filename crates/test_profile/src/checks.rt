// What the checker answers.
use crate::entries::zeros_for;
use frame::Frame;
use profile::Profile;
use record_corrections::Correction;
use test_vectors::corrections::with_iod;
use test_vectors::{frame_of, header_with, print, print_refusal};

// Writes the name of a case, and whether the frame is in the profile.
fn check(name: &[u8], frame: Frame) {
    print(name);
    match profile::check_profile(frame) {
        Profile::Inside => print(b"inside\n"),
        Profile::Refused(number) => print_refusal(number),
    }
}

// Checks a frame of that type with four corrections, or with the first of them.
fn list(name: &[u8], kind: u8, four: [Correction; 4], count: usize) {
    let mut all = [four[0]; 18];
    all[..4].copy_from_slice(&four);
    let made = record_corrections::make_corrections(header_with(kind), all, count);
    check(name, made.frame);
}

// Checks a frame of that type for these satellites, or for the first of them.
fn satellites(name: &[u8], kind: u8, numbers: [u8; 4], count: usize) {
    list(name, kind, numbers.map(zeros_for), count);
}

// Type 9, and the types that are not of the profile.
pub(crate) fn print_corrections() {
    satellites(b"9, satellites 1 2 3: ", 9, [1, 2, 3, 4], 3);
    satellites(b"9, satellites 1 2 1: ", 9, [1, 2, 1, 4], 3);
    satellites(b"9, satellites 1 2 3 4: ", 9, [1, 2, 3, 4], 4);
    satellites(b"9, satellites 1 1 1 1: ", 9, [1, 1, 1, 1], 4);
    let stop = with_iod(0, 0, 1, -32768, 0, 0);
    list(b"9, a stop entry: ", 9, [stop; 4], 1);
    let zeros = [0x0103E8u32, 0xFB0100];
    check(b"9, fill of zeros: ", frame_of(0x662405, 0x032310, &zeros));
    check(b"9, N 3: ", frame_of(0x662405, 0x032318, &[]));
    satellites(b"1, satellites 1 2 3: ", 1, [1, 2, 3, 4], 3);
    check(b"1, N 3: ", frame_of(0x660405, 0x032318, &[]));
    check(b"1, Z 6000: ", frame_of(0x660405, 0xBB8310, &[]));
    check(b"9, Z 6000, N 3: ", frame_of(0x662405, 0xBB8318, &[]));
    check(b"31, N 3: ", frame_of(0x667C05, 0x032318, &[]));
    check(b"34, N 3: ", frame_of(0x668805, 0x032318, &[]));
    check(b"18, N 3: ", frame_of(0x664805, 0x032318, &[]));
    check(b"41, N 3: ", frame_of(0x66A405, 0x032318, &[]));
}

// The other four types of the profile, and what is no frame.
pub(crate) fn print_others() {
    let position = [0x000001u32, 0x000002, 0x000003, 0x000004];
    check(b"3, N 4: ", frame_of(0x660C05, 0x032320, &position));
    let lowest = [0x800000u32, 0x000000, 0x000000, 0x000000];
    check(b"3, X -2147483648: ", frame_of(0x660C05, 0x032320, &lowest));
    let seven = [0x1C0000u32, 0x1C0000];
    check(
        b"5, satellite 7 twice: ",
        frame_of(0x661405, 0x032310, &seven),
    );
    check(b"5, N 0: ", frame_of(0x661405, 0x032300, &[]));
    check(b"6, N 0: ", frame_of(0x661805, 0x032300, &[]));
    let any = [0x123456u32];
    check(b"6, N 1, any fill: ", frame_of(0x661805, 0x032308, &any));
    check(b"6, N 2: ", frame_of(0x661805, 0x032310, &[]));
    let long = [0x414141u32; 30];
    check(b"16, 90 characters: ", frame_of(0x664005, 0x0323F0, &long));
    let letter = [0x414280u32];
    check(b"16, code 128: ", frame_of(0x664005, 0x032308, &letter));
    let zero = [0x410041u32];
    check(
        b"16, a zero before the end: ",
        frame_of(0x664005, 0x032308, &zero),
    );
    check(b"no frame: ", frame::no_frame());
}

// The worked vectors: each is made and read.
use crate::show::{print_null, print_record};
use frame::Frame;
use record_generals::{General, GeneralHead};
use test_vectors::{frame_of, header_with, print_vector};

// A head by its numbers.
pub(crate) fn head(
    system: u8,
    signal: u8,
    ephemeris: u8,
    period: u8,
    ionosphere: u8,
) -> GeneralHead {
    GeneralHead {
        system,
        signal,
        ephemeris,
        period,
        ionosphere,
    }
}

// A satellite by its numbers.
pub(crate) fn general(satellite: u8, udre: u8, iod: u8, prc: i16, delay: u16) -> General {
    General {
        satellite,
        udre,
        iod,
        prc,
        delay,
    }
}

// Makes satellites, `count` of them, under a head, and reads the frame of the words.
fn show(name: &[u8], head: GeneralHead, entries: [General; 22], count: usize, read: Frame) {
    let known = read.header;
    let kind = known.kind;
    let made = record_generals::make_generals(header_with(kind), head, entries, count);
    print_vector(name, made, read);
    print_record(read);
}

// Every field at its least, with fill 101.
fn c41a() {
    let data = [0x100020u32, 0x000005];
    show(
        b"C41a",
        head(1, 0, 0, 0, 0),
        [general(1, 0, 0, 0, 0); 22],
        1,
        frame_of(0x66A405, 0x032310, &data),
    );
}

// The ends; -8192 is stop; satellite 1 begins at bit 21 of word 2.
fn c41b() {
    let mut entries = [general(63, 15, 255, 8191, 0); 22];
    entries[1] = general(1, 0, 0, -8192, 0);
    let data = [0x6FF7FFu32, 0xFEFFF8, 0x200100, 0x055555];
    show(
        b"C41b",
        head(6, 15, 3, 3, 0),
        entries,
        2,
        frame_of(0x66A405, 0x032320, &data),
    );
}

// GLONASS: an IOD with its top bit set is kept.
fn c41c() {
    let mut entries = [general(24, 3, 95, 100, 0); 22];
    entries[1] = general(1, 4, 223, -1, 0);
    entries[2] = general(32, 8, 128, -8191, 0);
    let data = [0x211306u32, 0xBE0320, 0x29BFFF, 0xFC1101, 0x000D55];
    show(
        b"C41c",
        head(2, 1, 0, 1, 0),
        entries,
        3,
        frame_of(0x66A405, 0x032328, &data),
    );
}

// With ionosphere: a delay of 4095 is not to be used.
fn c41d() {
    let data = [0x6128EBu32, 0x91F5FF, 0xFFD555];
    show(
        b"C41d",
        head(6, 1, 0, 2, 1),
        [general(7, 5, 200, -321, 4095); 22],
        1,
        frame_of(0x66A405, 0x032318, &data),
    );
}

// QZSS: satellite 1 begins at bit 9 of word 3.
fn c42a() {
    let mut entries = [general(3, 14, 9, 8191, 0); 22];
    entries[1] = general(16, 15, 255, -8192, 4094);
    let data = [0x56887Cu32, 0x12FFF8, 0x0021FF, 0xF0007F, 0xF55555];
    show(
        b"C42a",
        head(5, 6, 2, 0, 1),
        entries,
        2,
        frame_of(0x66A805, 0x032328, &data),
    );
}

// Six satellites, which begin at six places of their words.
fn c42b() {
    let mut entries = [general(1, 0, 0, -3000, 0); 22];
    entries[1] = general(2, 1, 40, -2000, 700);
    entries[2] = general(3, 2, 80, -1000, 1400);
    entries[3] = general(4, 3, 120, 0, 2100);
    entries[4] = general(5, 4, 160, 1000, 2800);
    entries[5] = general(6, 5, 200, 2000, 3500);
    let data = [
        0x145820u32,
        0x01A240,
        0x000425,
        0x1C1815,
        0xE064A1,
        0xE0C2BC,
        0x086F00,
        0x0041A0,
        0xA9401F,
        0x45780C,
        0xB903E8,
        0x6D6555,
    ];
    show(
        b"C42b",
        head(1, 4, 1, 1, 1),
        entries,
        6,
        frame_of(0x66A805, 0x032360, &data),
    );
}

// Satellite number i of 22: its numbers but the PRC follow from i.
fn numbered(i: u8, prc: i16) -> General {
    let n = i % 22;
    general(63 - n, n % 16, 5 * n, prc, 0)
}

// As many satellites as a frame holds, their PRC from -4000 on in steps of 500.
fn most() -> [General; 22] {
    std::array::from_fn(|i| numbered((i % 22) as u8, (i % 22) as i16 * 500 - 4000))
}

// The words of twenty-two satellites.
const MOST_WORDS: [u32; 30] = [
    0x1107E0, 0x018307, 0xC20B92, 0xA7A415, 0xA24786, 0x1FB1E7, 0x6829C1, 0x874A33, 0xD1272C,
    0x3DE0C7, 0x0E47F0, 0x66F050, 0x0006D2, 0x5A0FA6, 0xB4641F, 0x46966E, 0x2EE678, 0x783E86,
    0x5A824E, 0x263C8C, 0x5DC61E, 0x966D65, 0xE0A07D, 0x05C2AA, 0x8CA5A4, 0xB49C45, 0x86BEAB,
    0xE568C8, 0xBB854A, 0xD2CB25,
];

// The most satellites of a frame.
fn c41e() {
    let data = MOST_WORDS;
    show(
        b"C41e",
        head(1, 1, 0, 0, 0),
        most(),
        22,
        frame_of(0x66A405, 0x0323F0, &data),
    );
}

// Read with fill 010, made again with 101.
fn c41f() {
    let data = [0x110020u32, 0x000002];
    show(
        b"C41f",
        head(1, 1, 0, 0, 0),
        [general(1, 0, 0, 0, 0); 22],
        1,
        frame_of(0x66A405, 0x032310, &data),
    );
}

// Makes the null frame of a system, and reads the frame of a word.
fn show_null(name: &[u8], system: u8, word: u32) {
    let data = [word];
    let read = frame_of(0x66A805, 0x032308, &data);
    let made = record_generals::make_general_null(header_with(42), 1, system);
    print_vector(name, made, read);
    print_null(b"", read);
}

// The vectors of types 41 and 42; the last null frame is read with other fill.
pub(crate) fn print_vectors() {
    c41a();
    c41b();
    c41c();
    c41d();
    c42a();
    c42b();
    c41e();
    c41f();
    show_null(b"C42c", 1, 0x1AAAAA);
    show_null(b"C42d", 2, 0x2AAAAA);
    show_null(b"C42e", 5, 0x5AAAAA);
    show_null(b"C42f", 6, 0x6AAAAA);
    show_null(b"C42g", 6, 0x612345);
}

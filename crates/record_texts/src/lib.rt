// Text, 1 to 90 characters of eight bits, three a word: type 16 of GPS, 36 of GLONASS. The last code of a character alone differs.
#![tactic(auto)]

ghost use Rattle.std.specs.Prelude.{◌≡◌, map, ◌*◌, ◌≤◌, ◌<◌, length, take};
ghost use Rattle.bits.specs.Rows.{data_bits};
ghost use Rattle.record_fields.specs.Tables.{no_rows, put_rows};
ghost use Rattle.record_fields.specs.Coding.{entry_in};
ghost use Rattle.record_texts.specs.Texts.{widths, coding, least, most, numbers, characters, text_length, words_size};
ghost use Rattle.record_texts.specs.Texts.{last_code, forbidden, characters_of, room_of};
ghost use Rattle.record_texts.specs.Texts.{read_text, buffer_after, make_text};

use answer::Refusal;
use frame::{Frame, Header, Layout, System};
use record_fields::Rows;
use record_stages::{Asked, Count, Made};

// THE LAYOUT of both systems: the width of a character and its least; its most is the system's; the last word is filled with zeros.
const WIDTHS: [u32; 1] = [8];

const LEAST: [u32; 1] = [1];

// The last code of a character: GPS has ASCII, GLONASS the Russian letters of annex G behind it.
#[tactic(auto, unfolding(crate::specs::Texts::last_code))]
fn last_code(system: System) -> u32
    ensures { result ≡ last_code system }
{
    match system {
        System::Gps => 127,
        System::Glonass => 191,
    }
}

// A character is not 1 to the last code.
fn is_forbidden(system: System, character: u32) -> bool
    ensures { result ≡ forbidden system character }
{
    character < 1 || character > last_code(system)
}

// Whether a text has N words: 1 to 30.
fn words_size(n: usize) -> Result<(), Refusal>
    ensures { result ≡ words_size n }
{
    if n == 0 || n > 30 {
        return Err(Refusal::WordCount);
    }
    Ok(())
}

// Character number `i` of the data, one of the three of a word.
fn character(words: &[u32; 31], i: usize) -> u32
    requires { i < 93 }
    ensures { (result ≡ entry_in coding i (data_bits words.now)) × (result < 256) }
{
    (words[i / 3] >> (16 - 8 * (i % 3))) % 256
}

// How many of the characters of N words are text; zeros that close the last word are not.
fn text_length(words: [u32; 31], n: usize) -> usize
    requires { (0 < n) × (n ≤ 31) }
    ensures { result ≡ text_length (3 * n) (data_bits words) }
{
    let all = 3 * n;
    if character(&words, all - 1) != 0 {
        return all;
    }
    if character(&words, all - 2) != 0 {
        return all - 1;
    }
    all - 2
}

// Whether the first `count` characters of the data are allowed.
fn characters_of(system: System, words: [u32; 31], count: usize) -> Result<(), Refusal>
    requires { count ≤ 93 }
    ensures { result ≡ characters_of system (characters count (data_bits words)) }
{
    for i in 0..count {
        if is_forbidden(system, character(&words, i)) {
            return Err(Refusal::Character);
        }
    }
    Ok(())
}

// Whether a buffer of this length has room for `count` characters.
fn room_of(length: usize, count: usize) -> Result<(), Refusal>
    ensures { result ≡ room_of length count }
{
    if length < count {
        return Err(Refusal::ShortBuffer);
    }
    Ok(())
}

// The first characters of the data fill a text.
fn write_text(words: [u32; 31], text: &mut [u8])
    requires { length text.old ≤ 93 }
    ensures { text.new ≡ characters (length text.old) (data_bits words) }
{
    for (i, c) in text.iter_mut().enumerate() {
        *c = character(&words, i) as u8;
    }
}

// A frame's text into the buffer, and how many characters: 5, 6, 7, 8, 11, 13.
pub fn read_text(frame: Frame, buffer: &mut [u8]) -> Count
    ensures { (result ≡ read_text frame buffer.old) × (buffer.new ≡ buffer_after frame buffer.old) }
{
    let Ok(()) = frame::frame_widths(frame) else {
        return Count::Refused(5);
    };
    let header = frame.header;
    let Asked::Same = record_stages::asked_of(Layout::Text, header.kind) else {
        return Count::Refused(6);
    };
    let Ok(()) = frame::clock_of(header.z) else {
        return Count::Refused(7);
    };
    let Ok(()) = words_size(frame.n) else {
        return Count::Refused(8);
    };
    let words = frame.words;
    let count = text_length(words, frame.n);
    let Ok(()) = characters_of(frame::system_of(header.kind), words, count) else {
        return Count::Refused(11);
    };
    let Ok(()) = room_of(buffer.len(), count) else {
        return Count::Refused(13);
    };
    write_text(words, &mut buffer[..count]);
    Count::Of(count)
}

// The rows of the characters, of 90 at most, a row a character.
fn rows_of(system: System, text: &[u8]) -> Rows
    ensures { result ≡ put_rows widths least (most system) (map numbers (take 90 text.now)) no_rows }
{
    let most = [last_code(system)];
    let mut rows = record_fields::no_rows();
    // A loop: a fold copies the rows once more at each character.
    for c in text.iter().take(90) {
        let row = [u32::from(*c), 0, 0, 0, 0, 0, 0, 0, 0, 0, 0, 0];
        rows = record_fields::put_row(rows, row, &WIDTHS, &LEAST, &most);
    }
    rows
}

// A frame of text: 5, 6, 7, 12, 11.
pub fn make_text(header: Header, text: &[u8]) -> Made
    ensures { result ≡ make_text header text.now }
{
    let system = frame::system_of(header.kind);
    let rows = rows_of(system, text);
    record_stages::make_frame(Layout::Text, 90, 0, header, text.len(), rows)
}

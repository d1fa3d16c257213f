// Fields in data words: read at any bit or row by row, and put one after the other by a packer; two's complement, and satellite numbers.
#![tactic(auto)]

mod number;
pub mod table;

ghost use Rattle.std.specs.Prelude.{◌≡◌, ◌≤◌, ◌<◌, ◌%◌, ◌^◌, length, get_or};
ghost use Rattle.bits.specs.Signed.{signed as signed_of, code as code_of};
ghost use Rattle.record_fields.specs.Narrow.{code_within};
ghost use Rattle.record_fields.specs.Satellites.{satellite_of};
ghost use Rattle.record_fields.specs.Packing.{field_in, empty_packer, flushed, pushed, filled_up};
ghost use Rattle.record_fields.specs.Tables.{row, fields_in, no_rows, put_row};

use crate::number::{code, pow, signed};
use crate::table::{item, push_all, row_out};

// Words, how many of them are whole, and the bits of the next one: `held` of them, as a number.
#[derive(Clone, Copy)]
pub struct Packer {
    pub words: [u32; 31],
    pub whole: usize,
    pub held: u32,
    pub rest: u64,
}

// Rows put one after the other, and whether a value of them was outside its range.
#[derive(Clone, Copy)]
pub struct Rows {
    pub packer: Packer,
    pub out: bool,
}

// A word's data, or 0 past the last.
fn word(words: &[u32; 31], j: usize) -> u64
    ensures { result ≡ get_or words.now j 0 % 2 ^ 24 }
{
    u64::from(item(words, j)) % 16777216
}

// The number in `width` bits from bit `offset` of the data; 0 where the words have no such field of at most 32 bits.
fn field_of(words: &[u32; 31], offset: usize, width: u32) -> u32
    ensures { (result ≡ field_in words.now offset width) × (result < 2 ^ width) }
{
    if width > 32 || width == 0 || offset > 744 - width as usize {
        return 0;
    }
    let j = offset / 24;
    let data = word(words, j) * 1099511627776
        + (word(words, j + 1) * 65536 + word(words, j + 2) / 256);
    let end = (offset % 24) as u32 + width;
    ((data / pow(64 - end)) % pow(width)) as u32
}

// One field, the words by value.
pub fn field(words: [u32; 31], offset: usize, width: u32) -> u32
    ensures { (result ≡ field_in words offset width) × (result < 2 ^ width) }
{
    field_of(&words, offset, width)
}

// A row: the fields of these widths, one after the other from bit `at` of the data; then zeros, up to twelve values.
pub fn fields(words: [u32; 31], at: u32, widths: &[u32]) -> [u32; 12]
    ensures { result ≡ row (fields_in words widths.now at) }
{
    let mut out = [0u32; 12];
    let mut next = at as usize;
    // the widths alone are gone through: the places past the last stay 0
    let taken = &widths[..widths.len().min(12)];
    for (i, &width) in taken.iter().enumerate() {
        out[i] = field_of(&words, next, width);
        next += width as usize;
    }
    out
}

// Nothing put yet.
fn empty() -> Packer
    ensures { result ≡ empty_packer }
{
    Packer {
        words: [0; 31],
        whole: 0,
        held: 0,
        rest: 0,
    }
}

// One whole word goes from the rest to the words.
fn flush(packer: Packer) -> Packer
    requires { packer.held ≤ 64 }
    ensures { result ≡ flushed packer }
{
    let at = packer.whole;
    if packer.held < 24 || at >= 31 {
        return packer;
    }
    let left = packer.held - 24;
    let mut words = packer.words;
    words[at] = ((packer.rest / pow(left)) % 16777216) as u32;
    Packer {
        words,
        whole: at + 1,
        held: left,
        rest: packer.rest % pow(left),
    }
}

// The low `width` bits of `value`, put after what is there; a width over 32 puts nothing.
fn push(packer: Packer, width: u32, value: u32) -> Packer
    ensures { result ≡ pushed packer width value }
{
    if width > 32 {
        return packer;
    }
    let words = packer.words;
    let full = Packer {
        words,
        whole: packer.whole,
        held: packer.held % 24 + width,
        rest: (packer.rest % 16777216) * pow(width) + u64::from(value) % pow(width),
    };
    flush(flush(full))
}

// No row put yet.
pub fn no_rows() -> Rows
    ensures { result ≡ no_rows }
{
    Rows {
        packer: empty(),
        out: false,
    }
}

// One row more: its values put in these widths, and held to their least and their most.
pub fn put_row(rows: Rows, values: [u32; 12], widths: &[u32], least: &[u32], most: &[u32]) -> Rows
    ensures { result ≡ put_row widths.now least.now most.now values rows }
{
    Rows {
        packer: push_all(rows.packer, values, widths),
        out: rows.out || row_out(values, least, most),
    }
}

// The first bits of `pattern`, a word's data, put up to the end of the word.
pub fn fill_up(packer: Packer, pattern: u32) -> Packer
    ensures { result ≡ filled_up pattern packer }
{
    let held = packer.held % 24;
    if held == 0 {
        return packer;
    }
    push(packer, 24 - held, pattern >> held)
}

// Eight, fourteen, sixteen and thirty-two bits to a signed number, and back.
// kept: a line a width over `signed` and `code`, since the contracts of signed8 .. code32 hold the types that callers store.
pub fn signed8(n: u32) -> i8
    ensures { result ≡ signed_of 7 (n % 256) }
{
    signed(n % 256, 7) as i8
}

pub fn signed14(n: u32) -> i16
    ensures { result ≡ signed_of 13 (n % 16384) }
{
    signed(n % 16384, 13) as i16
}

pub fn signed16(n: u32) -> i16
    ensures { result ≡ signed_of 15 (n % 65536) }
{
    signed(n % 65536, 15) as i16
}

pub fn signed32(n: u32) -> i32
    ensures { result ≡ signed_of 31 n }
{
    signed(n, 31) as i32
}

pub fn code8(z: i8) -> u32
    ensures { result ≡ code_of 7 z }
{
    code(z as i64, 7)
}

// A number outside fourteen bits has no code of them: 16384, which they can't hold.
pub fn code14(z: i16) -> u32
    ensures { result ≡ code_within 13 z }
{
    if z < -8192 || z > 8191 {
        return 16384;
    }
    code(z as i64, 13)
}

pub fn code16(z: i16) -> u32
    ensures { result ≡ code_of 15 z }
{
    code(z as i64, 15)
}

pub fn code32(z: i32) -> u32
    ensures { result ≡ code_of 31 z }
{
    code(z as i64, 31)
}

// Five bits to a satellite number: 0 means 32.
pub fn satellite_of(code: u32) -> u8
    ensures { result ≡ satellite_of (code % 32) }
{
    let five = code % 32;
    if five == 0 {
        return 32;
    }
    five as u8
}

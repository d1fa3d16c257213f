// The null frame, types 6 and 34, a frame without fields; its record is N: no data word or one, which is filled.
#![tactic(auto)]

ghost use Rattle.std.specs.Prelude.{◌≡◌};
ghost use Rattle.record_nulls.specs.Nulls.{null_size, null_count, null_rows, read_null, make_null};

use frame::{Frame, Header, Layout};
use record_fields::Rows;
use record_stages::{Asked, Made, Size};

// A null frame of this many data words, or the refusal's number.
#[derive(Clone, Copy)]
pub enum NullRead {
    Null(usize),
    Refused(u8),
}

// The fill of a word: 10101010 three times.
const FILL: u32 = 0xAAAAAA;

const WORD: [u32; 1] = [24];

// The most data words of a null frame.
const MOST_WORDS: usize = 1;

// Whether a null frame may have N data words.
fn null_size(n: usize) -> Size
    ensures { result ≡ null_size n }
{
    if n > MOST_WORDS {
        return Size::Wrong;
    }
    Size::Right
}

// Whether a frame is a null frame, and its N: 5, 6, 7, 8. Its word may have any bits.
#[tactic(auto, unfolding(crate::specs::Nulls::read_null))]
pub fn read_null(frame: Frame) -> NullRead
    ensures { result ≡ read_null frame }
{
    let Ok(()) = frame::frame_widths(frame) else {
        return NullRead::Refused(5);
    };
    let header = frame.header;
    let Asked::Same = record_stages::asked_of(Layout::Null, header.kind) else {
        return NullRead::Refused(6);
    };
    let Ok(()) = frame::clock_of(header.z) else {
        return NullRead::Refused(7);
    };
    let Size::Right = null_size(frame.n) else {
        return NullRead::Refused(8);
    };
    NullRead::Null(frame.n)
}

// One null frame of N words to be made, or none, where it can't have as many.
fn null_count(n: usize) -> usize
    ensures { result ≡ null_count n }
{
    usize::from(n <= MOST_WORDS)
}

// The filled word, where there is one.
fn null_rows(n: usize) -> Rows
    ensures { result ≡ null_rows n }
{
    let none = record_fields::no_rows();
    if n == 0 {
        return none;
    }
    let values = [FILL, 0, 0, 0, 0, 0, 0, 0, 0, 0, 0, 0];
    record_fields::put_row(none, values, &WORD, &[], &[])
}

// A null frame of N data words: 5, 6, 7, 12.
pub fn make_null(header: Header, n: usize) -> Made
    ensures { result ≡ make_null header n }
{
    let count = null_count(n);
    let rows = null_rows(n);
    record_stages::make_frame(Layout::Null, 1, FILL, header, count, rows)
}

// Types 3 and 32: the station's position, X, Y and Z in centimetres, four words.
#![tactic(auto)]

ghost use Rattle.std.specs.Prelude.{◌≡◌, ◌∷◌, []};
ghost use Rattle.bits.specs.Fields.{fields_at};
ghost use Rattle.bits.specs.Rows.{data_bits};
ghost use Rattle.record_fields.specs.Packing.{empty_packer, pushed_rows};
ghost use Rattle.record_fields.specs.Coding.{rows_of};
ghost use Rattle.record_stages.specs.Stages.{ranged_of};
ghost use Rattle.record_positions.specs.Positions.{widths, meant, coding, too_low, out_of_range, read_position, make_position};

use frame::{Frame, Header, Layout};
use record_fields::{Packer, Rows};
use record_stages::{Asked, Made, Ranged, Size};

// The station's antenna, in centimetres.
#[derive(Clone, Copy)]
pub struct Position {
    pub x: i32,
    pub y: i32,
    pub z: i32,
}

// A position, or the refusal's number.
#[derive(Clone, Copy)]
pub enum PositionRead {
    At(Position),
    Refused(u8),
}

// THE LAYOUT: the widths of the three fields; they end with a word, and nothing is filled.
const WIDTHS: [u32; 3] = [32, 32, 32];

// -2147483648 is outside the range.
#[tactic(auto, unfolding(crate::specs::Positions::too_low))]
fn too_low(coordinate: i32) -> bool
    ensures { result ≡ too_low coordinate }
{
    coordinate < -2147483647
}

// One of the three is outside its range.
#[tactic(auto, unfolding(crate::specs::Positions::out_of_range))]
fn out_of_range(position: Position) -> bool
    ensures { result ≡ out_of_range position }
{
    too_low(position.x) || too_low(position.y) || too_low(position.z)
}

// Whether all three are in their range.
fn range_of(position: Position) -> Ranged
    ensures { result ≡ ranged_of (out_of_range position) }
{
    if out_of_range(position) {
        return Ranged::Outside;
    }
    Ranged::Inside
}

// The three numbers of the first 96 bits.
fn position_from(words: [u32; 31]) -> Position
    ensures { result ≡ meant (fields_at widths 0 (data_bits words)) }
{
    let row = record_fields::fields(words, 0, &WIDTHS);
    Position {
        x: record_fields::signed32(row[0]),
        y: record_fields::signed32(row[1]),
        z: record_fields::signed32(row[2]),
    }
}

// The position of a frame: 5, 6, 7, 8, 10.
#[tactic(auto, unfolding(crate::specs::Positions::read_position))]
pub fn read_position(frame: Frame) -> PositionRead
    ensures { result ≡ read_position frame }
{
    let Ok(()) = frame::frame_widths(frame) else {
        return PositionRead::Refused(5);
    };
    let header = frame.header;
    let Asked::Same = record_stages::asked_of(Layout::Position, header.kind) else {
        return PositionRead::Refused(6);
    };
    let Ok(()) = frame::clock_of(header.z) else {
        return PositionRead::Refused(7);
    };
    let Size::Right = record_stages::size_of(4, frame.n) else {
        return PositionRead::Refused(8);
    };
    let words = frame.words;
    let position = position_from(words);
    let Ranged::Inside = range_of(position) else {
        return PositionRead::Refused(10);
    };
    PositionRead::At(position)
}

// The three numbers' row.
fn pack_position(position: Position) -> Packer
    ensures { result ≡ pushed_rows widths (rows_of coding (position ∷ [])) empty_packer }
{
    let x = record_fields::code32(position.x);
    let y = record_fields::code32(position.y);
    let z = record_fields::code32(position.z);
    let row = [x, y, z, 0, 0, 0, 0, 0, 0, 0, 0, 0];
    let rows = record_fields::put_row(record_fields::no_rows(), row, &WIDTHS, &[], &[]);
    rows.packer
}

// A frame of a position, one entry of one; its range is no matter of tables, for a row has the codes: 5, 6, 7, 10.
pub fn make_position(header: Header, position: Position) -> Made
    ensures { result ≡ make_position header position }
{
    let packer = pack_position(position);
    let out = out_of_range(position);
    let rows = Rows { packer, out };
    record_stages::make_frame(Layout::Position, 1, 0, header, 1, rows)
}

// General corrections as rows of numbers: the tables of the head and of a satellite, and the rows of a frame.
ghost use Rattle.std.specs.Prelude.{◌≡◌, map, ◌≤◌, take};
ghost use Rattle.record_fields.specs.Tables.{put_row, put_rows};
ghost use Rattle.record_generals.specs.Generals.{head_rows, widths, least, most, numbers};
ghost use Rattle.record_generals.specs.GeneralNulls.{system_rows};

use crate::{General, GeneralHead};
use record_fields::Rows;

// THE HEAD: the widths of its fields, and the most of each number.
pub(crate) const HEAD_WIDTHS: [u32; 5] = [4, 4, 2, 2, 1];

const HEAD_MOST: [u32; 5] = [15, 15, 3, 3, 1];

// THE SYSTEM of a null frame.
const SYSTEM_WIDTHS: [u32; 1] = [4];

// THE LAYOUT of a satellite: the least of each number.
const LEAST: [u32; 1] = [1];

// A satellite's numbers, in the order of the fields.
fn numbers_of(g: General) -> [u32; 12]
    ensures { result ≡ numbers g }
{
    let prc = record_fields::code14(g.prc);
    [
        g.satellite as u32,
        g.udre as u32,
        g.iod as u32,
        prc,
        g.delay as u32,
        0,
        0,
        0,
        0,
        0,
        0,
        0,
    ]
}

// The row of the head.
fn head_rows(head: GeneralHead) -> Rows
    ensures { result ≡ head_rows head }
{
    let values = [
        head.system as u32,
        head.signal as u32,
        head.ephemeris as u32,
        head.period as u32,
        head.ionosphere as u32,
        0,
        0,
        0,
        0,
        0,
        0,
        0,
    ];
    let none = record_fields::no_rows();
    record_fields::put_row(none, values, &HEAD_WIDTHS, &[], &HEAD_MOST)
}

// One satellite's row more; its delay has `delay` bits.
fn put_entry(rows: Rows, delay: u32, g: General) -> Rows
    requires { delay ≤ 12 }
    ensures { result ≡ put_row (widths delay) least (most delay) (numbers g) rows }
{
    let widths = [6, 4, 8, 14, delay];
    let most = [63, 15, 255, 16383, (1u32 << delay) - 1];
    let values = numbers_of(g);
    record_fields::put_row(rows, values, &widths, &LEAST, &most)
}

// The rows of the head, and of the satellites below the count.
pub(crate) fn rows_of(delay: u32, head: GeneralHead, entries: [General; 22], count: usize) -> Rows
    requires { delay ≤ 12 }
    ensures { result ≡ put_rows (widths delay) least (most delay) (map numbers (take count entries)) (head_rows head) }
{
    entries
        .iter()
        .take(count)
        .fold(head_rows(head), |rows, g| put_entry(rows, delay, *g))
}

// The row of a null frame's system.
pub(crate) fn system_rows(system: u8) -> Rows
    ensures { result ≡ system_rows system }
{
    let values = [system as u32, 0, 0, 0, 0, 0, 0, 0, 0, 0, 0, 0];
    let none = record_fields::no_rows();
    record_fields::put_row(none, values, &SYSTEM_WIDTHS, &[], &[])
}

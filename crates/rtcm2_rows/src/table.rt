// Rows of bytes by a table of sizes: rows in, as rows of a frame's fields; an entry's numbers out, as a row.
ghost use Rattle.std.specs.Prelude.{◌≡◌, ◌+◌, ◌≤◌, ◌<◌, length, take, drop};
ghost use Rattle.std.proofs.lemmas.List.Edits.{sets};
ghost use Rattle.bits.specs.Fields.{span};
ghost use Rattle.record_fields.specs.Tables.{no_rows, put_rows};
ghost use Rattle.rtcm2_state.specs.Numbers.{low_bytes, number_in};
ghost use Rattle.rtcm2_rows.specs.Sizes.{sized_in};
ghost use Rattle.rtcm2_rows.specs.Rows.{row_size, count_of, entries_from, put_by, row_after};
ghost use Rattle.rtcm2_rows.specs.Tables.{few_bytes, few, table_row};

use crate::number::{number_at, put_number};
use crate::row::{Put, count_of};
use record_fields::Rows;

// The bytes that a size stands for.
fn size_of(size: u8) -> usize
    ensures { (result ≡ few_bytes size) × (result ≤ 4) }
{
    size.min(4) as usize
}

// The bytes of a row.
fn row_size(sizes: [u8; 12]) -> usize
    ensures { (result ≡ span (few sizes)) × (result ≤ 48) }
{
    let mut bytes = 0;
    for i in 0..12 {
        bytes += size_of(sizes[i]);
    }
    bytes
}

// The twelve numbers of the row whose bytes start at `at`.
fn numbers_at(at: usize, sizes: [u8; 12], bytes: &[u8]) -> [u32; 12]
    requires { at + span (few sizes) ≤ length bytes.now }
    ensures { result ≡ sized_in (few sizes) (drop at bytes.now) }
{
    let mut numbers = [0u32; 12];
    let mut next = at;
    for i in 0..12 {
        let size = size_of(sizes[i]);
        numbers[i] = number_at(next, size, bytes) as u32;
        next += size;
    }
    numbers
}

// The rows that the bytes are, and at most `limit`, put one after the other in these widths and held to their least and their most.
pub fn rows_in(
    limit: u32,
    sizes: [u8; 12],
    widths: &[u32],
    least: &[u32],
    most: &[u32],
    bytes: &[u8],
) -> Rows
    ensures { result ≡ put_rows widths.now least.now most.now
        (take (count_of (row_size (table_row sizes)) (length bytes.now)) (entries_from (table_row sizes) limit bytes.now)) no_rows }
{
    let size = row_size(sizes);
    let count = count_of(size, bytes.len());
    let mut rows = record_fields::no_rows();
    for i in 0..count.min(limit as usize) {
        let numbers = numbers_at(i * size, sizes, bytes);
        rows = record_fields::put_row(rows, numbers, widths, least, most);
    }
    rows
}

// Numbers as a row at the start of the bytes; 13 where they are too few.
pub fn put_numbers(numbers: [u32; 12], sizes: [u8; 12], bytes: &mut [u8]) -> Put
    ensures value { result ≡ put_by (table_row sizes) bytes.old }
    ensures bytes_after { bytes.new ≡ row_after (table_row sizes) numbers bytes.old }
{
    if bytes.len() < row_size(sizes) {
        return Put::Refused(13);
    }
    let mut next = 0;
    for i in 0..12 {
        let size = size_of(sizes[i]);
        put_number(numbers[i] as u64, size, next, bytes);
        next += size;
    }
    Put::Done
}

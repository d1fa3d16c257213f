// A row of values, field by field: put in the widths of a table, and held to the least and the most of two others.
ghost use Rattle.std.specs.Prelude.{◌≡◌, get_or};
ghost use Rattle.record_fields.specs.Packing.{pushed_all};
ghost use Rattle.record_fields.specs.Tables.{row_out};

use crate::{Packer, push};

// A table's element, or 0 past the last.
pub(crate) fn item(table: &[u32], i: usize) -> u32
    ensures { result ≡ get_or table.now i 0 }
{
    table.get(i).copied().unwrap_or(0)
}

// The values put one after the other in these widths; past the twelfth, zeros.
pub(crate) fn push_all(packer: Packer, values: [u32; 12], widths: &[u32]) -> Packer
    ensures { result ≡ pushed_all widths.now values packer }
{
    let mut p = packer;
    for (i, &width) in widths.iter().enumerate() {
        p = push(p, width, item(&values, i));
    }
    p
}

// A value is under its least or over its most; a value past the table of the most has no range.
pub fn row_out(values: [u32; 12], least: &[u32], most: &[u32]) -> bool
    ensures { result ≡ row_out least.now most.now values }
{
    // kept: a loop for `any`, whose closure calls `item` twice: the library's rules of chains find no proof of it.
    for (i, &m) in most.iter().enumerate() {
        let v = item(&values, i);
        if v < item(least, i) || v > m {
            return true;
        }
    }
    false
}

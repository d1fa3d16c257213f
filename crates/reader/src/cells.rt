// The buffer of a reader: 1280 bits in forty cells, the highest bit of a cell first. The bits held are the newest ones, those before bit `end`.
ghost use Rattle.std.specs.Prelude.{◌≡◌, ◌+◌, ◌/◌, ◌%◌, ◌^◌, ◌<◌, ◌≤◌, length, take, drop, slice_index};
ghost use Rattle.bits.specs.Bits.{number};
ghost use Rattle.reader.specs.Cells.{cell_bits, pair_at, put_cells, down_cells, room_end, pushed_cells};
ghost use Rattle.reader.specs.Five.{put_thirty};

// A cell, or 0 past the last.
fn cell(cells: &[u32; 40], j: usize) -> u64
    requires { length cells.now ≡ 40 }
    ensures { result ≡ slice_index cells.now j % 2 ^ 32 }
{
    u64::from(cells.get(j).copied().unwrap_or(0))
}

// The cell that has a bit and the one after it, as one number.
pub(crate) fn pair(cells: &[u32; 40], bit: usize) -> u64
    requires { length cells.now ≡ 40 }
    ensures { result ≡ pair_at cells.now (bit / 32) }
{
    cell(cells, bit / 32) * 4294967296 + cell(cells, bit / 32 + 1)
}

// Thirty-two bits from a bit of the buffer on.
pub(crate) fn window(cells: &[u32; 40], bit: usize) -> u32
    requires { (length cells.now ≡ 40) × (bit + 32 ≤ 1280) }
    ensures { result ≡ number (take 32 (drop bit (cell_bits cells.now))) }
{
    let off = (bit % 32) as u32;
    ((pair(cells, bit) >> (32 - off)) % 4294967296) as u32
}

// Six bits put in at bit `end`; the bits after them in the two cells are 0.
fn put(cells: &mut [u32; 40], end: usize, six: u32)
    requires { (length cells.old ≡ 40) × (end ≤ 1216) × (six < 64) }
    ensures { cells.new ≡ put_cells cells.old end six }
{
    let j = end / 32;
    let off = (end % 32) as u32;
    let kept = u64::from(cells[j]) >> (32 - off);
    let both = (kept * 64 + u64::from(six)) << (58 - off);
    cells[j] = (both / 4294967296) as u32;
    cells[j + 1] = (both % 4294967296) as u32;
}

// Thirty bits put in from bit `end` on: the cells are those that `put` leaves five times.
pub(crate) fn put_five(cells: &mut [u32; 40], end: usize, thirty: u32)
    requires { (length cells.old ≡ 40) × (end ≤ 1192) × (thirty < 2 ^ 30) }
    ensures { cells.new ≡ put_thirty cells.old end thirty }
{
    let j = end / 32;
    let off = (end % 32) as u32;
    let kept = u64::from(cells[j]) >> (32 - off);
    let both = (kept * 1073741824 + u64::from(thirty)) << (34 - off);
    cells[(end + 24) / 32 + 1] = 0;
    cells[j] = (both / 4294967296) as u32;
    cells[j + 1] = (both % 4294967296) as u32;
}

// Six bits pushed, and where they end; near the end of the buffer the cells that are still needed move down first.
pub(crate) fn push(cells: &mut [u32; 40], end: usize, held: usize, six: u32) -> usize
    requires { (length cells.old ≡ 40) × (end ≤ 1280) × (held ≤ end) × (held ≤ 991) × (six < 64) }
    ensures { (result ≡ room_end end held + 6) × (cells.new ≡ pushed_cells cells.old end held six) }
{
    if end <= 1216 {
        put(cells, end, six);
        return end + 6;
    }
    let k = (end - held) / 32;
    cells.copy_within(k.., 0);
    put(cells, end - 32 * k, six);
    end - 32 * k + 6
}

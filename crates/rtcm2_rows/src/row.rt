// What rows of every kind share: how many there are, and a byte of them.
ghost use Rattle.std.specs.Prelude.{◌≡◌, cond, ℕ, ◌++◌, ◌+◌, ◌≤◌, ◌<◌, ltb, length, take, drop, get_or};
ghost use Rattle.rtcm2_rows.specs.declared.row.Put.TheVariants.{Done, Refused};
ghost use Rattle.rtcm2_rows.specs.Rows.{count_of};

use std::array;

// A row was put, or the refusal's number.
#[derive(Clone, Copy)]
pub enum Put {
    Done,
    Refused(u8),
}

// How many rows of `size` bytes are `length` bytes; 0 where they are no whole number of rows.
#[tactic(auto, unfolding(crate::specs::Rows::count_of))]
pub fn count_of(size: usize, length: usize) -> usize
    ensures { result ≡ count_of size length }
{
    if size == 0 {
        return 0;
    }
    if length % size != 0 {
        return 0;
    }
    length / size
}

// As many bytes as a row has, from `at` on; past the last there are zeros.
pub(crate) fn row_at<const N: usize>(bytes: &[u8], at: usize) -> [u8; N]
    requires { at + N ≤ 744 }
    ensures len { length result ≡ N }
    ensures each { (j : ℕ) → j < N → get_or result j 0 ≡ get_or (take N (drop at bytes.now)) j 0 }
{
    array::from_fn(|j| bytes.get(at + j).copied().unwrap_or(0))
}

// Puts a row at the start of the bytes; 13 where they are too few.
pub(crate) fn put_row<const N: usize>(row: [u8; N], bytes: &mut [u8]) -> Put
    ensures value { result ≡ cond (ltb (length bytes.old) N) (Refused 13) Done }
    ensures bytes_after { bytes.new ≡ cond (ltb (length bytes.old) N) bytes.old (row.entry ++ drop N bytes.old) }
{
    let Some(start) = bytes.first_chunk_mut::<N>() else {
        return Put::Refused(13);
    };
    *start = row;
    Put::Done
}

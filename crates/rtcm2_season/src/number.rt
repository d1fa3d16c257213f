// A number as bytes, the low one first, and a signed number of 64 bits as its code in two's complement, and back.
ghost use Rattle.std.specs.Prelude.{◌≡◌, ◌+◌, ◌^◌, ◌<◌, ◌≤◌, length, take, drop};
ghost use Rattle.std.specs.Int.Signed.{mag};
ghost use Rattle.std.proofs.lemmas.List.Edits.{sets};
ghost use Rattle.bits.specs.Signed.{signed as signed_of, code as code_of};
ghost use Rattle.rtcm2_state.specs.Numbers.{low_bytes, number_in};

// The signed number of a code.
#[tactic(auto, unfolding(bits::specs::Signed::signed))]
pub(crate) fn signed64(n: u64) -> i64
    ensures { (result ≡ signed_of 63 n) × (mag result < 2 ^ 63) }
{
    n.cast_signed()
}

// The code of a signed number.
#[tactic(auto, unfolding(bits::specs::Signed::code))]
pub(crate) fn code64(z: i64) -> u64
    ensures { result ≡ code_of 63 z }
{
    z.cast_unsigned()
}

// The number of `size` bytes from `at` on.
// kept: rtcm2_rows has the same two: a public function asks nothing of its callers, and these ask for room
pub(crate) fn number_at(at: usize, size: usize, bytes: &[u8]) -> u64
    requires { (at + size ≤ length bytes.now) × (size ≤ 8) }
    ensures { result ≡ number_in (take size (drop at bytes.now)) }
{
    let mut eight = [0; 8];
    eight[..size].copy_from_slice(&bytes[at..at + size]);
    u64::from_le_bytes(eight)
}

// Puts the `size` low bytes of a number from `at` on.
pub(crate) fn put_number(n: u64, size: usize, at: usize, bytes: &mut [u8])
    requires { (at + size ≤ length bytes.old) × (size ≤ 8) }
    ensures { bytes.new ≡ sets bytes.old at (low_bytes size n) }
{
    bytes[at..at + size].copy_from_slice(&n.to_le_bytes()[..size]);
}

// A number as four bytes, low byte first.
ghost use Rattle.std.specs.Prelude.{◌≡◌, ◌+◌, ◌≤◌, length, take, drop};
ghost use Rattle.std.proofs.lemmas.List.Edits.{sets};
ghost use Rattle.rtcm2_state.specs.Numbers.{low_bytes, number_in};

// The number whose four bytes stand from `at` on.
pub(crate) fn number_at(at: usize, bytes: &[u8]) -> u32
    requires { at + 4 ≤ length bytes.now }
    ensures { result ≡ number_in (take 4 (drop at bytes.now)) }
{
    u32::from_le_bytes([bytes[at], bytes[at + 1], bytes[at + 2], bytes[at + 3]])
}

// Puts the four low bytes of a number from `at` on.
pub(crate) fn put_number(n: usize, at: usize, bytes: &mut [u8])
    requires { at + 4 ≤ length bytes.old }
    ensures { bytes.new ≡ sets bytes.old at (low_bytes 4 n) }
{
    bytes[at..at + 4].copy_from_slice(&n.to_le_bytes()[..4]);
}

// Powers of two, and two's complement over the width.
ghost use Rattle.std.specs.Prelude.{◌≡◌, ◌+◌, ◌≤◌, ◌<◌, ◌^◌};
ghost use Rattle.std.specs.Int.Signed.{mag};
ghost use Rattle.bits.specs.Signed.{signed as signed_of, code as code_of};

// Two to the k.
pub(crate) fn pow(k: u32) -> u64
    requires { k < 64 }
    ensures { (result ≡ 2 ^ k) × (0 < result) }
{
    1u64 << k
}

// The number that a code of `half` + 1 bits means.
pub(crate) fn signed(n: u32, half: u32) -> i64
    requires { (half ≤ 31) × (n < 2 ^ (half + 1)) }
    ensures { result ≡ signed_of half n }
{
    let x = n as i64;
    if u64::from(n) < pow(half) {
        return x;
    }
    x - (pow(half + 1) as i64)
}

// The code of `half` + 1 bits of a number.
pub(crate) fn code(z: i64, half: u32) -> u32
    requires { (half ≤ 31) × (mag z < 2 ^ half) }
    ensures { result ≡ code_of half z }
{
    if z < 0 {
        return (z + (pow(half + 1) as i64)) as u32;
    }
    z as u32
}

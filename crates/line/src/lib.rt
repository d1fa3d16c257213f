// The 6-of-8 form: a byte of the line and the six line bits that it carries, the lowest sent first.
#![tactic(auto)]

ghost use Rattle.std.specs.Prelude.{◌≡◌, reverse, ◌<◌};
ghost use Rattle.bits.specs.Bits.{bits, number};
ghost use Rattle.line.specs.Line.{byte_of};
ghost use Rattle.line.specs.Answer.{six_of};

use answer::Refusal;

// The six lowest bits in the other order, one step for each: a byte has the first sent lowest, a number highest.
fn mirrored(x: u32) -> u32
    ensures { (result ≡ number (reverse (bits 6 x))) × (result < 64) }
{
    // the lowest bit of the byte is sent first
    let first = x % 2;
    let second = x / 2 % 2;
    let third = x / 4 % 2;
    let fourth = x / 8 % 2;
    let fifth = x / 16 % 2;
    // the highest of the six is sent last
    let sixth = x / 32 % 2;
    first * 32 + second * 16 + third * 8 + fourth * 4 + fifth * 2 + sixth
}

// The line bits of a byte as a number, the first sent highest; one without top bits 01 carries none. Refusal: 1.
pub fn six_of(byte: u8) -> Result<u32, Refusal>
    ensures { result ≡ six_of byte }
{
    if byte / 64 != 1 {
        return Err(Refusal::NoDataByte);
    }
    Ok(mirrored(byte as u32))
}

// The data byte that carries the six lowest bits of `six`.
pub fn byte_of(six: u32) -> u8
    ensures { result ≡ byte_of (bits 6 six) }
{
    (64 + mirrored(six)) as u8
}

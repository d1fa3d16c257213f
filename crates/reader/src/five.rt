// Five bytes of the line at once, as one number: their thirty line bits. `line::six_of` has the six of one byte, a step for each bit.
ghost use Rattle.std.specs.Prelude.{◌≡◌, ◌+◌, ◌^◌, ◌<◌, ◌≤◌, length};
ghost use Rattle.reader.specs.Five.{five_bytes, bytes_from, all_data, sixes_in, sixes_of};

// Five bytes as one number, the first lowest.
pub(crate) fn joined(bytes: &[u8], at: usize) -> u64
    requires { at + 5 ≤ length bytes.now }
    ensures { (result < 2 ^ 40) × (five_bytes result ≡ bytes_from 5 bytes.now at) }
{
    u64::from_le_bytes([
        bytes[at],
        bytes[at + 1],
        bytes[at + 2],
        bytes[at + 3],
        bytes[at + 4],
        0,
        0,
        0,
    ])
}

// Whether each of five bytes carries line bits: its top bits are 01.
pub(crate) fn all_data(five: u64) -> bool
    requires { five < 2 ^ 40 }
    ensures { result ≡ all_data (five_bytes five) }
{
    five & 0xC0C0C0C0C0 == 0x4040404040
}

// The thirty line bits of five bytes, the first sent highest: the bits of each byte turned round, neighbours first, then pairs, then fours; of each
// the upper six, pushed together.
pub(crate) fn thirty_of(five: u64) -> u32
    requires { five < 2 ^ 40 }
    ensures { (result < 2 ^ 30) × (sixes_of result ≡ sixes_in (five_bytes five)) }
{
    let pairs = ((five >> 1) & 0x5555555555) ^ ((five & 0x5555555555) << 1);
    let fours = ((pairs >> 2) & 0x3333333333) ^ ((pairs & 0x3333333333) << 2);
    let round = ((fours >> 4) & 0x0F0F0F0F0F) ^ ((fours & 0x0F0F0F0F0F) << 4);
    let sixes = (round >> 2) & 0x3F3F3F3F3F;
    let first = ((sixes & 0x3F) << 24) ^ ((sixes & 0x3F00) << 10);
    let last = ((sixes & 0x3F0000) >> 4) ^ (((sixes & 0x3F000000) >> 18) ^ (sixes >> 32));
    (first ^ last) as u32
}

// The thirty-bit word: its test, its remainder, its data bits, and the word to send.
#![tactic(auto)]

mod entries;

ghost use Rattle.std.specs.Prelude.{◌≡◌, false, [], ◌+◌, ◌%◌};
ghost use Rattle.std.specs.Int.Bits.{bit_and};
ghost use Rattle.std.specs.Int.Count.{ones};
ghost use Rattle.bits.specs.Bits.{bits, number};
ghost use Rattle.word.specs.Word.{d29*, d30*, parity, data_of, turned_by};
ghost use Rattle.word.specs.Answer.{tested_by, remainder_at, word_of};

use crate::entries::{FIRST, FOURTH, SECOND, THIRD, entry};
use answer::Refusal;

// The data bits in the equation of each parity bit, d1 highest.
const D25: u32 = 0b111011_000111_110011_010010;

const D26: u32 = 0b011101_100011_111001_101001;

const D27: u32 = 0b101110_110001_111100_110100;

const D28: u32 = 0b010111_011000_111110_011010;

const D29: u32 = 0b101011_101100_011111_001101;

const D30: u32 = 0b001011_011110_101000_100111;

// One exactly when an odd number of the data bits that the mask keeps and the carried bit, the lowest of `carried`, are ones.
fn odd_of(data: u32, mask: u32, carried: u32) -> u32
    ensures { result ≡ (ones (bit_and «data» mask) + carried % 2) % 2 }
{
    ((data & mask).count_ones() + carried % 2) % 2
}

// THE SIX EQUATIONS: D25 to D30, D25 highest, of the 24 lowest bits of `data` after the two lowest of `carried`, D29* and D30*.
fn parity_of(carried: u32, data: u32) -> u32
    ensures { result ≡ number (parity (d29* (bits 2 carried)) (d30* (bits 2 carried)) (bits 24 «data»)) }
{
    let d29 = carried / 2;
    let d30 = carried;
    // kept: a line for each equation of the rules; a fold over masks and bits would hide which bit stands where
    let p25 = odd_of(data, D25, d29);
    let p26 = odd_of(data, D26, d30);
    let p27 = odd_of(data, D27, d29);
    let p28 = odd_of(data, D28, d30);
    let p29 = odd_of(data, D29, d30);
    let p30 = odd_of(data, D30, d29);
    p25 * 32 + p26 * 16 + p27 * 8 + p28 * 4 + p29 * 2 + p30
}

// The 24 lowest bits of `data`, turned over where D30* is one.
fn turned_by(carried: u32, data: u32) -> u32
    ensures { result ≡ number (turned_by (d30* (bits 2 carried)) (bits 24 «data»)) }
{
    (data % 16777216) ^ (carried % 2 * 16777215)
}

// The data bits of a window with polarity undone, d1 highest.
pub fn data_of(window: u32) -> u32
    ensures { result ≡ number (data_of (bits 32 window)) }
{
    turned_by(window / 1073741824, window / 64)
}

// What the 24 lowest bits of `data` give alone, after carried bits 00: the entries of their four sixes, combined.
fn data_part(data: u32) -> u32
    ensures { result ≡ number (parity false false (bits 24 «data»)) }
{
    entry(&FIRST, data / 262144)
        ^ (entry(&SECOND, data / 4096) ^ (entry(&THIRD, data / 64) ^ entry(&FOURTH, data)))
}

// What the two lowest bits of `carried`, D29* and D30*, give alone.
fn carried_part(carried: u32) -> u32
    ensures { result ≡ number (parity (d29* (bits 2 carried)) (d30* (bits 2 carried)) []) }
{
    (carried / 2 % 2 * 0b101001) ^ (carried % 2 * 0b010110)
}

// Received parity xor computed parity, D25 highest: zero where the window passes. The tables agree with the six equations.
pub fn remainder(window: u32) -> u32
    ensures { result ≡ remainder_at window }
{
    (window % 64) ^ (carried_part(window / 1073741824) ^ data_part(data_of(window)))
}

// THE WORD TEST: passed where the remainder is zero, else failed with it.
pub fn test(window: u32) -> Result<(), u32>
    ensures { result ≡ tested_by (bits 32 window) }
{
    match remainder(window) {
        0 => Ok(()),
        r => Err(r),
    }
}

// D1 to D30 for the data after the carried bits D29* D30*.
pub fn word_of(carried: u32, data: u32) -> Result<u32, Refusal>
    ensures { result ≡ word_of carried «data» }
{
    if carried >= 4 || data >= 16777216 {
        return Err(Refusal::Width);
    }
    Ok(turned_by(carried, data) * 64 + parity_of(carried, data))
}

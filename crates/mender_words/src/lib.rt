// The mender's word: one turned bit of a kept window is turned back.
#![tactic(auto)]

ghost use Rattle.std.specs.Prelude.{◌≡◌, true, ◌-◌, ◌^◌, ◌<◌};
ghost use Rattle.bits.specs.Bits.{bits, odd};
ghost use Rattle.mender_words.specs.Words.{place_of, mended_by, mended_to};

// What mending finds: a window that passes, one with a bit turned back, or one that can't be mended.
#[derive(Clone, Copy, Debug, PartialEq, Eq)]
pub enum MendedWord {
    Sound,
    Mended(u32),
    Broken,
}

// The bit whose own remainder this is, alone in a window. Each of the 32 is tried, D29* first.
fn bit_of(remainder: u32) -> u32
    requires { (remainder < 64) × (odd (bits 6 remainder) ≡ true) }
    ensures { result ≡ 2 ^ (31 - place_of remainder) }
{
    for place in 0..32u32 {
        let bit: u32 = 1 << (31 - place);
        if word::remainder(bit) == remainder {
            return bit;
        }
    }
    unreachable!()
}

// MENDS A WINDOW: an odd remainder names the bit to turn back; with an even one that is not zero the window is broken.
pub fn mend_word(window: u32) -> MendedWord
    ensures { result ≡ mended_by window }
{
    let Err(remainder) = word::test(window) else {
        return MendedWord::Sound;
    };
    if remainder.count_ones() % 2 == 0 {
        return MendedWord::Broken;
    }
    MendedWord::Mended(window ^ bit_of(remainder))
}

// The window after mending; one that is broken stays.
#[tactic(auto, unfolding(crate::specs::Words::mended_to))]
pub fn mended(window: u32) -> u32
    ensures { result ≡ mended_to window }
{
    match mend_word(window) {
        MendedWord::Sound => window,
        MendedWord::Mended(whole) => whole,
        MendedWord::Broken => window,
    }
}

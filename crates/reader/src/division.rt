// The word test by division, where nothing but whether a word passes is asked.
ghost use Rattle.std.specs.Prelude.{◌≡◌};
ghost use Rattle.bits.specs.Bits.{bits};
ghost use Rattle.word.specs.Word.{passes as passes_word};

use crate::taking::left_over;

// A word passes: nothing is left of it, nor of the zeros beside it.
pub fn passes(window: u32) -> bool
    ensures { result ≡ passes_word (bits 32 window) }
{
    left_over(window, 0) == 0
}

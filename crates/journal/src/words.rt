// Words as they are kept with their carried bits: written, tested, and their data.
ghost use Rattle.std.specs.Prelude.{◌≡◌, ◌+◌, ◌*◌, ◌%◌, ◌^◌, ◌≤◌, ◌<◌, length, drop};
ghost use Rattle.std.proofs.lemmas.List.Edits.{sets};
ghost use Rattle.frame.specs.Frames.{Below};
ghost use Rattle.journal.specs.Bytes.{written, words_from};
ghost use Rattle.journal.specs.Words.{pair_numbered, window_of, windows_from, data_in, broken_after};

use crate::form::{WORDS, put_word};
use frame::Carried;

// Where the carried bits of a kept word begin.
pub(crate) const CARRIED: u32 = 1073741824;

// The carried bits that a number of two bits writes, D29* the higher.
pub(crate) fn pair_of(carried: u32) -> Carried
    requires { carried < 4 }
    ensures { result ≡ pair_numbered carried }
{
    Carried {
        d29: (carried / 2) as u8,
        d30: (carried % 2) as u8,
    }
}

// A word as it is kept: the carried bits, then its thirty after them.
pub(crate) fn window_of(carried: u32, data: u32) -> u32
    requires carried_bound { carried < 4 }
    requires data_bound { «data» < 2 ^ 24 }
    ensures { result ≡ window_of carried «data» }
{
    // no pair and no data within its width is refused
    let Ok(word) = word::word_of(carried, data) else {
        return carried;
    };
    carried * CARRIED + word
}

// The last two bits of a word as it is kept, which the next is sent after: by themselves, so that the next need not wait for the rest.
fn pair_after(carried: u32, data: u32) -> u32
    requires carried_bound { carried < 4 }
    requires data_bound { «data» < 2 ^ 24 }
    ensures { result ≡ window_of carried «data» % 4 }
{
    window_of(carried, data) % 4
}

// Writes words as they are kept, each after the last two bits of the one before, from `at` on.
pub(crate) fn put_windows(words: &[u32], carried: u32, at: usize, buffer: &mut [u8])
    requires below { Below words.now }
    requires carried_bound { carried < 4 }
    requires in_bounds { at + 4 * length words.now ≤ length buffer.old }
    ensures { buffer.new ≡ sets buffer.old at (written 4 (windows_from carried words.now)) }
{
    let mut pair = carried;
    for (i, word) in words.iter().enumerate() {
        put_word(window_of(pair, *word), 4, at + 4 * i, buffer);
        pair = pair_after(pair, *word);
    }
}

// Of `count` kept words after the carried bits: some do not repeat the two bits before them, or fail parity.
pub(crate) fn is_broken(count: usize, carried: u32, bytes: &[u8]) -> bool
    requires { (count ≤ 33) × (4 * count + 3 ≤ length bytes.now) }
    ensures { result ≡ broken_after carried (words_from 4 count (drop 3 bytes.now)) }
{
    let mut pair = carried;
    for i in 0..count {
        let window = WORDS.word(i, bytes);
        if window / CARRIED != pair {
            return true;
        }
        let Ok(()) = word::test(window) else {
            return true;
        };
        pair = window % 4;
    }
    false
}

// Kept words turned into their data.
pub(crate) fn receive(words: &mut [u32])
    ensures { words.new ≡ data_in words.old }
{
    for word in words.iter_mut() {
        *word = word::data_of(*word);
    }
}

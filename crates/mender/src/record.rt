// The record at a mark: which N counts, where it ends, and its bytes after mending.
ghost use Rattle.std.specs.Prelude.{◌≡◌, ◌+◌, ◌*◌, ◌≤◌, map, length, take, drop};
ghost use Rattle.std.proofs.lemmas.List.Edits.{sets};
ghost use Rattle.journal.specs.Bytes.{bytes_of, word_in, written, words_from};
ghost use Rattle.mender_words.specs.Words.{mended_to};
ghost use Rattle.mender.specs.Records.{count_of, extent_of, record_for};

use mender_words::MendedWord;

// Why it is not known where a record ends: it is cut short, or its N is over 31.
#[derive(Clone, Copy, Debug, PartialEq, Eq)]
pub(crate) enum NoEnd {
    Cut,
    Numberless,
}

// The word whose four bytes stand from `at` on.
fn window_at(at: usize, bytes: &[u8]) -> u32
    requires { at + 4 ≤ length bytes.now }
    ensures { result ≡ word_in (take 4 (drop at bytes.now)) }
{
    let mut word = [0; 4];
    word.copy_from_slice(&bytes[at..at + 4]);
    u32::from_be_bytes(word)
}

// Writes the four bytes of a word from `at` on.
fn put_window(window: u32, at: usize, buffer: &mut [u8])
    requires { at + 4 ≤ length buffer.old }
    ensures { buffer.new ≡ sets buffer.old at (bytes_of 4 window) }
{
    buffer[at..at + 4].copy_from_slice(&window.to_be_bytes());
}

// N of the record at the start of the bytes: as word 2 says it where it is sound or mended, else the N byte.
fn count_of(bytes: &[u8]) -> usize
    requires { 11 ≤ length bytes.now }
    ensures { result ≡ count_of bytes.now }
{
    let second = window_at(7, bytes);
    match mender_words::mend_word(second) {
        MendedWord::Sound => frame::n_of(word::data_of(second)),
        MendedWord::Mended(whole) => frame::n_of(word::data_of(whole)),
        MendedWord::Broken => bytes[2] as usize,
    }
}

// N of the record at the start of the bytes, which are all there; or why there is none.
#[tactic(auto, unfolding(crate::specs::Records::extent_of))]
pub(crate) fn extent_of(bytes: &[u8]) -> Result<usize, NoEnd>
    ensures { result ≡ extent_of bytes.now }
{
    if bytes.len() < 11 {
        return Err(NoEnd::Cut);
    }
    let n = count_of(bytes);
    if n > 31 {
        return Err(NoEnd::Numberless);
    }
    if bytes.len() < 4 * n + 11 {
        return Err(NoEnd::Cut);
    }
    Ok(n)
}

// Writes `count` words from byte 3 on, each mended.
fn put_words(count: usize, bytes: &[u8], copy: &mut [u8])
    requires count_bound { count ≤ 33 }
    requires count_in_bounds { (3 + 4 * count ≤ length bytes.now) × (3 + 4 * count ≤ length copy.old) }
    ensures { copy.new ≡ sets copy.old 3 (written 4 (map mended_to (words_from 4 count (drop 3 bytes.now)))) }
{
    for i in 0..count {
        let at = 3 + 4 * i;
        let window = window_at(at, bytes);
        put_window(mender_words::mended(window), at, copy);
    }
}

// Writes the record of n after mending from the copy's start on.
pub(crate) fn put_record(n: usize, bytes: &[u8], copy: &mut [u8])
    requires n_bound { n ≤ 31 }
    requires n_in_bounds { (4 * n + 11 ≤ length bytes.now) × (4 * n + 11 ≤ length copy.old) }
    ensures { copy.new ≡ sets copy.old 0 (record_for n bytes.now) }
{
    copy[0] = 0x52;
    copy[1] = 0x34;
    copy[2] = n as u8;
    put_words(n + 2, bytes, copy);
}

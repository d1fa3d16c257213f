// What every form of record shares: a mark, N, and bytes for each of the N + 2 words.
ghost use Rattle.std.specs.Prelude.{◌≡◌, [], ◌∷◌, ◌+◌, ◌*◌, ◌-◌, ◌≤◌, length, take, drop};
ghost use Rattle.std.proofs.lemmas.List.Edits.{sets};
ghost use Rattle.journal.specs.Bytes.{bytes_of, word_in, words_from};
ghost use Rattle.journal.specs.Forms.{record_with, length_with, unmarked, start_by};

// A form of record: the second byte of its mark, and its bytes a word.
#[derive(Clone, Copy)]
pub(crate) struct Form {
    pub byte: u8,
    pub size: usize,
    ghost few: { size ≤ 4 },
}

// The form that keeps the data of the words.
pub(crate) const DATA: Form = Form {
    byte: 0x32,
    size: 3,
};

// The form that keeps the words: each as its two carried bits and its thirty, so that parity can tell what a disk altered.
pub(crate) const WORDS: Form = Form {
    byte: 0x34,
    size: 4,
};

// N of a whole record, or the refusal's number.
#[derive(Clone, Copy)]
pub(crate) enum Start {
    N(usize),
    Refused(u8),
}

// The first byte of every mark.
const MARK: u8 = 0x52;

// Writes a word's lowest bytes from `at` on, highest bits first.
pub(crate) fn put_word(word: u32, size: usize, at: usize, buffer: &mut [u8])
    requires { (size ≤ 4) × (at + size ≤ length buffer.old) }
    ensures { buffer.new ≡ sets buffer.old at (bytes_of size word) }
{
    buffer[at..at + size].copy_from_slice(&word.to_be_bytes()[4 - size..]);
}

// The word whose bytes stand from `at` on.
fn word_at(size: usize, at: usize, bytes: &[u8]) -> u32
    requires { (size ≤ 4) × (at + size ≤ length bytes.now) }
    ensures { result ≡ word_in (take size (drop at bytes.now)) }
{
    let mut word = [0; 4];
    word[4 - size..].copy_from_slice(&bytes[at..at + size]);
    u32::from_be_bytes(word)
}

impl Form {
    // Writes a record's mark, N and words 1 and 2 from the buffer's start on.
    pub(crate) fn put_start(self, n: usize, first: u32, second: u32, buffer: &mut [u8])
        requires { (n ≤ 31) × (length_with self.size 0 ≤ length buffer.old) }
        ensures { buffer.new ≡ sets buffer.old 0 (record_with self.byte self.size n (first ∷ second ∷ [])) }
    {
        let size = self.size;
        buffer[..3].copy_from_slice(&[MARK, self.byte, n as u8]);
        put_word(first, size, 3, buffer);
        put_word(second, size, 3 + size, buffer);
    }

    // Writes a record of N and its words from the buffer's start on.
    pub(crate) fn put(self, first: u32, second: u32, words: &[u32], buffer: &mut [u8])
        requires { (length words.now ≤ 31) × (length_with self.size (length words.now) ≤ length buffer.old) }
        ensures { buffer.new
            ≡ sets buffer.old 0 (record_with self.byte self.size (length words.now) (first ∷ second ∷ words.now)) }
    {
        let size = self.size;
        self.put_start(words.len(), first, second, buffer);
        for (i, word) in words.iter().enumerate() {
            put_word(*word, size, 3 + 2 * size + size * i, buffer);
        }
    }

    // The bytes do not begin with this form's mark.
    fn is_unmarked(self, bytes: &[u8]) -> bool
        ensures { result ≡ unmarked self.byte bytes.now }
    {
        !bytes.starts_with(&[MARK, self.byte])
    }

    // N of the record of this form at the start of the bytes. Order 14, 15, 16, 15.
    pub(crate) fn start_of(self, bytes: &[u8]) -> Start
        ensures { result ≡ start_by self.byte self.size bytes.now }
    {
        if self.is_unmarked(bytes) {
            return Start::Refused(14);
        }
        if bytes.len() < 3 {
            return Start::Refused(15);
        }
        let n = bytes[2] as usize;
        if n > 31 {
            return Start::Refused(16);
        }
        if bytes.len() < self.size * n + (2 * self.size + 3) {
            return Start::Refused(15);
        }
        Start::N(n)
    }

    // Word i of a whole record.
    pub(crate) fn word(self, i: usize, bytes: &[u8]) -> u32
        requires { (i ≤ 32) × (3 + self.size * i + self.size ≤ length bytes.now) }
        ensures { result ≡ word_in (take self.size (drop (3 + self.size * i) bytes.now)) }
    {
        word_at(self.size, 3 + self.size * i, bytes)
    }

    // The data words of a whole record, one for each place.
    pub(crate) fn words_at(self, bytes: &[u8], words: &mut [u32])
        requires { (length words.old ≤ 31) × (length_with self.size (length words.old) ≤ length bytes.now) }
        ensures { words.new ≡ words_from self.size (length words.old) (drop (3 + 2 * self.size) bytes.now) }
    {
        let size = self.size;
        for (i, word) in words.iter_mut().enumerate() {
            *word = word_at(size, 3 + 2 * size + size * i, bytes);
        }
    }
}

// The checks that the reader's calls share: 5, 3, 2.
ghost use Rattle.std.specs.Prelude.{◌≡◌, if◌then◌else◌};
ghost use Rattle.reader.specs.Reading.{past_of, ready_of};

use crate::Candidate;

// Whether a reader takes bits.
#[derive(Clone, Copy)]
pub(crate) enum Ready {
    Yes,
    Refused(u8),
}

// The most bits that can be held.
fn most(waits: bool) -> usize
    ensures { result ≡ (if waits then 997 else 991) }
{
    if waits {
        return 997;
    }
    991
}

// The counts go past what a reader can hold.
pub fn past(c: Candidate) -> bool
    ensures { result ≡ past_of c }
{
    let held = c.held;
    let words = c.words;
    if 1280 < c.end {
        return true;
    }
    if c.end < held {
        return true;
    }
    if most(c.waits) < held {
        return true;
    }
    if words == 0 {
        return false;
    }
    if 32 < words {
        return true;
    }
    held < 2 + 30 * words
}

// Whether a reader takes bits: 5, 3, 2.
pub(crate) fn readiness(c: Candidate, ended: bool) -> Ready
    ensures { result ≡ ready_of c ended }
{
    if past(c) {
        return Ready::Refused(5);
    }
    if ended {
        return Ready::Refused(3);
    }
    if c.waits {
        return Ready::Refused(2);
    }
    Ready::Yes
}

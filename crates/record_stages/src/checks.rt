// The checks of making before a frame's words: the header and the number of entries, and the number for an entry that can't be sent.
ghost use Rattle.std.specs.Prelude.{◌≡◌};
ghost use Rattle.record_stages.specs.Stages.{suited_by, entry_refusal};

use crate::{Asked, asked_of};
use frame::{Header, Layout};

// Whether a header and a number of entries suit a layout, or the refusal's number.
#[derive(Clone, Copy)]
pub(crate) enum Suited {
    Yes,
    Refused(u8),
}

// Whether a header suits a layout, and a number of entries is 1 to the most that a frame of it has: 5, 6, 7, 12.
pub(crate) fn suits(layout: Layout, header: Header, most: usize, count: usize) -> Suited
    ensures { result ≡ suited_by layout header most count }
{
    let Ok(()) = frame::header_widths(header) else {
        return Suited::Refused(5);
    };
    let Asked::Same = asked_of(layout, header.kind) else {
        return Suited::Refused(6);
    };
    let Ok(()) = frame::clock_of(header.z) else {
        return Suited::Refused(7);
    };
    if count == 0 || count > most {
        return Suited::Refused(12);
    }
    Suited::Yes
}

// The refusal of an entry that can't be sent: 11 for a character of a text, else 10.
pub(crate) fn entry_refusal(layout: Layout) -> u8
    ensures { result ≡ entry_refusal layout }
{
    match layout {
        Layout::Text => 11,
        _ => 10,
    }
}

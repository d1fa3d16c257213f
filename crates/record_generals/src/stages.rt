// The stages of reading a list: the system, the words that it needs, and the width of the delay.
ghost use Rattle.std.specs.Prelude.{◌≡◌, ◌≤◌};
ghost use Rattle.bits.specs.Fields.{fields_at};
ghost use Rattle.bits.specs.Rows.{data_bits};
ghost use Rattle.record_generals.specs.Generals.{known_of, list_size, delay_width, head_widths, head_meant, staged_by};

use crate::rows::HEAD_WIDTHS;
use crate::{GeneralHead, Staged};
use answer::Refusal;
use frame::{Frame, Layout};
use record_stages::Asked;

// Whether a system is one of the four: 1 GPS, 2 GLONASS, 5 QZSS, 6 BDS.
#[tactic(auto, unfolding(crate::specs::Generals::other_system))]
pub(crate) fn known_of(system: u8) -> Result<(), Refusal>
    ensures { result ≡ known_of system }
{
    match system {
        1 | 2 | 5 | 6 => Ok(()),
        _ => Err(Refusal::OtherSystem),
    }
}

// Whether N words may be a list at all: not without a word, and not with one of type 41.
fn list_size(kind: u8, n: usize) -> Result<(), Refusal>
    ensures { result ≡ list_size kind n }
{
    if n == 0 || (kind == 41 && n == 1) {
        return Err(Refusal::WordCount);
    }
    Ok(())
}

// The width of the delay: all that differs in the two layouts.
pub(crate) fn delay_width(ionosphere: u8) -> u32
    ensures { (result ≡ delay_width ionosphere) × (result ≤ 12) }
{
    if ionosphere == 0 { 0 } else { 12 }
}

// The head that the first word of the data says.
pub(crate) fn head_from(words: [u32; 31]) -> GeneralHead
    ensures { result ≡ head_meant (fields_at head_widths 0 (data_bits words)) }
{
    let row = record_fields::fields(words, 0, &HEAD_WIDTHS);
    GeneralHead {
        system: row[0] as u8,
        signal: row[1] as u8,
        ephemeris: row[2] as u8,
        period: row[3] as u8,
        ionosphere: row[4] as u8,
    }
}

// Whether a frame may hold a list, and the width of its delays: 5, 6, 7, 8, 23. Whether N is of that layout is asked after it.
pub(crate) fn staged_of(frame: Frame) -> Staged
    ensures { result ≡ staged_by frame }
{
    let Ok(()) = frame::frame_widths(frame) else {
        return Staged::Refused(5);
    };
    let header = frame.header;
    let Asked::Same = record_stages::asked_of(Layout::General, header.kind) else {
        return Staged::Refused(6);
    };
    let Ok(()) = frame::clock_of(header.z) else {
        return Staged::Refused(7);
    };
    let Ok(()) = list_size(header.kind, frame.n) else {
        return Staged::Refused(8);
    };
    let words = frame.words;
    let head = head_from(words);
    let Ok(()) = known_of(head.system) else {
        return Staged::Refused(23);
    };
    Staged::List(delay_width(head.ionosphere))
}

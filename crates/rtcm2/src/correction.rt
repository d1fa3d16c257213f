// Corrections of types 1, 9, 31 and 34: counted, read and made.
ghost use Rattle.std.specs.Prelude.{◌≡◌, length};
ghost use Rattle.frame.specs.Layout.{system_of};
ghost use Rattle.frame.specs.declared.System.TheVariants.{Gps};
ghost use Rattle.record_corrections.specs.Corrections.{make_corrections};
ghost use Rattle.rtcm2_rows.specs.Rows.{row_size, count_of, entries_from};
ghost use Rattle.rtcm2_rows.specs.Corrections.{row};
ghost use Rattle.rtcm2.specs.Answer.{number_of, left};
ghost use Rattle.rtcm2.specs.Header.{headed};
ghost use Rattle.rtcm2.specs.Frames.{frame_said, kept_to, held_to, size_to};
ghost use Rattle.rtcm2.specs.Rows.{row_to, row_held};
ghost use Rattle.rtcm2.specs.Lists.{count_said, entry_said, made_said};
ghost use Rattle.rtcm2.specs.Corrections.{correction_list};

use crate::header::Headed;
use frame::{Header, Layout};
use journal::Found;
use record_corrections::CorrectionRead;
use record_stages::Made;

// How many corrections a frame has. Order 14, 15, 16, 15, 16, then 6, 7, 8.
pub fn rtcm2_count_corrections(frame: &[u8], count: &mut usize) -> u8
    ensures value { result ≡ number_of (count_said correction_list (frame_said frame.now)) }
    ensures count_after { count.new ≡ left (count_said correction_list (frame_said frame.now)) (λ k. k) count.old }
{
    crate::rows::count_at(Layout::Correction, 0, 40, frame, count)
}

// Correction number `index` of a frame. Order 14, 15, 16, 15, 16, then 6, 7, 8, 9, 10, 13.
pub fn rtcm2_correction_at(frame: &[u8], index: usize, correction: &mut [u8]) -> u8
    ensures value { result ≡ number_of (row_to (row Gps) (entry_said correction_list (frame_said frame.now) index) correction.old) }
    ensures correction_after { correction.new ≡ row_held (row Gps) (entry_said correction_list (frame_said frame.now) index) correction.old }
{
    let recalled = journal::recall(frame);
    let answer = recalled.answer;
    if let Found::Refused(number) = answer {
        return number;
    }
    match record_corrections::correction_at(recalled.frame, index) {
        CorrectionRead::Entry(entry) => {
            crate::rows::number_of(rtcm2_rows::correction::put_correction(entry, correction))
        }
        CorrectionRead::Refused(number) => number,
    }
}

// The frame of a header and the corrections in these bytes, which are of its type's system.
fn made_of(header: Header, corrections: &[u8]) -> Made
    ensures { result ≡ make_corrections header (entries_from (row (system_of header.kind)) 18 corrections.now)
        (count_of (row_size (row Gps)) (length corrections.now)) }
{
    let count = rtcm2_rows::row::count_of(rtcm2_rows::correction::SIZE, corrections.len());
    let system = frame::system_of(header.kind);
    let entries = rtcm2_rows::correction::corrections_in(system, corrections);
    record_corrections::make_corrections(header, entries, count)
}

// Makes a frame of corrections. Order 5, 6, 7, 12, 10, 13.
pub fn rtcm2_make_corrections(
    kind: u8,
    station: u16,
    z: u16,
    sequence: u8,
    health: u8,
    corrections: &[u8],
    frame: &mut [u8],
    length: &mut usize,
) -> u8
    ensures value { result ≡ number_of (kept_to (made_said correction_list (headed kind station z sequence health) corrections.now) frame.old) }
    ensures frame_after { frame.new
        ≡ held_to (made_said correction_list (headed kind station z sequence health) corrections.now) frame.old }
    ensures length_after { length.new
        ≡ size_to (made_said correction_list (headed kind station z sequence health) corrections.now) frame.old length.old }
{
    match crate::header::header_of(kind, station, z, sequence, health) {
        Headed::Header(header) => crate::frames::keep_made(
            made_of(header, corrections),
            frame,
            length,
        ),
        Headed::Refused(number) => number,
    }
}

// Corrections of types 1, 9, 31 and 34: counted, read and made.
ghost use Rattle.std.specs.Prelude.{◌≡◌};
ghost use Rattle.frame.specs.declared.System.TheVariants.{Gps};
ghost use Rattle.rtcm2_rows.specs.Corrections.{row};
ghost use Rattle.rtcm2.specs.Answer.{number_of, left};
ghost use Rattle.rtcm2.specs.Header.{headed};
ghost use Rattle.rtcm2.specs.Frames.{frame_said, kept_to, held_to, size_to};
ghost use Rattle.rtcm2.specs.Rows.{row_to, row_held};
ghost use Rattle.rtcm2.specs.Lists.{count_said, entry_said, made_said};
ghost use Rattle.rtcm2.specs.Corrections.{correction_list};

// How many corrections a frame has. Order 14, 15, 16, 15, 16, then 6, 7, 8.
#[unsafe(no_mangle)]
pub extern "C" fn rtcm2_count_corrections(frame: &[u8], count: &mut usize) -> u8
    ensures value { result ≡ number_of (count_said correction_list (frame_said frame.now)) }
    ensures count_after { count.new ≡ left (count_said correction_list (frame_said frame.now)) (λ k. k) count.old }
{
    rtcm2::correction::rtcm2_count_corrections(frame, count)
}

// Correction number `index` of a frame. Order 14, 15, 16, 15, 16, then 6, 7, 8, 9, 10, 13.
#[unsafe(no_mangle)]
pub extern "C" fn rtcm2_correction_at(frame: &[u8], index: usize, correction: &mut [u8]) -> u8
    ensures value { result ≡ number_of (row_to (row Gps) (entry_said correction_list (frame_said frame.now) index) correction.old) }
    ensures correction_after { correction.new ≡ row_held (row Gps) (entry_said correction_list (frame_said frame.now) index) correction.old }
{
    rtcm2::correction::rtcm2_correction_at(frame, index, correction)
}

// Makes a frame of corrections. Order 5, 6, 7, 12, 10, 13.
#[unsafe(no_mangle)]
pub extern "C" fn rtcm2_make_corrections(
    kind: u8,
    station: u16,
    z: u16,
    sequence: u8,
    health: u8,
    corrections: &[u8],
    frame: &mut [u8],
    length: &mut usize,
) -> u8
    ensures value { result ≡ number_of (kept_to (made_said correction_list (headed kind station z sequence health) corrections.now) frame.old) }
    ensures frame_after { frame.new
        ≡ held_to (made_said correction_list (headed kind station z sequence health) corrections.now) frame.old }
    ensures length_after { length.new
        ≡ size_to (made_said correction_list (headed kind station z sequence health) corrections.now) frame.old length.old }
{
    rtcm2::correction::rtcm2_make_corrections(
        kind,
        station,
        z,
        sequence,
        health,
        corrections,
        frame,
        length,
    )
}

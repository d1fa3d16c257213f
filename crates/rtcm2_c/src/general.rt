// General corrections of types 41 and 42, and the null frame of type 42: counted, read and made.
ghost use Rattle.std.specs.Prelude.{◌≡◌};
ghost use Rattle.rtcm2_rows.specs.Generals.{row};
ghost use Rattle.rtcm2.specs.Answer.{number_of, left};
ghost use Rattle.rtcm2.specs.Header.{headed};
ghost use Rattle.rtcm2.specs.Frames.{frame_said, kept_to, held_to, size_to};
ghost use Rattle.rtcm2.specs.Rows.{row_to, row_held};
ghost use Rattle.rtcm2.specs.Generals.{count_said, head_said, system_said, signal_said, ephemeris_said, period_said, ionosphere_said};
ghost use Rattle.rtcm2.specs.Generals.{entry_said, head_of, made_said, general_null_said, words_left, system_left, general_null_made};

// How many satellites a frame has. Order 14, 15, 16, 15, 16, then 6, 7, 8, 23, 8.
#[unsafe(no_mangle)]
pub extern "C" fn rtcm2_count_generals(frame: &[u8], count: &mut usize) -> u8
    ensures value { result ≡ number_of (count_said (frame_said frame.now)) }
    ensures count_after { count.new ≡ left (count_said (frame_said frame.now)) (λ k. k) count.old }
{
    rtcm2::general::rtcm2_count_generals(frame, count)
}

// The head of a frame, its five numbers. Order 14, 15, 16, 15, 16, then 6, 7, 8, 23, 8.
#[unsafe(no_mangle)]
pub extern "C" fn rtcm2_read_head(
    frame: &[u8],
    system: &mut u8,
    signal: &mut u8,
    ephemeris: &mut u8,
    period: &mut u8,
    ionosphere: &mut u8,
) -> u8
    ensures value { result ≡ number_of (head_said (frame_said frame.now)) }
    ensures system_after { system.new ≡ left (head_said (frame_said frame.now)) system_said system.old }
    ensures signal_after { signal.new ≡ left (head_said (frame_said frame.now)) signal_said signal.old }
    ensures ephemeris_after { ephemeris.new ≡ left (head_said (frame_said frame.now)) ephemeris_said ephemeris.old }
    ensures period_after { period.new ≡ left (head_said (frame_said frame.now)) period_said period.old }
    ensures ionosphere_after { ionosphere.new ≡ left (head_said (frame_said frame.now)) ionosphere_said ionosphere.old }
{
    rtcm2::general::rtcm2_read_head(frame, system, signal, ephemeris, period, ionosphere)
}

// Satellite number `index` of a frame. Order 14, 15, 16, 15, 16, then 6, 7, 8, 23, 8, 9, 10, 13.
#[unsafe(no_mangle)]
pub extern "C" fn rtcm2_general_at(frame: &[u8], index: usize, general: &mut [u8]) -> u8
    ensures value { result ≡ number_of (row_to row (entry_said (frame_said frame.now) index) general.old) }
    ensures general_after { general.new ≡ row_held row (entry_said (frame_said frame.now) index) general.old }
{
    rtcm2::general::rtcm2_general_at(frame, index, general)
}

// Makes a frame of general corrections. Order 5, 6, 7, 23, 12, 10, 13.
#[unsafe(no_mangle)]
pub extern "C" fn rtcm2_make_generals(
    kind: u8,
    station: u16,
    z: u16,
    sequence: u8,
    health: u8,
    system: u8,
    signal: u8,
    ephemeris: u8,
    period: u8,
    ionosphere: u8,
    generals: &[u8],
    frame: &mut [u8],
    length: &mut usize,
) -> u8
    ensures value { result ≡ number_of (kept_to (made_said (headed kind station z sequence health) (head_of system signal ephemeris period ionosphere)
        generals.now) frame.old) }
    ensures frame_after { frame.new ≡ held_to (made_said (headed kind station z sequence health) (head_of system signal ephemeris period ionosphere)
        generals.now) frame.old }
    ensures length_after { length.new ≡ size_to (made_said (headed kind station z sequence health) (head_of system signal ephemeris period ionosphere)
        generals.now) frame.old length.old }
{
    rtcm2::general::rtcm2_make_generals(
        kind, station, z, sequence, health, system, signal, ephemeris, period, ionosphere,
        generals, frame, length,
    )
}

// Whether the frame of a record is a null frame of type 42: its N and its system. Order 14, 15, 16, 15, 16, then 6, 7, 8, 23.
#[unsafe(no_mangle)]
pub extern "C" fn rtcm2_read_general_null(frame: &[u8], n: &mut u8, system: &mut u8) -> u8
    ensures value { result ≡ number_of (general_null_said (frame_said frame.now)) }
    ensures n_after { n.new ≡ left (general_null_said (frame_said frame.now)) words_left n.old }
    ensures system_after { system.new ≡ left (general_null_said (frame_said frame.now)) system_left system.old }
{
    rtcm2::general::rtcm2_read_general_null(frame, n, system)
}

// Makes a null frame of type 42 with N data words, the system and fill. Order 5, 6, 7, 23, 12, 13.
#[unsafe(no_mangle)]
pub extern "C" fn rtcm2_make_general_null(
    kind: u8,
    station: u16,
    z: u16,
    sequence: u8,
    health: u8,
    n: u8,
    system: u8,
    frame: &mut [u8],
    length: &mut usize,
) -> u8
    ensures value { result ≡ number_of (kept_to (general_null_made (headed kind station z sequence health) n system) frame.old) }
    ensures frame_after { frame.new ≡ held_to (general_null_made (headed kind station z sequence health) n system) frame.old }
    ensures length_after { length.new ≡ size_to (general_null_made (headed kind station z sequence health) n system) frame.old
        length.old }
{
    rtcm2::general::rtcm2_make_general_null(
        kind, station, z, sequence, health, n, system, frame, length,
    )
}

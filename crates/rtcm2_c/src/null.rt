// The null frame: type 6 without data words, type 34 with none or one.
ghost use Rattle.std.specs.Prelude.{◌≡◌};
ghost use Rattle.rtcm2.specs.Answer.{number_of, left};
ghost use Rattle.rtcm2.specs.Frames.{frame_said, kept_to, held_to, size_to};
ghost use Rattle.rtcm2.specs.Nulls.{null_said, make_said};

// Whether the frame of a record is a null frame, and its N. Order 14, 15, 16, 15, 16, then 6, 7, 8.
#[unsafe(no_mangle)]
pub extern "C" fn rtcm2_read_null(frame: &[u8], n: &mut u8) -> u8
    ensures value { result ≡ number_of (null_said (frame_said frame.now)) }
    ensures n_after { n.new ≡ left (null_said (frame_said frame.now)) (λ k. k) n.old }
{
    rtcm2::null::rtcm2_read_null(frame, n)
}

// Makes a null frame of N data words, which are filled. Order 5, 6, 7, 12, 13.
#[unsafe(no_mangle)]
pub extern "C" fn rtcm2_make_null(
    kind: u8,
    station: u16,
    z: u16,
    sequence: u8,
    health: u8,
    n: u8,
    frame: &mut [u8],
    length: &mut usize,
) -> u8
    ensures value { result ≡ number_of (kept_to (make_said kind station z sequence health n) frame.old) }
    ensures frame_after { frame.new ≡ held_to (make_said kind station z sequence health n) frame.old }
    ensures length_after { length.new ≡ size_to (make_said kind station z sequence health n) frame.old length.old }
{
    rtcm2::null::rtcm2_make_null(kind, station, z, sequence, health, n, frame, length)
}

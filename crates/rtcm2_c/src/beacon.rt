// The small-beacon profile: frames checked, and corrections cut into its frames.
ghost use Rattle.std.specs.Prelude.{◌≡◌};
ghost use Rattle.rtcm2.specs.Answer.{number_of};
ghost use Rattle.rtcm2.specs.Header.{headed};
ghost use Rattle.rtcm2.specs.Frames.{frame_said};
ghost use Rattle.rtcm2.specs.Beacon.{profile_said, cut_said, kept_all, held_all, size_all};

// Whether the frame of a record is in the profile. Order 14, 15, 16, 15, 16, then 7, 20, 8, 10 or 11, 21, 22.
#[unsafe(no_mangle)]
pub extern "C" fn rtcm2_check_profile(frame: &[u8]) -> u8
    ensures { result ≡ number_of (profile_said (frame_said frame.now)) }
{
    rtcm2::beacon::rtcm2_check_profile(frame)
}

// Cuts corrections for different satellites into frames of type 9, kept one after the other. Order 5, 6, 7, 12, 10, 22, 13.
#[unsafe(no_mangle)]
pub extern "C" fn rtcm2_cut_corrections(
    kind: u8,
    station: u16,
    z: u16,
    sequence: u8,
    health: u8,
    corrections: &[u8],
    frames: &mut [u8],
    length: &mut usize,
) -> u8
    ensures value { result ≡ number_of (kept_all (cut_said (headed kind station z sequence health) corrections.now) frames.old) }
    ensures frames_after { frames.new ≡ held_all (cut_said (headed kind station z sequence health) corrections.now) frames.old }
    ensures length_after { length.new
        ≡ size_all (cut_said (headed kind station z sequence health) corrections.now) frames.old length.old }
{
    rtcm2::beacon::rtcm2_cut_corrections(
        kind,
        station,
        z,
        sequence,
        health,
        corrections,
        frames,
        length,
    )
}

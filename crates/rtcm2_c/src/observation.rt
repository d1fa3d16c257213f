// Raw observations of types 18 and 19, by edition: counted, read and made.
ghost use Rattle.std.specs.Prelude.{◌≡◌};
ghost use Rattle.rtcm2_rows.specs.Observations.{row};
ghost use Rattle.rtcm2.specs.Answer.{number_of, left};
ghost use Rattle.rtcm2.specs.Header.{headed};
ghost use Rattle.rtcm2.specs.Frames.{frame_said, kept_to, held_to, size_to};
ghost use Rattle.rtcm2.specs.Rows.{row_to, row_held};
ghost use Rattle.rtcm2.specs.Observations.{count_said, epoch_said, frequency_said, smoothing_said, time_said, entry_said, made_said};

// How many satellites a frame has. Order 14, 15, 16, 15, 16, then 6, 7, 8.
#[unsafe(no_mangle)]
pub extern "C" fn rtcm2_count_observations(frame: &[u8], count: &mut usize) -> u8
    ensures value { result ≡ number_of (count_said (frame_said frame.now)) }
    ensures count_after { count.new ≡ left (count_said (frame_said frame.now)) (λ k. k) count.old }
{
    rtcm2::observation::rtcm2_count_observations(frame, count)
}

// The head of a frame: frequency, smoothing, time. Order 14, 15, 16, 15, 16, then 6, 7, 8, 10.
#[unsafe(no_mangle)]
pub extern "C" fn rtcm2_read_epoch(
    frame: &[u8],
    frequency: &mut u8,
    smoothing: &mut u8,
    time: &mut u32,
) -> u8
    ensures value { result ≡ number_of (epoch_said (frame_said frame.now)) }
    ensures frequency_after { frequency.new ≡ left (epoch_said (frame_said frame.now)) frequency_said frequency.old }
    ensures smoothing_after { smoothing.new ≡ left (epoch_said (frame_said frame.now)) smoothing_said smoothing.old }
    ensures time_after { time.new ≡ left (epoch_said (frame_said frame.now)) time_said time.old }
{
    rtcm2::observation::rtcm2_read_epoch(frame, frequency, smoothing, time)
}

// Satellite number `index` of a frame in an edition. Order 14, 15, 16, 15, 16, then 5 for the edition, 6, 7, 8, 9, 10, 13.
#[unsafe(no_mangle)]
pub extern "C" fn rtcm2_observation_at(
    edition: u8,
    frame: &[u8],
    index: usize,
    observation: &mut [u8],
) -> u8
    ensures value { result ≡ number_of (row_to row (entry_said edition (frame_said frame.now) index) observation.old) }
    ensures observation_after { observation.new ≡ row_held row (entry_said edition (frame_said frame.now) index) observation.old }
{
    rtcm2::observation::rtcm2_observation_at(edition, frame, index, observation)
}

// Makes a frame of observations in an edition. Order 5, the edition first, 6, 7, 12, 10, 13.
#[unsafe(no_mangle)]
pub extern "C" fn rtcm2_make_observations(
    edition: u8,
    kind: u8,
    station: u16,
    z: u16,
    sequence: u8,
    health: u8,
    frequency: u8,
    smoothing: u8,
    time: u32,
    observations: &[u8],
    frame: &mut [u8],
    length: &mut usize,
) -> u8
    ensures value { result ≡ number_of (kept_to (made_said edition (headed kind station z sequence health) frequency smoothing time observations.now)
        frame.old) }
    ensures frame_after { frame.new ≡ held_to (made_said edition (headed kind station z sequence health) frequency smoothing time observations.now)
        frame.old }
    ensures length_after { length.new ≡ size_to (made_said edition (headed kind station z sequence health) frequency smoothing time observations.now)
        frame.old length.old }
{
    rtcm2::observation::rtcm2_make_observations(
        edition,
        kind,
        station,
        z,
        sequence,
        health,
        frequency,
        smoothing,
        time,
        observations,
        frame,
        length,
    )
}

// Frames and their journal records: a frame is kept from its numbers, and its numbers are recalled.
ghost use Rattle.std.specs.Prelude.{◌≡◌};
ghost use Rattle.rtcm2.specs.Answer.{number_of, left};
ghost use Rattle.rtcm2.specs.Frames.{kept_to, held_to, size_to, keep_said};
ghost use Rattle.rtcm2.specs.Frames.{recall_said, kind_said, station_said, z_count_said, sequence_said, health_said, n_said, length_said};

// Keeps a frame of any type, from its five numbers and the bytes of its data words. Order 5, 13.
#[unsafe(no_mangle)]
pub extern "C" fn rtcm2_keep(
    kind: u8,
    station: u16,
    z: u16,
    sequence: u8,
    health: u8,
    bytes: &[u8],
    frame: &mut [u8],
    length: &mut usize,
) -> u8
    ensures value { result ≡ number_of (kept_to (keep_said kind station z sequence health bytes.now) frame.old) }
    ensures frame_after { frame.new ≡ held_to (keep_said kind station z sequence health bytes.now) frame.old }
    ensures length_after { length.new ≡ size_to (keep_said kind station z sequence health bytes.now) frame.old length.old }
{
    rtcm2::frames::rtcm2_keep(kind, station, z, sequence, health, bytes, frame, length)
}

// Recalls the record at the start of the bytes: its header's five numbers, N and its length. Order 14, 15, 16, 15, 16.
#[unsafe(no_mangle)]
pub extern "C" fn rtcm2_recall(
    frame: &[u8],
    kind: &mut u8,
    station: &mut u16,
    z: &mut u16,
    sequence: &mut u8,
    health: &mut u8,
    n: &mut u8,
    length: &mut usize,
) -> u8
    ensures value { result ≡ number_of (recall_said frame.now) }
    ensures kind_after { kind.new ≡ left (recall_said frame.now) kind_said kind.old }
    ensures station_after { station.new ≡ left (recall_said frame.now) station_said station.old }
    ensures z_after { z.new ≡ left (recall_said frame.now) z_count_said z.old }
    ensures sequence_after { sequence.new ≡ left (recall_said frame.now) sequence_said sequence.old }
    ensures health_after { health.new ≡ left (recall_said frame.now) health_said health.old }
    ensures n_after { n.new ≡ left (recall_said frame.now) n_said n.old }
    ensures length_after { length.new ≡ left (recall_said frame.now) length_said length.old }
{
    rtcm2::frames::rtcm2_recall(frame, kind, station, z, sequence, health, n, length)
}

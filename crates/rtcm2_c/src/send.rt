// Writing the line: the lead byte, and frames after the two carried bits.
ghost use Rattle.std.specs.Prelude.{◌≡◌};
ghost use Rattle.writer.specs.Answer.{opened_to};
ghost use Rattle.rtcm2.specs.Answer.{number_of};
ghost use Rattle.rtcm2.specs.Frames.{frame_said};
ghost use Rattle.rtcm2.specs.Send.{open_said, write_said, line_lent, d29_after, d30_after, count_after};

// Opens a stream. Order 13.
#[unsafe(no_mangle)]
pub extern "C" fn rtcm2_open(line: &mut [u8]) -> u8
    ensures value { result ≡ number_of (open_said line.old) }
    ensures line_after { line.new ≡ opened_to line.old }
{
    rtcm2::send::rtcm2_open(line)
}

// Writes the frame of a journal record. Order 14, 15, 16, 15, 16, then 5 for a carried bit that is not 0 or 1, 7, 13.
#[unsafe(no_mangle)]
pub extern "C" fn rtcm2_write(
    frame: &[u8],
    d29: &mut u8,
    d30: &mut u8,
    line: &mut [u8],
    length: &mut usize,
) -> u8
    ensures value { result ≡ number_of (write_said (frame_said frame.now) d29.old d30.old line.old) }
    ensures d29_after { d29.new ≡ d29_after (frame_said frame.now) d29.old d30.old line.old }
    ensures d30_after { d30.new ≡ d30_after (frame_said frame.now) d29.old d30.old line.old }
    ensures line_after { line.new ≡ line_lent (frame_said frame.now) d29.old d30.old line.old }
    ensures length_after { length.new
        ≡ count_after (frame_said frame.now) d29.old d30.old line.old length.old }
{
    rtcm2::send::rtcm2_write(frame, d29, d30, line, length)
}

// The journal that keeps the words: a frame's record and its two carried bits to the record of its words, and back.
ghost use Rattle.std.specs.Prelude.{◌≡◌};
ghost use Rattle.rtcm2.specs.Answer.{number_of, left};
ghost use Rattle.rtcm2.specs.Frames.{frame_said};
ghost use Rattle.rtcm2.specs.Words.{words_kept, words_held, words_size, live_said, back_said, back_held, d29_back, d30_back, read_back, length_back};

// Keeps the words of the frame of a journal record, which start from the two carried bits. Order 14, 15, 16, 15, 16, then 5 for a carried bit, 13.
#[unsafe(no_mangle)]
pub extern "C" fn rtcm2_keep_words(
    frame: &[u8],
    d29: u8,
    d30: u8,
    words: &mut [u8],
    length: &mut usize,
) -> u8
    ensures value { result ≡ number_of (words_kept (frame_said frame.now) d29 d30 words.old) }
    ensures words_after { words.new ≡ words_held (frame_said frame.now) d29 d30 words.old }
    ensures length_after { length.new ≡ words_size (frame_said frame.now) d29 d30 words.old length.old }
{
    rtcm2::words::rtcm2_keep_words(frame, d29, d30, words, length)
}

// Recalls the record of words at the start of the bytes. Order 14, 15, 16, 15, 16, 17, then 13 for the frame's own record.
#[unsafe(no_mangle)]
pub extern "C" fn rtcm2_recall_words(
    words: &[u8],
    frame: &mut [u8],
    d29: &mut u8,
    d30: &mut u8,
    read: &mut usize,
    length: &mut usize,
) -> u8
    ensures value { result ≡ number_of (back_said (live_said words.now) frame.old) }
    ensures frame_after { frame.new ≡ back_held (live_said words.now) frame.old }
    ensures d29_after { d29.new ≡ left (back_said (live_said words.now) frame.old) d29_back d29.old }
    ensures d30_after { d30.new ≡ left (back_said (live_said words.now) frame.old) d30_back d30.old }
    ensures read_after { read.new ≡ left (back_said (live_said words.now) frame.old) read_back read.old }
    ensures length_after { length.new ≡ left (back_said (live_said words.now) frame.old) length_back length.old }
{
    rtcm2::words::rtcm2_recall_words(words, frame, d29, d30, read, length)
}

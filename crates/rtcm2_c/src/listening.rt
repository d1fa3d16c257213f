// Reading the line: each call finds the reader in the lent bytes and puts back what is left of it.
ghost use Rattle.std.specs.Prelude.{◌≡◌};
ghost use Rattle.journal.specs.Journal.{held_by};
ghost use Rattle.rtcm2_state.specs.State.{state_size, start_put, state_put};
ghost use Rattle.rtcm2.specs.Answer.{number_of, left};
ghost use Rattle.rtcm2.specs.Line.{started_in, counts_in, fed_in, fed_all_in, ended_in, taken_in};

// How many bytes a state takes.
#[unsafe(no_mangle)]
pub extern "C" fn rtcm2_state_size() -> usize
    ensures { result ≡ state_size }
{
    rtcm2::listening::rtcm2_state_size()
}

// Starts a reader: the first bytes become a fresh state. Refusal: 13.
#[unsafe(no_mangle)]
pub extern "C" fn rtcm2_start(state: &mut [u8]) -> u8
    ensures value { result ≡ number_of (started_in state.old) }
    ensures state_after { state.new ≡ left (started_in state.old) (λ r. state_put r state.old) state.old }
{
    rtcm2::listening::rtcm2_start(state)
}

// The counters of a reader: positions that a word ruled out by an odd number of ones in its remainder, and by an even number. Refusal: 5.
#[unsafe(no_mangle)]
pub extern "C" fn rtcm2_counts(state: &[u8], odd: &mut u32, even: &mut u32) -> u8
    ensures value { result ≡ number_of (counts_in state.now) }
    ensures odd_after { odd.new ≡ left (counts_in state.now) (λ t. t.odd) odd.old }
    ensures even_after { even.new ≡ left (counts_in state.now) (λ t. t.even) even.old }
{
    rtcm2::listening::rtcm2_counts(state, odd, even)
}

// Feeds one byte of the line. Refusals: 5, 3, 2, 1.
#[unsafe(no_mangle)]
pub extern "C" fn rtcm2_feed(state: &mut [u8], byte: u8) -> u8
    ensures value { result ≡ number_of (fed_in state.old byte) }
    ensures state_after { state.new ≡ left (fed_in state.old byte) (λ n. state_put n.reader state.old) state.old }
{
    rtcm2::listening::rtcm2_feed(state, byte)
}

// Feeds bytes until a frame waits or none is left. Refusals: 5, 3, 2.
#[unsafe(no_mangle)]
pub extern "C" fn rtcm2_feed_all(
    state: &mut [u8],
    bytes: &[u8],
    used: &mut usize,
    passed: &mut usize,
) -> u8
    ensures value { result ≡ number_of (fed_all_in state.old bytes.now) }
    ensures state_after { state.new ≡ left (fed_all_in state.old bytes.now)
        (λ f. state_put f.reader state.old) state.old }
    ensures used_after { used.new ≡ left (fed_all_in state.old bytes.now) (λ f. f.used) used.old }
    ensures passed_after { passed.new ≡ left (fed_all_in state.old bytes.now) (λ f. f.passed) passed.old }
{
    rtcm2::listening::rtcm2_feed_all(state, bytes, used, passed)
}

// The input has ended. Refusals: 5, 3, 2.
#[unsafe(no_mangle)]
pub extern "C" fn rtcm2_end(state: &mut [u8]) -> u8
    ensures value { result ≡ number_of (ended_in state.old) }
    ensures state_after { state.new ≡ left (ended_in state.old)
        (λ n. start_put n.reader.candidate n.reader.ended state.old) state.old }
{
    rtcm2::listening::rtcm2_end(state)
}

// Takes the frame that waits: its record, the record's length, the position of its first bit and the two bits before it. Refusals: 5, 4, 13.
#[unsafe(no_mangle)]
pub extern "C" fn rtcm2_take(
    state: &mut [u8],
    frame: &mut [u8],
    length: &mut usize,
    at: &mut u32,
    d29: &mut u8,
    d30: &mut u8,
) -> u8
    ensures value { result ≡ number_of (taken_in state.old frame.old) }
    ensures state_after { state.new ≡ left (taken_in state.old frame.old)
        (λ v. start_put v.1.reader.candidate v.1.reader.ended state.old) state.old }
    ensures frame_after { frame.new ≡ left (taken_in state.old frame.old)
        (λ v. held_by v.1.frame frame.old) frame.old }
    ensures length_after { length.new ≡ left (taken_in state.old frame.old) (λ v. v.0) length.old }
    ensures at_after { at.new ≡ left (taken_in state.old frame.old) (λ v. v.1.at) at.old }
    ensures d29_after { d29.new ≡ left (taken_in state.old frame.old) (λ v. v.1.frame.carried.d29) d29.old }
    ensures d30_after { d30.new ≡ left (taken_in state.old frame.old) (λ v. v.1.frame.carried.d30) d30.old }
{
    rtcm2::listening::rtcm2_take(state, frame, length, at, d29, d30)
}

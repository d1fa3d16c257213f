// Reading the line: each call finds the reader in the lent bytes and puts back what is left of it.
ghost use Rattle.std.specs.Prelude.{◌≡◌};
ghost use Rattle.journal.specs.Journal.{held_by};
ghost use Rattle.rtcm2_state.specs.State.{state_size, start_put, state_put};
ghost use Rattle.rtcm2.specs.Answer.{number_of, left};
ghost use Rattle.rtcm2.specs.Line.{started_in, counts_in, fed_in, fed_all_in, ended_in, taken_in};

use journal::Kept;
use reader::Answer;

// How many bytes a state takes.
pub fn rtcm2_state_size() -> usize
    ensures { result ≡ state_size }
{
    rtcm2_state::SIZE
}

// Starts a reader: the first bytes become a fresh state. Refusal: 13.
pub fn rtcm2_start(state: &mut [u8]) -> u8
    ensures value { result ≡ number_of (started_in state.old) }
    ensures state_after { state.new ≡ left (started_in state.old) (λ r. state_put r state.old) state.old }
{
    if state.len() < rtcm2_state::SIZE {
        return 13;
    }
    rtcm2_state::put_state(reader::new(), state);
    0
}

// The counters of a reader: positions that a word ruled out by an odd number of ones in its remainder, and by an even number. Refusal: 5.
pub fn rtcm2_counts(state: &[u8], odd: &mut u32, even: &mut u32) -> u8
    ensures value { result ≡ number_of (counts_in state.now) }
    ensures odd_after { odd.new ≡ left (counts_in state.now) (λ t. t.odd) odd.old }
    ensures even_after { even.new ≡ left (counts_in state.now) (λ t. t.even) even.old }
{
    if !rtcm2_state::holds_state(state) {
        return 5;
    }
    let reader = rtcm2_state::state_in(state);
    let candidate = reader.candidate;
    let tally = candidate.tally;
    *odd = tally.odd;
    *even = tally.even;
    0
}

// Feeds one byte of the line. Refusals: 5, 3, 2, 1.
pub fn rtcm2_feed(state: &mut [u8], byte: u8) -> u8
    ensures value { result ≡ number_of (fed_in state.old byte) }
    ensures state_after { state.new ≡ left (fed_in state.old byte) (λ n. state_put n.reader state.old) state.old }
{
    if !rtcm2_state::holds_state(state) {
        return 5;
    }
    if rtcm2_state::hold::hold(byte, state) {
        return 0;
    }
    let next = reader::feed(rtcm2_state::state_in(state), byte);
    let answer = next.answer;
    if let Answer::Refused(n) = answer {
        return n;
    }
    let reader = next.reader;
    rtcm2_state::put_state(reader, state);
    0
}

// Feeds bytes until a frame waits or none is left. Refusals: 5, 3, 2.
pub fn rtcm2_feed_all(state: &mut [u8], bytes: &[u8], used: &mut usize, passed: &mut usize) -> u8
    ensures value { result ≡ number_of (fed_all_in state.old bytes.now) }
    ensures state_after { state.new ≡ left (fed_all_in state.old bytes.now)
        (λ f. state_put f.reader state.old) state.old }
    ensures used_after { used.new ≡ left (fed_all_in state.old bytes.now) (λ f. f.used) used.old }
    ensures passed_after { passed.new ≡ left (fed_all_in state.old bytes.now) (λ f. f.passed) passed.old }
{
    if !rtcm2_state::holds_state(state) {
        return 5;
    }
    let fed = reader::feed_all(rtcm2_state::state_in(state), bytes);
    let answer = fed.answer;
    if let Answer::Refused(n) = answer {
        return n;
    }
    let reader = fed.reader;
    rtcm2_state::put_state(reader, state);
    *used = fed.used;
    *passed = fed.passed;
    0
}

// The input has ended. Refusals: 5, 3, 2.
pub fn rtcm2_end(state: &mut [u8]) -> u8
    ensures value { result ≡ number_of (ended_in state.old) }
    ensures state_after { state.new ≡ left (ended_in state.old)
        (λ n. start_put n.reader.candidate n.reader.ended state.old) state.old }
{
    if !rtcm2_state::holds_state(state) {
        return 5;
    }
    let next = reader::end(rtcm2_state::state_in(state));
    let answer = next.answer;
    if let Answer::Refused(n) = answer {
        return n;
    }
    let candidate = next.reader.candidate;
    rtcm2_state::put_start(candidate, next.reader.ended, state);
    0
}

// Takes the frame that waits: its record, the record's length, the position of its first bit and the two bits before it. Refusals: 5, 4, 13.
pub fn rtcm2_take(
    state: &mut [u8],
    frame: &mut [u8],
    length: &mut usize,
    at: &mut u32,
    d29: &mut u8,
    d30: &mut u8,
) -> u8
    ensures value { result ≡ number_of (taken_in state.old frame.old) }
    ensures state_after { state.new ≡ left (taken_in state.old frame.old)
        (λ v. start_put v.1.reader.candidate v.1.reader.ended state.old) state.old }
    ensures frame_after { frame.new ≡ left (taken_in state.old frame.old)
        (λ v. held_by v.1.frame frame.old) frame.old }
    ensures length_after { length.new ≡ left (taken_in state.old frame.old) (λ v. v.0) length.old }
    ensures at_after { at.new ≡ left (taken_in state.old frame.old) (λ v. v.1.at) at.old }
    ensures d29_after { d29.new ≡ left (taken_in state.old frame.old) (λ v. v.1.frame.carried.d29) d29.old }
    ensures d30_after { d30.new ≡ left (taken_in state.old frame.old) (λ v. v.1.frame.carried.d30) d30.old }
{
    if !rtcm2_state::holds_state(state) {
        return 5;
    }
    let there = rtcm2_state::candidate_in(state);
    if !there.waits {
        if reader::checks::past(there) {
            return 5;
        }
        return 4;
    }
    let taken = reader::take(rtcm2_state::state_in(state));
    let answer = taken.answer;
    if let Answer::Refused(n) = answer {
        return n;
    }
    let found = taken.frame;
    let carried = found.carried;
    match journal::put_frame(found, frame) {
        Kept::Refused(n) => n,
        Kept::Done(size) => {
            let candidate = taken.reader.candidate;
            rtcm2_state::put_start(candidate, taken.reader.ended, state);
            *length = size;
            *at = taken.at;
            *d29 = carried.d29;
            *d30 = carried.d30;
            0
        }
    }
}

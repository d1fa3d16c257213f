// Feeding and taking in turns: the bytes of a line in, rows of frames out, and the reader found and put back once.
ghost use Rattle.std.specs.Prelude.{◌≡◌};
ghost use Rattle.reader.specs.Rows.{rows_to};
ghost use Rattle.rtcm2_state.specs.State.{state_in, state_put};
ghost use Rattle.rtcm2.specs.Answer.{number_of, left};
ghost use Rattle.rtcm2.specs.Line.{rows_in};

use reader::Answer;

// Feeds bytes and takes frames in turns, each frame into a row, until no byte is left and no frame waits, or there is no room for a row.
// Refusals: 5, 3, 13.
pub fn rtcm2_read(
    state: &mut [u8],
    bytes: &[u8],
    rows: &mut [u8],
    used: &mut usize,
    passed: &mut usize,
    count: &mut usize,
) -> u8
    ensures value { result ≡ number_of (rows_in state.old bytes.now rows.old) }
    ensures state_after { state.new ≡ left (rows_in state.old bytes.now rows.old)
        (λ x. state_put x.reader state.old) state.old }
    ensures rows_after { rows.new ≡ left (rows_in state.old bytes.now rows.old)
        (λ x. rows_to (state_in state.old) bytes.now rows.old) rows.old }
    ensures used_after { used.new ≡ left (rows_in state.old bytes.now rows.old) (λ x. x.used) used.old }
    ensures passed_after { passed.new ≡ left (rows_in state.old bytes.now rows.old) (λ x. x.passed) passed.old }
    ensures count_after { count.new ≡ left (rows_in state.old bytes.now rows.old) (λ x. x.count) count.old }
{
    if !rtcm2_state::holds_state(state) {
        return 5;
    }
    let read = reader::rows::read_rows(rtcm2_state::state_in(state), bytes, rows);
    let answer = read.answer;
    if let Answer::Refused(n) = answer {
        return n;
    }
    let reader = read.reader;
    rtcm2_state::put_state(reader, state);
    *used = read.used;
    *passed = read.passed;
    *count = read.count;
    0
}

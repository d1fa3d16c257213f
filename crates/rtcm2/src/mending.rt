// The journal mender, a step a call: over a window of a journal, with its report as text.
ghost use Rattle.std.specs.Prelude.{◌≡◌, length};
ghost use Rattle.bits.specs.Bits.{is_nonzero};
ghost use Rattle.mender.specs.Run.{on_of};
ghost use Rattle.mender.specs.Steps.{bytes_to, output_to};
ghost use Rattle.rtcm2.specs.Answer.{number_of, left};
ghost use Rattle.rtcm2.specs.Mending.{step_number, mend_said};

use mender::{Answer, Step};

// Whether a flag of C is set.
fn is_set(flag: u8) -> bool
    ensures { result ≡ is_nonzero flag }
{
    if flag == 0 {
        return false;
    }
    true
}

// A step as its number.
fn step_number(step: Step) -> u8
    ensures { result ≡ step_number step }
{
    match step {
        Step::End => 0,
        Step::Whole(_) => 1,
        Step::Lost(_) => 2,
        Step::Cut => 3,
        Step::Numberless => 4,
        Step::Passed => 5,
    }
}

// One step at the start of the bytes, which stand at the offset `at` of the journal. Order 13.
pub fn rtcm2_mend(
    bytes: &mut [u8],
    at: u64,
    searching: u8,
    report: &mut [u8],
    step: &mut u8,
    read: &mut usize,
    written: &mut usize,
) -> u8
    ensures value { result ≡ number_of (mend_said bytes.old at searching report.old) }
    ensures bytes_after { bytes.new ≡ bytes_to bytes.old (is_nonzero searching) report.old }
    ensures report_after { report.new ≡ output_to bytes.old at (is_nonzero searching) report.old }
    ensures step_after { step.new ≡ left (mend_said bytes.old at searching report.old) (λ v. step_number v.0) step.old }
    ensures read_after { read.new
        ≡ left (mend_said bytes.old at searching report.old) (λ v. on_of v.0 (length bytes.old)) read.old }
    ensures written_after { written.new ≡ left (mend_said bytes.old at searching report.old) (λ v. v.1) written.old }
{
    let count = bytes.len();
    let mended = mender::mend(bytes, at, is_set(searching), report);
    let answer = mended.answer;
    if let Answer::Refused(number) = answer {
        return number;
    }
    let found = mended.step;
    let next = mender::next_of(found, count);
    *step = step_number(found);
    *read = next.on;
    *written = mended.written;
    0
}

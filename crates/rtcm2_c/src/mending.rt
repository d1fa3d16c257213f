// The journal mender, a step a call: over a window of a journal, with its report as text.
ghost use Rattle.std.specs.Prelude.{◌≡◌, length};
ghost use Rattle.bits.specs.Bits.{is_nonzero};
ghost use Rattle.mender.specs.Run.{on_of};
ghost use Rattle.mender.specs.Steps.{bytes_to, output_to};
ghost use Rattle.rtcm2.specs.Answer.{number_of, left};
ghost use Rattle.rtcm2.specs.Mending.{step_number, mend_said};

// One step at the start of the bytes, which stand at the offset `at` of the journal. Order 13.
#[unsafe(no_mangle)]
pub extern "C" fn rtcm2_mend(
    bytes: &mut [u8],
    at: u64,
    searching: u8,
    report: &mut [u8],
    step: &mut u8,
    read: &mut usize,
    written: &mut usize,
) -> u8
    ensures value { result ≡ number_of (mend_said bytes.old at searching report.old) }
    ensures bytes_after { bytes.new ≡ bytes_to bytes.old (is_nonzero searching) report.old }
    ensures report_after { report.new ≡ output_to bytes.old at (is_nonzero searching) report.old }
    ensures step_after { step.new ≡ left (mend_said bytes.old at searching report.old) (λ v. step_number v.0) step.old }
    ensures read_after { read.new
        ≡ left (mend_said bytes.old at searching report.old) (λ v. on_of v.0 (length bytes.old)) read.old }
    ensures written_after { written.new ≡ left (mend_said bytes.old at searching report.old) (λ v. v.1) written.old }
{
    rtcm2::mending::rtcm2_mend(bytes, at, searching, report, step, read, written)
}

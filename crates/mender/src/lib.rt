// The journal mender: a record with turned bits is put back where one bit of a word is turned; what can't be is reported and left alone.
#![tactic(auto)]

ghost use Rattle.std.specs.Prelude.{◌≡◌, ◌+◌, ◌*◌, ◌≤◌, false, ◌++◌, length, drop, Ok};
ghost use Rattle.std.proofs.lemmas.List.Edits.{sets};
ghost use Rattle.journal.specs.Forms.{unmarked};
ghost use Rattle.mender.specs.Records.{count_of, reads};
ghost use Rattle.mender.specs.Report.{changes_from, change_lines};
ghost use Rattle.mender.specs.Run.{ahead_by, next_of};
ghost use Rattle.mender.specs.Steps.{judged_at, sought, bytes_after, report_of, report_room, done_mend, found_by, missed_by, missed_text};
ghost use Rattle.mender.specs.Steps.{mend_by, bytes_to, output_to};

mod record;
mod text;

use crate::record::NoEnd;
use journal::Found;

// What a step finds: the end, a record of so many bytes that is whole or lost, one cut short or without an N, or a byte to pass over.
#[derive(Clone, Copy, Debug, PartialEq, Eq)]
pub enum Step {
    End,
    Whole(usize),
    Lost(usize),
    Cut,
    Numberless,
    Passed,
}

// Where the step after one is: so many bytes on, whether it searches for a mark, and whether the run has ended.
// kept: a flag beside the place, since `next_of` promises all three, and says of the run that ends how many bytes it had
#[derive(Clone, Copy, Debug, PartialEq, Eq)]
pub struct Next {
    pub on: usize,
    pub searching: bool,
    pub ended: bool,
}

// Whether the call was refused.
#[derive(Clone, Copy)]
pub enum Answer {
    Done,
    Refused(u8),
}

// What a call answers: the step, and how many bytes of report it wrote.
#[derive(Clone, Copy)]
pub struct Mended {
    pub answer: Answer,
    pub step: Step,
    pub written: usize,
}

// Room for the report of any record: a line of at most 29 bytes for each of 33 words and for N.
const REPORT_ROOM: usize = 34 * 29;

// The longest record, of 31 data words.
pub const LONGEST: usize = 4 * 31 + 11;

// Whether the bytes do not begin with the mark.
fn is_unmarked(bytes: &[u8]) -> bool
    ensures { result ≡ unmarked 0x34 bytes.now }
{
    !bytes.starts_with(&[0x52, 0x34])
}

// Whether the bytes read as a record that keeps the words.
#[tactic(auto, unfolding(crate::specs::Records::reads))]
fn is_read(bytes: &[u8]) -> bool
    ensures { result ≡ reads bytes.now }
{
    let recalled = journal::recall_words(bytes);
    matches!(recalled.answer, Found::Record(_))
}

// Puts back what was mended, and writes each change from the output's start on; answers the place after them.
fn put_changes(whole: &[u8], at: u64, bytes: &mut [u8], output: &mut [u8]) -> usize
    requires whole_in_bounds { length whole.now ≤ length bytes.old }
    requires whole_in_bounds_2 { 29 * length (changes_from at bytes.old whole.now) ≤ length output.old }
    ensures value { result ≡ length (change_lines (changes_from at bytes.old whole.now)) }
    ensures bytes_after { bytes.new ≡ whole.now ++ drop (length whole.now) bytes.old }
    ensures output_after { output.new ≡ sets output.old 0 (change_lines (changes_from at bytes.old whole.now)) }
{
    let mut next: usize = 0;
    for (i, new) in whole.iter().enumerate() {
        let offset = at.wrapping_add(i as u64);
        next = text::put_byte(offset, bytes[i], *new, next, output);
        bytes[i] = *new;
    }
    next
}

// A record that is not whole: reported, or passed over while searching.
fn missed(step: Step, at: u64, searching: bool, output: &mut [u8]) -> Mended
    requires { 29 ≤ length output.old }
    ensures value { result ≡ missed_by step at searching }
    ensures output_after { output.new ≡ sets output.old 0 (missed_text at searching) }
{
    if searching {
        return Mended {
            answer: Answer::Done,
            step: Step::Passed,
            written: 0,
        };
    }
    let written = text::put_lost(at, output);
    Mended {
        answer: Answer::Done,
        step,
        written,
    }
}

// The record of n, whose bytes are all there: put back where it is whole after mending.
fn mend_record(n: usize, bytes: &mut [u8], at: u64, searching: bool, output: &mut [u8]) -> Mended
    requires n_value { n ≡ count_of bytes.old }
    requires n_bound { n ≤ 31 }
    requires n_in_bounds { 4 * n + 11 ≤ length bytes.old }
    requires bytes_value { unmarked 0x34 bytes.old ≡ false }
    requires report_room_in_bounds { report_room ≤ length output.old }
    ensures value { result ≡ found_by (sought searching (judged_at (Ok n) bytes.old)) at bytes.old }
    ensures bytes_after { bytes.new ≡ bytes_after (sought searching (judged_at (Ok n) bytes.old)) bytes.old }
    ensures output_after { output.new
        ≡ sets output.old 0 (report_of at (sought searching (judged_at (Ok n) bytes.old)) bytes.old) }
{
    let mut copy = [0u8; LONGEST];
    record::put_record(n, bytes, &mut copy);
    let size = 4 * n + 11;
    if !is_read(&copy[..size]) {
        return missed(Step::Lost(size), at, searching, output);
    }
    let written = put_changes(&copy[..size], at, bytes, output);
    Mended {
        answer: Answer::Done,
        step: Step::Whole(size),
        written,
    }
}

// A step that leaves all as it is and reports nothing.
fn quiet(step: Step) -> Mended
    ensures { result ≡ done_mend step 0 }
{
    Mended {
        answer: Answer::Done,
        step,
        written: 0,
    }
}

// ONE STEP at the start of the bytes, which stand at the offset `at` of the journal. Order 13.
pub fn mend(bytes: &mut [u8], at: u64, searching: bool, output: &mut [u8]) -> Mended
    ensures value { result ≡ mend_by bytes.old at searching output.old }
    ensures bytes_after { bytes.new ≡ bytes_to bytes.old searching output.old }
    ensures output_after { output.new ≡ output_to bytes.old at searching output.old }
{
    if output.len() < REPORT_ROOM {
        return Mended {
            answer: Answer::Refused(13),
            step: Step::End,
            written: 0,
        };
    }
    if bytes.is_empty() {
        return quiet(Step::End);
    }
    if is_unmarked(bytes) {
        return quiet(Step::Passed);
    }
    match record::extent_of(bytes) {
        Ok(n) => mend_record(n, bytes, at, searching, output),
        Err(NoEnd::Cut) => missed(Step::Cut, at, searching, output),
        Err(NoEnd::Numberless) => missed(Step::Numberless, at, searching, output),
    }
}

// So many bytes on, searching there or not; or the run has ended.
fn ahead(on: usize, searching: bool, ended: bool) -> Next
    ensures { result ≡ ahead_by on searching ended }
{
    Next {
        on,
        searching,
        ended,
    }
}

// Where the next step is, where `left` bytes were left.
pub fn next_of(step: Step, left: usize) -> Next
    ensures { result ≡ next_of step left }
{
    match step {
        Step::End => ahead(0, false, true),
        Step::Whole(size) => ahead(size, false, false),
        Step::Lost(size) => ahead(size, false, false),
        Step::Cut => ahead(left, false, true),
        Step::Numberless => ahead(1, true, false),
        Step::Passed => ahead(1, true, false),
    }
}

// A journal that is held whole, mended step after step; each step's report is written.
use mender::Step;
use test_vectors::print;

// Where a step left the run, and how many bytes it passed over.
#[derive(Clone, Copy)]
struct Stepped {
    on: usize,
    searching: bool,
    passed: u64,
}

// One step at the offset `at`, with its report; nothing, where the report does not fit, which is never so.
fn step_on(at: u64, searching: bool, bytes: &mut [u8]) -> Option<Stepped> {
    let mut text = io::buffer();
    let left = bytes.len();
    let mended = mender::mend(bytes, at, searching, &mut text);
    let step = mended.step;
    let next = mender::next_of(step, left);
    let report = text.get(..mended.written)?;
    print(report);
    Some(Stepped {
        on: next.on,
        searching: next.searching,
        passed: u64::from(matches!(step, Step::Passed)),
    })
}

// Mends a journal, and answers how many bytes were passed over.
pub(crate) fn mend_all(journal: &mut [u8]) -> u64 {
    let mut searching = false;
    let mut passed: u64 = 0;
    let mut used: usize = 0;
    // kept: no index is counted here, each step says how many bytes it deals with
    while used < journal.len() {
        let left = journal.len() - used;
        let Some(stepped) = step_on(used as u64, searching, &mut journal[used..]) else {
            return passed;
        };
        // never so: a step deals with a byte, and with no more than there are
        if stepped.on == 0 || left < stepped.on {
            return passed;
        }
        used += stepped.on;
        searching = stepped.searching;
        passed = passed.wrapping_add(stepped.passed);
    }
    passed
}

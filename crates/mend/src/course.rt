// The course of a run: where it is and what it has counted, and how a step goes into both.
use mender::Step;

// Where the run is, what it has counted, and how many bytes the stretch passed over behind it has.
#[derive(Clone, Copy, Debug, Default, PartialEq, Eq)]
pub(crate) struct Course {
    pub at: u64,
    pub searching: bool,
    pub records: u64,
    pub changed: u64,
    pub lost: u64,
    pub passed: u64,
    pub stretch: u64,
}

impl Course {
    // Counts a step that dealt with `on` bytes and reported in so many lines; those of a whole record are its changed bytes.
    pub(crate) fn count(&mut self, step: Step, on: usize, searching: bool, lines: u64) {
        self.at = self.at.wrapping_add(on as u64);
        self.searching = searching;
        let is_passed = step == Step::Passed;
        match step {
            Step::End => {}
            Step::Whole(_) => {
                self.records = self.records.wrapping_add(1);
                self.changed = self.changed.wrapping_add(lines);
            }
            Step::Lost(_) | Step::Cut | Step::Numberless => {
                self.lost = self.lost.wrapping_add(1);
            }
            Step::Passed => {
                self.passed = self.passed.wrapping_add(1);
            }
        }
        self.stretch = if is_passed {
            self.stretch.wrapping_add(1)
        } else {
            0
        };
    }
}

// How far a run is, on standard error.
use crate::STDERR;
use std::fs::File;
use std::io::{IsTerminal, Seek, SeekFrom};

// Progress is told for journals larger than this, at each so many bytes.
const LARGE: u64 = 16777216;

// Whether progress is told: standard error is a terminal, and the journal is large.
pub(crate) fn is_told(rt: &HostRuntime, input: &mut File) -> bool {
    let Ok(size) = input.seek(SeekFrom::End(0)) else {
        return false;
    };
    let Ok(_) = input.seek(SeekFrom::Start(0)) else {
        return false;
    };
    if size <= LARGE {
        return false;
    }
    rt.stderr().is_terminal()
}

// How far the run is, in millions of bytes, where more than the last time told.
pub(crate) fn print_progress(before: u64, at: u64) {
    if at / LARGE == before / LARGE {
        return;
    }
    io::write_all(STDERR, b"mend: ");
    io::print_decimal(STDERR, at / 1000000);
    io::write_all(STDERR, b" MB\n");
}

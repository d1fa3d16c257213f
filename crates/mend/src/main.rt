// `mend IN OUT` mends the journal IN, which keeps the words, and writes what came of it to the new file OUT. IN is never changed: OUT must not be
// there yet. Standard output has a line for each byte that changed, for each record that is lost and for each stretch of bytes passed over while
// searching, and a last line of totals.
#![tactic(auto)]

mod course;
mod files;
mod progress;
mod report;
mod turns;
mod window;

use files::{argument, create, open_read, say_failure};
use std::fs::File;

// The file number of standard output.
pub(crate) const STDOUT: i32 = 1;

// The file number of standard error.
pub(crate) const STDERR: i32 = 2;

// Mends from one file to the other. What the system has still to write of OUT is written before the end, so that a failure is said.
fn mend_opened(rt: &HostRuntime, mut input: File, mut output: File) {
    let is_told = progress::is_told(rt, &mut input);
    turns::mend_all(&mut input, &mut output, is_told);
    if output.sync_all().is_err() {
        io::write_all(STDERR, b"mend: OUT cannot be written\n");
    }
}

// Opens IN, makes OUT, and mends.
fn mend_files(rt: &HostRuntime, input_path: &[u8], output_path: &[u8]) {
    match open_read(rt, input_path) {
        Ok(input) => match create(rt, output_path) {
            Ok(output) => mend_opened(rt, input, output),
            Err(error) => say_failure(rt.alloc(), output_path, error),
        },
        Err(error) => say_failure(rt.alloc(), input_path, error),
    }
}

fn main(rt: HostRuntime) {
    let mut input_path = io::buffer();
    let mut output_path = io::buffer();
    let input = argument(&rt, 1, &mut input_path);
    let output = argument(&rt, 2, &mut output_path);
    let (Some(input), Some(output)) = (input, output) else {
        io::write_all(STDERR, b"usage: mend IN OUT\n");
        return;
    };
    mend_files(&rt, input, output);
}

// The files that the arguments name, and what is said where one of them fails.
use crate::STDERR;
use std::alloc::Global;
use std::env::Env;
use std::fs::{File, OpenOptions};
use std::io::{Error, ErrorKind};

// Argument number `i`, put into a buffer; none where it is missing, empty or too long.
pub(crate) fn argument<'a>(rt: &HostRuntime, i: usize, buffer: &'a mut [u8]) -> Option<&'a [u8]> {
    let length = rt.arg(i, buffer).ok()?;
    if length == 0 {
        return None;
    }
    Some(&buffer[..length])
}

// That a name is not text, as the names of files are to be.
fn no_text() -> Error {
    Error::new(ErrorKind::InvalidInput, "the name is not UTF-8")
}

// Opens a file to be read.
pub(crate) fn open_read(rt: &HostRuntime, path: &[u8]) -> Result<File, Error> {
    let name = std::str::from_utf8(path).map_err(|_| no_text())?;
    File::open(rt, name)
}

// Makes a file that is not there yet, to be written.
pub(crate) fn create(rt: &HostRuntime, path: &[u8]) -> Result<File, Error> {
    let mut options = OpenOptions::new();
    options.write(true);
    options.create_new(true);
    let name = std::str::from_utf8(path).map_err(|_| no_text())?;
    options.open(rt, name)
}

// Writes what a failure is: the system's words, without the number that std puts behind them.
fn say_words(text: &str) {
    match text.split_once(" (os error ") {
        Some((words, _)) => io::write_all(STDERR, words.as_bytes()),
        None => io::write_all(STDERR, text.as_bytes()),
    };
}

// Says what the system failed with on a file.
pub(crate) fn say_failure(alloc: Global, path: &[u8], error: Error) {
    io::write_all(STDERR, path);
    io::write_all(STDERR, b": ");
    if let Ok(text) = format!(in alloc; "{error}") {
        say_words(text.as_str());
    }
    io::write_all(STDERR, b"\n");
}

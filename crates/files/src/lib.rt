// Files by name, and reading until a buffer is full, told apart from a read that fails. A name is bytes, and std takes text: one that is not
// UTF-8 cannot be opened, and is refused as the system refuses a name that it does not take.

#![tactic(auto)]

mod reason;

ghost use Rattle.io.specs.Counts.{IsPrefixLen};

use std::fs;
use std::io::{Error, Print};
use std::rt::Files;

// The system's number for bytes that are no text.
const EILSEQ: i32 = 84;

// How many bytes came to the start of the buffer, and why a read failed, if one did before the buffer was full or the input ended.
#[derive(Clone, Copy)]
pub struct Read {
    pub count: usize,
    pub error: Option<Error>,
}

// Reads until the buffer is full, the input ends, or a read fails.
pub fn read_up<S: std::io::Read>(source: &mut S, buf: &mut [u8]) -> Read
    ensures { IsPrefixLen result.count buf.new }
{
    let mut count = 0;
    let error = loop {
        match source.read(&mut buf[count..]) {
            Ok(0) => break None,
            Ok(more) => count += more,
            Err(error) => break Some(error),
        }
        if count == buf.len() {
            break None;
        }
    };
    Read { count, error }
}

// A name as std takes it.
fn text_of(path: &[u8]) -> std::io::Result<&str> {
    std::str::from_utf8(path).map_err(|_| Error::from_raw_os_error(EILSEQ))
}

// Opens a file for reading.
pub fn open_read<R: Files>(rt: &R, path: &[u8]) -> std::io::Result<R::File> {
    fs::open(rt, text_of(path)?)
}

// Opens a file for writing, and empties it, or makes it where there is none.
pub fn open_overwrite<R: Files>(rt: &R, path: &[u8]) -> std::io::Result<R::File> {
    fs::create(rt, text_of(path)?)
}

// Gives a file another name, in the place of what has that name.
pub fn rename<R: Files>(rt: &R, from: &[u8], to: &[u8]) -> std::io::Result<()> {
    fs::rename(rt, text_of(from)?, text_of(to)?)
}

// Removes a file, if it can be.
pub fn remove<R: Files>(rt: &R, path: &[u8]) -> std::io::Result<()> {
    fs::remove_file(rt, text_of(path)?)
}

// The end of a line that says what failed: with which file, and why, in the C library's words. What cannot be written is left out.
pub fn fail<E: Print>(errors: &E, path: &[u8], error: Option<Error>) {
    let _ = errors.write_all(path);
    if let Some(reason) = error {
        let _ = errors.write_all(b": ");
        let _ = reason::print_reason(errors, reason);
    }
    let _ = errors.write_all(b"\n");
}

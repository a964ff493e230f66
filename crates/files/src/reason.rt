// Why a call of the system failed, in the C library's words alone: std has them followed by the number of the error, in brackets.

use std::io::{Cursor, Error, Print, Write};

// What std puts behind the words.
const NUMBER: &str = " (os error ";

// The words of a message.
fn words(message: &str) -> &str {
    message
        .split_once(NUMBER)
        .map_or(message, |(words, _)| words)
}

// Prints why a call failed. What the message has no room for is left out.
pub fn print_reason<E: Print>(errors: &E, error: Error) -> std::io::Result<()> {
    let mut message = Cursor::new([0u8; 256]);
    let _ = write!(message, "{error}");
    let count = message.position().min(256) as usize;
    match std::str::from_utf8(&message.get_ref()[..count]) {
        Ok(text) => errors.print(words(text)),
        Err(_) => Ok(()),
    }
}

// The words that play is called with.

ghost use Rattle.std.specs.Prelude.{true, ◌≡◌, ◌<◌, ◌≤◌, IfSome, length};
ghost use Rattle.rules.specs.Device.{is_device};

use std::env::FillError;
use std::rt::Env;

// A word, at the start of a buffer. There is none where it is missing or empty, or the buffer has no room for all of it.
pub fn word_at<'a, R: Env>(rt: &R, i: usize, buf: &'a mut [u8]) -> Option<&'a [u8]>
    ensures { IfSome result (λ word. (0 < length word.now) × (length word.now ≤ length buf.old)) }
{
    match rt.arg(i, buf) {
        Ok(0) | Err(_) => None,
        Ok(count) => Some(&buf[..count]),
    }
}

// Whether there is a word of that number, of any length.
fn is_word<R: Env>(rt: &R, i: usize) -> bool {
    let mut start = [0u8; 1];
    !matches!(rt.arg(i, &mut start), Err(FillError::NotPresent))
}

// How many words there are, the program's name among them. 7 stands for all that is more than 6.
pub fn count_words<R: Env>(rt: &R) -> usize {
    (0..7usize).take_while(|i| is_word(rt, *i)).count()
}

// The device that a word names: its number, in one digit.
pub fn device_named(word: &[u8]) -> Option<u8>
    ensures { IfSome result (λ device. is_device device ≡ true) }
{
    let [digit] = word else {
        return None;
    };
    let device = digit.checked_sub(b'0')?;
    tables::is_device(device).then_some(device)
}

// Whether one of the names stands among them twice.
pub fn is_twice(names: &[&[u8]]) -> bool {
    names
        .iter()
        .enumerate()
        .any(|(i, name)| names[..i].contains(name))
}

// The chip's new contents: written to their own file, which then takes CHIP's place.

use crate::say::fail;
use player::contents;
use player::pieces::Played;
use rules::State;
use std::rt::Files;

// Whether a run left the chip as it was: its first record was refused.
fn is_untouched(played: Played) -> bool {
    played.ended.is_err() & (played.records == 0)
}

// Puts the chip's new contents into CHIP's place by way of NEW, open as `fresh`, and answers whether the run can be told. After any
// trouble, and where no record was done, NEW is removed and CHIP stays as it is.
pub fn replace<R: Files, E: Print>(
    rt: &R,
    errors: &E,
    played: Played,
    fresh: R::File,
    state: State,
    cells: &[u8],
    identification: &[u8],
    new: &[u8],
    chip: &[u8],
) -> bool {
    if played.trouble.is_some() || is_untouched(played) {
        let _ = files::remove(rt, new);
        return played.trouble.is_none();
    }
    let stored = m95::stored(state);
    let mut open = fresh;
    if let Err(error) = contents::store(&mut open, cells, identification, stored) {
        fail(
            errors,
            b"play: cannot write the chip's new contents ",
            new,
            Some(error),
        );
        let _ = files::remove(rt, new);
        return false;
    }
    drop(open);
    if let Err(error) = files::rename(rt, new, chip) {
        fail(errors, b"play: cannot replace the chip ", chip, Some(error));
        let _ = files::remove(rt, new);
        return false;
    }
    true
}

// What play says: one line on standard error for what is wrong, and the last line on standard output.

ghost use Rattle.std.specs.Prelude.{◌<◌};
ghost use Rattle.rules.specs.Send.{status_byte};

use player::contents::Fault;
use player::pieces::Played;
use player::summary;
use rules::{State, number_of};
use std::io::Error;
use traces::trace::two_at;

// One line on standard error, or a part of one. If it cannot be written, there is nobody to tell.
pub fn complain<E: Print>(errors: &E, line: &[u8]) {
    let _ = errors.write_all(line);
}

// One line on standard error: what cannot be done, with which file, and why.
pub fn fail<E: Print>(errors: &E, what: &[u8], path: &[u8], error: Option<Error>) {
    complain(errors, what);
    files::fail(errors, path, error);
}

// A line for what is wrong with a chip's file.
pub(crate) fn tell_fault<E: Print>(errors: &E, fault: Fault, path: &[u8]) {
    match fault {
        Fault::Unread(error) => {
            fail(errors, b"play: cannot read the chip ", path, Some(error));
        }
        Fault::Length => {
            complain(
                errors,
                b"play: CHIP's length is not the device's: its cells, or these with identification page (5, 6 and 7 have none), status and lock: ",
            );
            complain(
                errors,
                b"512 or 530 bytes for device 1, 16384 or 16450 for 2, 131072 or 131330 for 3, 262144 or 262402 for 4, ",
            );
            complain(
                errors,
                b"128 or 130 for 5, 256 or 258 for 6, 16384 or 16386 for 7\n",
            );
        }
    }
}

// A line for what a chip's file has stored and its device cannot.
pub(crate) fn tell_unstorable<E: Print>(errors: &E) {
    complain(
        errors,
        b"play: CHIP's last two bytes: its status byte has bits that the device has not, or its lock byte is neither 0 nor, where the device has an identification page, 1\n",
    );
}

// A line where a trace begins with a record of kind 16, which names the device for the bench and belongs to no trace.
pub fn tell_kind_16<E: Print>(errors: &E, trace: &[u8]) {
    if 4 <= trace.len() && two_at(trace, 2) == 16 {
        complain(
            errors,
            b"play: TRACE begins with the bench's first record, of kind 16; play has the word DEVICE instead: leave that record out\n",
        );
    }
}

// Prints the last line.
pub fn tell<P: Print, E: Print>(out: &P, errors: &E, played: Played, state: State)
    requires { status_byte state < 256 }
{
    let mut line = [0u8; 128];
    let status = m95::status_byte(state);
    let length = summary::put_summary(
        number_of(played.ended),
        status,
        played.records,
        played.bytes,
        &mut line,
    );
    if out.write_all(&line[..length]).is_err() {
        complain(
            errors,
            b"play: the run is done, and CHIP and ANSWERS are written; standard output is not\n",
        );
    }
}

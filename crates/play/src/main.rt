// play DEVICE CHIP TRACE ANSWERS NEW: runs a trace of any length on any device. CHIP keeps the chip's contents from run to run, ANSWERS
// gets a byte for each record done, and standard output says how it ended and how much was done. CHIP's new contents are written to NEW,
// which then takes CHIP's place. `run` makes NEW, with CHIP's mode, and has seen that no two of the names lead to one file: that is what a
// proved program cannot ask the system. Bad use gets one line on standard error and changes no file: every file that is read is
// read, and NEW is open, before ANSWERS is opened.
//
// play blank DEVICE CHIP: says where there is room on a chip, 'blank' and the number of its first blank page, or 'blank none'.

#![tactic(auto)]

mod words;

use playthrough::room::ask_device;
use playthrough::run::{Names, play_device};
use playthrough::say::complain;
use std::fs::OpenOptions;
use std::os::fd::AsRawFd;
use std::rt::{Env, Files};
use words::{count_words, device_named, is_twice, word_at};

// Says which devices there are.
fn name_devices<E: Print>(errors: &E) {
    complain(
        errors,
        b"play: DEVICE is 1 (M95040), 2 (M95128-D), 3 (M95M01), 4 (M95M02), 5 (M95010), 6 (M95020) or 7 (M95128)\n",
    );
}

// Says how play is used.
fn name_words<E: Print>(errors: &E) {
    complain(
        errors,
        b"play: it takes five words, DEVICE CHIP TRACE ANSWERS NEW, or three, blank DEVICE CHIP; './run play' takes the first four of the five, and makes NEW\n",
    );
}

// Plays the trace, if the words are good.
fn play<R: Files + Print, E: Print>(
    rt: &R,
    errors: &E,
    word: Option<&[u8]>,
    chip: Option<&[u8]>,
    trace: Option<&[u8]>,
    answers: Option<&[u8]>,
    new: Option<&[u8]>,
) {
    let Some(device) = word.and_then(device_named) else {
        name_devices(errors);
        return;
    };
    let (Some(chip), Some(trace), Some(answers), Some(new)) = (chip, trace, answers, new) else {
        complain(
            errors,
            b"play: the name of a file is empty, or longer than 4096 bytes\n",
        );
        return;
    };
    if is_twice(&[chip, trace, answers, new]) {
        complain(
            errors,
            b"play: CHIP, TRACE, ANSWERS and NEW must be four files\n",
        );
        return;
    }
    let names = Names {
        chip,
        trace,
        answers,
        new,
    };
    play_device(rt, errors, device, names);
}

// Says where there is room on a chip, if the words are good.
fn ask<R: Files + Print, E: Print>(
    rt: &R,
    errors: &E,
    what: Option<&[u8]>,
    word: Option<&[u8]>,
    chip: Option<&[u8]>,
) {
    let Some(b"blank") = what else {
        name_words(errors);
        return;
    };
    let Some(device) = word.and_then(device_named) else {
        name_devices(errors);
        return;
    };
    let Some(chip) = chip else {
        complain(
            errors,
            b"play: the name of CHIP is empty, or longer than 4096 bytes\n",
        );
        return;
    };
    ask_device(rt, errors, device, chip);
}

// Opens a descriptor where standard input, output or error is closed, so that no file of ours gets one of their numbers. It is then never
// closed.
fn occupy(rt: &HostRuntime) {
    let opened = OpenOptions::new()
        .read(true)
        .write(true)
        .open(rt, "/dev/null");
    if let Ok(file) = opened {
        if file.as_raw_fd() <= 2 {
            std::mem::forget(file);
        }
    }
}

// Reads the words of a question, and asks it.
fn ask_words<R: Env + Files + Print, E: Print>(rt: &R, errors: &E) {
    let mut what = io::buffer();
    let mut word = io::buffer();
    let mut chip = io::buffer();
    ask(
        rt,
        errors,
        word_at(rt, 1, &mut what),
        word_at(rt, 2, &mut word),
        word_at(rt, 3, &mut chip),
    );
}

// Reads the words of a run, and plays it.
fn play_words<R: Env + Files + Print, E: Print>(rt: &R, errors: &E) {
    let mut word = io::buffer();
    let mut chip = io::buffer();
    let mut trace = io::buffer();
    let mut answers = io::buffer();
    let mut new = io::buffer();
    play(
        rt,
        errors,
        word_at(rt, 1, &mut word),
        word_at(rt, 2, &mut chip),
        word_at(rt, 3, &mut trace),
        word_at(rt, 4, &mut answers),
        word_at(rt, 5, &mut new),
    );
}

fn main(rt: HostRuntime) {
    occupy(&rt);
    occupy(&rt);
    occupy(&rt);
    let errors = rt.stderr();
    match count_words(&rt) {
        4 => ask_words(&rt, &errors),
        6 => play_words(&rt, &errors),
        _ => name_words(&errors),
    }
}

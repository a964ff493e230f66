// A trace of any length, run in pieces. What a piece leaves of its last record is kept in front of the next, so that every record is
// run whole, and one is refused as cut short only where the trace really ends within it.

ghost use Rattle.std.specs.Prelude.{◌≡◌, ◌-◌, ◌≤◌, length, take, drop, ◌≢◌};
ghost use Rattle.std.specs.ControlFlow.{MatchControlFlow};
ghost use Rattle.rules.specs.Lending.{AreSame, world_in};
ghost use Rattle.rules.specs.Refused.{number_of};
ghost use Rattle.player.specs.Playing.{Playable, Standing};

use rules::{Refusal, World};
use std::io::{Error, Write};
use std::ops::ControlFlow;
use traces::records::Ran;

// What went wrong with a run's files, and why: the trace cannot be read to its end, or the answers cannot be written.
#[derive(Clone, Copy)]
pub enum Trouble {
    Unread(Error),
    Unwritten(Error),
}

// Where a run stands: how its last piece ended; the bytes in the buffer that are still to run; what was done; and what went wrong, if
// anything did.
#[derive(Clone, Copy)]
pub struct Played {
    pub ended: Result<(), Refusal>,
    pub filled: usize,
    pub records: u64,
    pub bytes: u64,
    pub trouble: Option<Trouble>,
}

// The start of a run, with so many bytes in the buffer.
pub fn started(filled: usize) -> Played
    ensures { (result.filled ≡ filled) × (number_of result.ended ≡ 0) }
{
    Played {
        ended: Ok(()),
        filled,
        records: 0,
        bytes: 0,
        trouble: None,
    }
}

// Moves the bytes of a buffer from one place up to another to its start, and answers how many they are.
fn keep(buf: &mut [u8], from: usize, to: usize) -> usize
    requires { (from ≤ to) × (to ≤ length buf.old) }
    ensures { (result ≡ to - from) × (take result buf.new ≡ take result (drop from buf.old)) }
{
    buf.copy_within(from..to, 0);
    to - from
}

// Runs a piece. Limit and answer room are as many as there are bytes. The counts agree with the cells, so that no record is refused for one.
fn run_piece(device: u8, world: &mut World, piece: &[u8], answers: &mut [u8]) -> Ran
    requires playable { Playable device (world_in world.old) }
    requires room { length piece.now ≤ length answers.old }
    ensures same { AreSame world.new world.old }
    ensures playable { Playable device (world_in world.new) }
    ensures counted { (result.done ≤ length answers.new) × (result.taken ≤ length piece.now) × (number_of result.ended ≢ 15) }
{
    m95::run(device, world, piece, answers, piece.len())
}

// Runs what is in the buffer, writes the answers, and reads on. The run breaks off at a whole record that is refused, at the trace's end, and
// where anything went wrong.
fn play_piece<S: std::io::Read, W: Write>(
    device: u8,
    p: Played,
    world: &mut World,
    buf: &mut [u8],
    answers: &mut [u8],
    trace: &mut S,
    output: &mut W,
) -> ControlFlow<Played, Played>
    requires playable { Playable device (world_in world.old) }
    requires filled_in_bounds { (p.filled ≤ length buf.old) × (length buf.old ≤ length answers.old) }
    ensures same { AreSame world.new world.old }
    ensures playable { Playable device (world_in world.new) }
    ensures counted { MatchControlFlow result (Standing (length buf.new)) (Standing (length buf.new)) }
{
    let ran = run_piece(device, world, &buf[..p.filled], answers);
    let unwritten = output.write_all(&answers[..ran.done]).err();
    let left = keep(buf, ran.taken, p.filled);
    let after = Played {
        ended: ran.ended,
        filled: left,
        records: p.records.wrapping_add(ran.done as u64),
        bytes: p.bytes.wrapping_add(ran.taken as u64),
        trouble: unwritten.map(Trouble::Unwritten),
    };
    if after.trouble.is_some() || !matches!(ran.ended, Ok(()) | Err(Refusal::Cut)) {
        return ControlFlow::Break(after);
    }
    let read = files::read_up(trace, &mut buf[left..]);
    let next = Played {
        filled: left + read.count,
        trouble: read.error.map(Trouble::Unread),
        ..after
    };
    if read.count == 0 || next.trouble.is_some() {
        return ControlFlow::Break(next);
    }
    ControlFlow::Continue(next)
}

// Runs piece after piece to the end. No run uses up the turns.
pub fn play_all<S: std::io::Read, W: Write>(
    device: u8,
    start: Played,
    world: &mut World,
    buf: &mut [u8],
    answers: &mut [u8],
    trace: &mut S,
    output: &mut W,
) -> Played
    requires playable { (Playable device (world_in world.old)) × (number_of start.ended ≡ 0) }
    requires filled_in_bounds { (start.filled ≤ length buf.old) × (length buf.old ≤ length answers.old) }
    ensures same { AreSame world.new world.old }
    ensures playable { Playable device (world_in world.new) }
    ensures counted { number_of result.ended ≢ 15 }
{
    let mut p = start;
    for _ in 0..u64::MAX {
        match play_piece(device, p, world, buf, answers, trace, output) {
            ControlFlow::Continue(next) => p = next,
            ControlFlow::Break(last) => return last,
        }
    }
    p
}

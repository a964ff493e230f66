// A run of play on a device, by the names of its files: CHIP loaded, TRACE run into ANSWERS, and CHIP replaced by way of NEW.

ghost use Rattle.std.specs.Prelude.{◌≤◌, ◌≡◌, length, true, IfSome};
ghost use Rattle.io.specs.Counts.{IsPrefixLen};
ghost use Rattle.rules.specs.Lending.{AreSame, world_in};
ghost use Rattle.rules.specs.Refused.{number_of};
ghost use Rattle.rules.specs.Device.{is_device};
ghost use Rattle.rules.specs.Call.{lent_refusal};
ghost use Rattle.player.specs.Playing.{Playable};

use crate::replacing::replace;
use crate::say::{fail, tell, tell_fault, tell_kind_16, tell_unstorable};
use player::pieces::{Played, Trouble};
use player::{contents, pieces};
use rules::World;
use std::fs::OpenFile;
use std::io::Error;
use std::rt::Files;

// The names of a run's files: CHIP, TRACE, ANSWERS and NEW.
#[derive(Clone, Copy)]
pub struct Names<'a> {
    pub chip: &'a [u8],
    pub trace: &'a [u8],
    pub answers: &'a [u8],
    pub new: &'a [u8],
}

// Closes ANSWERS, and gives what is wrong with it then. std closes without a word; so a file is first brought to its medium, which tells
// all that the closing would.
fn close<F: OpenFile + Drop>(output: F) -> Option<Error> {
    match output.metadata() {
        Ok(found) if found.is_file() => output.sync_all().err(),
        _ => None,
    }
}

// Closes ANSWERS where the trace was read to its end, and tells and gives what went wrong, then or in the run.
fn finish<F: OpenFile + Drop, E: Print>(
    errors: &E,
    trouble: Option<Trouble>,
    output: F,
    trace: &[u8],
    answers: &[u8],
) -> Option<Trouble> {
    if let Some(Trouble::Unread(error)) = trouble {
        fail(
            errors,
            b"play: cannot read to its end the trace ",
            trace,
            Some(error),
        );
        return trouble;
    }
    let trouble = close(output).map(Trouble::Unwritten).or(trouble);
    if let Some(Trouble::Unwritten(error)) = trouble {
        fail(
            errors,
            b"play: cannot write the answers ",
            answers,
            Some(error),
        );
    }
    trouble
}

// Runs the trace into ANSWERS, from what was read of it. Trouble is told, and marked in what is handed back.
fn play_into<R: Files, E: Print>(
    rt: &R,
    errors: &E,
    device: u8,
    start: Played,
    world: &mut World,
    buf: &mut [u8],
    input: &mut R::File,
    trace: &[u8],
    answers: &[u8],
) -> Played
    requires playable { (Playable device (world_in world.old)) × (number_of start.ended ≡ 0) }
    requires filled_in_bounds { (start.filled ≤ length buf.old) × (length buf.old ≡ 65536) }
    ensures same { AreSame world.new world.old }
    ensures playable { Playable device (world_in world.new) }
{
    let mut room = io::large_buffer();
    let mut output = match files::open_overwrite(rt, answers) {
        Ok(output) => output,
        Err(error) => {
            fail(
                errors,
                b"play: cannot write the answers ",
                answers,
                Some(error),
            );
            return Played {
                trouble: Some(Trouble::Unwritten(error)),
                ..start
            };
        }
    };
    let played = pieces::play_all(device, start, world, buf, &mut room, input, &mut output);
    Played {
        trouble: finish(errors, played.trouble, output, trace, answers),
        ..played
    }
}

// Opens TRACE, reads as much of it as the buffer holds, and gives it and how many bytes that are. Trouble is told.
fn begin<R: Files, E: Print>(
    rt: &R,
    errors: &E,
    trace: &[u8],
    buf: &mut [u8],
) -> Option<(R::File, usize)>
    ensures { IfSome result (λ begun. IsPrefixLen begun.1 buf.new) }
{
    let unread = |error| fail(errors, b"play: cannot read the trace ", trace, Some(error));
    let mut input = files::open_read(rt, trace).map_err(unread).ok()?;
    let read = files::read_up(&mut input, buf);
    if let Some(error) = read.error {
        unread(error);
        return None;
    }
    Some((input, read.count))
}

// Plays the trace on a chip that is loaded. TRACE is read, and NEW is open, before ANSWERS is touched.
fn play_loaded<R: Files + Print, E: Print>(
    rt: &R,
    errors: &E,
    device: u8,
    world: &mut World,
    names: Names<'_>,
)
    requires { Playable device (world_in world.old) }
    ensures same { AreSame world.new world.old }
{
    let mut buf = io::large_buffer();
    let Some((mut input, count)) = begin(rt, errors, names.trace, &mut buf) else {
        return;
    };
    let fresh = match files::open_overwrite(rt, names.new) {
        Ok(fresh) => fresh,
        Err(error) => {
            fail(
                errors,
                b"play: cannot write the chip's new contents ",
                names.new,
                Some(error),
            );
            return;
        }
    };
    tell_kind_16(errors, &buf[..count]);
    let start = pieces::started(count);
    let played = play_into(
        rt,
        errors,
        device,
        start,
        world,
        &mut buf,
        &mut input,
        names.trace,
        names.answers,
    );
    let state = world.state;
    let cells = &mut *world.cells;
    let identification = &mut *world.identification;
    if replace(
        rt,
        errors,
        played,
        fresh,
        state,
        cells,
        identification,
        names.new,
        names.chip,
    ) {
        tell(rt, errors, played, state);
    }
}

// Plays the trace on a world of the device's lengths: a prepared chip, with what its file holds. No file has counts, so that the pages are
// counted when it is read.
fn play_lent<R: Files + Print, E: Print>(
    rt: &R,
    errors: &E,
    device: u8,
    world: &mut World,
    names: Names<'_>,
)
    requires { lent_refusal device world.old.cells.now world.old.identification.now world.old.latch.now world.old.counts.now ≡ 0 }
    ensures same { AreSame world.new world.old }
{
    let cells = &mut *world.cells;
    let identification = &mut *world.identification;
    let latch = &mut *world.latch;
    let counts = &mut *world.counts;
    let _ = m95::prepare(device, cells, identification, latch, counts);
    let known = tables::device(device);
    let prepared = Some(contents::PREPARED);
    let loaded = contents::load(rt, known, names.chip, prepared, cells, identification);
    let stored = match loaded {
        Ok(stored) => stored,
        Err(fault) => {
            tell_fault(errors, fault, names.chip);
            return;
        }
    };
    let Ok(state) = m95::load(device, stored) else {
        tell_unstorable(errors);
        return;
    };
    world.state = state;
    let _ = m95::count_pages(device, cells, counts);
    play_loaded(rt, errors, device, world, names);
}

// Plays the trace on a device, in as much of the room as it has cells and pages. That room is on the stack, and not there for a question as well: it
// is a function of its own when it is compiled, too.
#[inline(never)]
#[tactic(auto, using(rules::proofs::Widths::room))]
pub fn play_device<R: Files + Print, E: Print>(rt: &R, errors: &E, device: u8, names: Names<'_>)
    requires { is_device device ≡ true }
{
    let mut cells = [0xFFu8; 262144];
    let mut identification = [0u8; 256];
    let mut latch = [0u8; 512];
    let mut counts = [0u16; 1024];
    let known = tables::device(device);
    let row = known.row;
    let mut world = World {
        state: m95::prepared_state(),
        cells: &mut cells[..row.cells],
        identification: &mut identification[..row.identification],
        latch: &mut latch[..row.page + row.page],
        counts: &mut counts[..tables::page_count(known)],
    };
    play_lent(rt, errors, device, &mut world, names);
}

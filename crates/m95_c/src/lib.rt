// The library's calls for C, as include/m95.h declares them: numbers, buffers as pointer and length, and the state as bytes. Each takes
// any numbers and any buffers, and its contract says its whole answer and all that it leaves in them (specs/Left.antt). Those that show a
// size, the first blank page, the status, what is stored or a page are in `showing`.

#![tactic(auto)]

ghost use Rattle.std.specs.Prelude.{◌≡◌, IfOk};
ghost use Rattle.rules.specs.Refused.{number_of, answer_of};
ghost use Rattle.rules.specs.Call.{counted_as, count_outcome, replied_as as outcome_as};
ghost use Rattle.rules.specs.Device.{row_of};
ghost use Rattle.rules.specs.Lending.{AreSame, world_in};
ghost use Rattle.rules.specs.Sound.{Sound};
ghost use Rattle.state_bytes.specs.StateBytes.{version};
ghost use Rattle.m95_c.specs.Left.{device_of, buffers_of, buffers_refusal, prepared_as, prepare_left, loaded_as, load_left, replied_as, asked, event_left, ran_as, run_left};

use numbers::{byte_for, device_of, event_of};
use rules::{Level, Refusal, Stored, World, number_of};
use state_bytes::{no_state, put_state, state_of};
use traces::records::run_records;

mod numbers;
pub mod showing;

// Which bytes a state is: another number where one of them means something else.
#[unsafe(no_mangle)]
pub extern "C" fn m95_version() -> usize
    ensures { result ≡ version }
{
    1
}

// What a device's buffers are refused with, 1 to 4, 14 or 5, or 0.
#[unsafe(no_mangle)]
pub extern "C" fn m95_refusal(
    device: usize,
    state: &[u8],
    cells: &[u8],
    identification: &[u8],
    latch: &[u8],
    counts: &[u16],
) -> usize
    ensures { result ≡ buffers_refusal device (buffers_of state.now cells.now identification.now latch.now counts.now) }
{
    number_of(m95::world_refused(
        device_of(device),
        state_of(state),
        cells,
        identification,
        latch,
        counts,
    ))
}

// Prepares a device.
#[tactic(auto, unfolding(crate::specs::Left::prepare_left))]
#[unsafe(no_mangle)]
pub extern "C" fn m95_prepare(
    device: usize,
    state: &mut [u8],
    cells: &mut [u8],
    identification: &mut [u8],
    latch: &mut [u8],
    counts: &mut [u16],
) -> usize
    ensures { prepared_as result (buffers_of state.new cells.new identification.new latch.new counts.new)
        ≡ prepare_left device (buffers_of state.old cells.old identification.old latch.old counts.old) }
{
    let device = device_of(device);
    if state.len() != 36 {
        return number_of(m95::world_refused(
            device,
            no_state(),
            cells,
            identification,
            latch,
            counts,
        ));
    }
    let prepared = m95::prepare(device, cells, identification, latch, counts);
    put_state(state, prepared.unwrap_or(m95::prepared_state()));
    number_of(prepared)
}

// Counts a device's pages afresh from its cells.
#[unsafe(no_mangle)]
pub extern "C" fn m95_count_pages(device: usize, cells: &[u8], counts: &mut [u16]) -> usize
    ensures { counted_as result counts.new ≡ count_outcome (device_of device) cells.now counts.old }
{
    number_of(m95::count_pages(device_of(device), cells, counts))
}

// Puts the state of a device that has just got its power, with what it has stored.
#[tactic(auto, unfolding(crate::specs::Left::load_left))]
#[unsafe(no_mangle)]
pub extern "C" fn m95_load(device: usize, state: &mut [u8], status: usize, lock: usize) -> usize
    ensures { loaded_as result state.new ≡ load_left device state.old status lock }
{
    let stored = Stored {
        status: byte_for(status),
        lock: byte_for(lock),
    };
    match m95::load(device_of(device), stored) {
        Ok(loaded) if state.len() == 36 => {
            put_state(state, loaded);
            0
        }
        Ok(_) => Refusal::State.number(),
        Err(refusal) => refusal.number(),
    }
}

// An event by its kind and its number, refused first for what is lent. The event judges the world itself: to judge it here besides would cost a
// single event half as much again (docs/SPEED.md).
#[tactic(auto, unfolding(crate::specs::Left::asked, rules::specs::Call::event_outcome))]
fn replied(device: u8, world: &mut World, kind: usize, value: usize) -> Result<Level, Refusal>
    ensures same { AreSame world.new world.old }
    ensures outcome { outcome_as (number_of result) (answer_of result) (world_in world.new) ≡ asked device (world_in world.old) kind value }
    ensures sound { IfOk result (λ q. Sound (row_of device) (world_in world.old)) }
{
    match event_of(kind, value) {
        Ok(event) => m95::event(device, world, event),
        Err(refusal) => m95::judged(device, world).and(Err(refusal)),
    }
}

// One event.
#[tactic(auto, using(crate::proofs::Leaving::event_refused), unfolding(crate::specs::Left::event_left, crate::specs::Left::asked))]
#[unsafe(no_mangle)]
pub extern "C" fn m95_event(
    device: usize,
    state: &mut [u8],
    cells: &mut [u8],
    identification: &mut [u8],
    latch: &mut [u8],
    counts: &mut [u16],
    kind: usize,
    value: usize,
    answer: &mut usize,
) -> usize
    ensures { replied_as result answer.new (buffers_of state.new cells.new identification.new latch.new counts.new)
        ≡ event_left device (buffers_of state.old cells.old identification.old latch.old counts.old) kind value }
{
    let mut world = World {
        state: state_of(state),
        cells,
        identification,
        latch,
        counts,
    };
    match replied(device_of(device), &mut world, kind, value) {
        Ok(level) => {
            put_state(state, world.state);
            *answer = usize::from(level.byte());
            0
        }
        Err(refusal) => {
            *answer = 2;
            refusal.number()
        }
    }
}

// A trace, as many of its records as asked for. The world is judged once, and its records are run as `m95::run` runs them.
#[tactic(auto, unfolding(crate::specs::Left::run_left, rules::specs::Call::run_outcome))]
#[unsafe(no_mangle)]
pub extern "C" fn m95_run(
    device: usize,
    state: &mut [u8],
    cells: &mut [u8],
    identification: &mut [u8],
    latch: &mut [u8],
    counts: &mut [u16],
    trace: &[u8],
    answers: &mut [u8],
    limit: usize,
    taken: &mut usize,
    done: &mut usize,
) -> usize
    ensures { ran_as result taken.new done.new answers.new (buffers_of state.new cells.new identification.new latch.new counts.new)
        ≡ run_left device (buffers_of state.old cells.old identification.old latch.old counts.old)
        trace.now answers.old limit }
{
    let mut world = World {
        state: state_of(state),
        cells,
        identification,
        latch,
        counts,
    };
    *taken = 0;
    *done = 0;
    match m95::judged(device_of(device), &world) {
        Ok(known) => {
            let ran = run_records(known, &mut world, trace, answers, limit);
            put_state(state, world.state);
            *taken = ran.taken;
            *done = ran.done;
            number_of(ran.ended)
        }
        Err(refusal) => refusal.number(),
    }
}

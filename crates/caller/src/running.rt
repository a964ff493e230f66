// Events, one by one and in a trace.

#![tactic(auto, unfolding(
// What is lent.
rules::specs::Call::memory_refusal, rules::specs::Call::lent_refusal, rules::specs::Call::world_refusal, rules::specs::Sound::is_sound, rules::specs::Sound::clauses,
// An event.
rules::specs::Call::event_outcome, rules::specs::Event::step, rules::specs::Event::react, rules::specs::Cycle::filled,
// The end of a write's selection.
rules::specs::Judge::judged, rules::specs::Judge::is_done, rules::specs::Judge::is_whole, rules::specs::Judge::allows, rules::specs::Judge::is_protected,
// A trace.
rules::specs::Call::run_outcome, rules::specs::Trace::turn, rules::specs::Trace::record_refusal, rules::specs::Trace::event_at,))]

ghost use Rattle.std.specs.Prelude.{◌≡◌, length};
ghost use Rattle.rules.specs.Refused.{answer_of};

use rules::{Command, Cycle, Event, Instruction, Kind, Level, Place, Refusal, World, number_of};

// The answer of an event: 2 where it was refused.
fn answered(reply: Result<Level, Refusal>) -> u8
    ensures { result ≡ answer_of reply }
{
    reply.unwrap_or(Level::Z).byte()
}

// An event on a prepared device, and on none.
pub fn replies() {
    let mut world = World {
        state: m95::prepared_state(),
        cells: &mut [0xFFu8; 512],
        identification: &mut [0xFFu8; 16],
        latch: &mut [0u8; 32],
        counts: &mut [0u16; 32],
    };
    let reply = m95::event(1, &mut world, Event::Select(false));
    check::expect(number_of(reply) == 0);
    check::expect(answered(reply) == 2);
    let refused = m95::event(0, &mut world, Event::Power);
    check::expect(number_of(refused) == 1);
    check::expect(answered(refused) == 2);
}

// A write that would end in a blank page whose count is 1: the wait is refused with 15.
pub fn refuses_a_wrong_count() {
    let mut state = m95::prepared_state();
    state.cycle = Cycle {
        kind: Kind::Array,
        next: 0,
    };
    state.place = Place {
        address: 0,
        start: 0,
        left: 1,
    };
    let mut world = World {
        state,
        cells: &mut [0xFFu8; 512],
        identification: &mut [0xFFu8; 16],
        latch: &mut [0u8; 32],
        counts: &mut [1u16; 32],
    };
    let refused = m95::event(1, &mut world, Event::Wait(1));
    check::expect(number_of(refused) == 15);
    check::expect(world.counts[0] == 1);
}

// S rises on an M95128-D in hold that has the bytes of a WRITE: a cycle starts, and RDSR would send WIP and WEL.
pub fn writes_in_hold() {
    let mut state = m95::prepared_state();
    state.command = Command {
        instruction: Instruction::Write,
        away: false,
    };
    state.pins.s = false;
    state.pins.hold = false;
    state.selection.selected = true;
    state.selection.held = true;
    state.input.bytes = 4;
    state.registers.wel = true;
    let mut world = World {
        state,
        cells: &mut [0xFFu8; 16384],
        identification: &mut [0xFFu8; 64],
        latch: &mut [0u8; 128],
        counts: &mut [0u16; 256],
    };
    let reply = m95::event(2, &mut world, Event::Select(true));
    check::expect(number_of(reply) == 0);
    check::expect(m95::status_byte(world.state) == 3);
}

// A trace of one record on a prepared device, and on none.
pub fn runs() {
    let mut world = World {
        state: m95::prepared_state(),
        cells: &mut [0xFFu8; 512],
        identification: &mut [0xFFu8; 16],
        latch: &mut [0u8; 32],
        counts: &mut [0u16; 32],
    };
    let trace = [3u8, 0, 1, 0, 4];
    let mut answers = [9u8; 1];
    let ran = m95::run(1, &mut world, &trace, &mut answers, 5);
    check::expect(number_of(ran.ended) == 0);
    check::expect(ran.done == 1);
    check::expect(ran.taken == 5);
    let refused = m95::run(9, &mut world, &trace, &mut answers, 5);
    check::expect(number_of(refused.ended) == 1);
    check::expect(refused.done == 0);
}

// An event and a trace on whatever device: each buffer is as long afterwards as it was lent, done or refused.
fn asks(device: u8, world: &mut World, event: Event, trace: &[u8], answers: &mut [u8])
    ensures cells { length world.new.cells.now ≡ length world.old.cells.now }
    ensures identification { length world.new.identification.now ≡ length world.old.identification.now }
    ensures latch { length world.new.latch.now ≡ length world.old.latch.now }
    ensures counts { length world.new.counts.now ≡ length world.old.counts.now }
{
    let _ = m95::event(device, world, event);
    let _ = m95::run(device, world, trace, answers, trace.len());
}

// The buffers of an M95010 are as long after both.
pub fn keeps_lengths() {
    let mut world = World {
        state: m95::prepared_state(),
        cells: &mut [0xFFu8; 128],
        identification: &mut [],
        latch: &mut [0u8; 32],
        counts: &mut [0u16; 8],
    };
    asks(5, &mut world, Event::Power, &[3u8, 0, 1, 0, 4], &mut []);
    check::expect(world.cells.len() == 128);
    check::expect(world.latch.len() == 32);
    check::expect(world.counts.len() == 8);
}

// A world is judged before anything is asked of it: a prepared one is refused by nothing, and one for no device with 1.
pub fn judges_a_world() {
    let world = World {
        state: m95::prepared_state(),
        cells: &mut [0xFFu8; 512],
        identification: &mut [0xFFu8; 16],
        latch: &mut [0u8; 32],
        counts: &mut [0u16; 32],
    };
    check::expect(number_of(m95::judged(1, &world)) == 0);
    check::expect(number_of(m95::judged(8, &world)) == 1);
}

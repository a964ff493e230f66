// What each event does: its pin, what it does besides, and the hold rule after it.

ghost use Rattle.std.specs.Prelude.{◌+◌, ◌<◌, ◌≤◌, ◌≡◌, length};
ghost use Rattle.rules.specs.World.{ℕ, List, with_pins, world_of};
ghost use Rattle.rules.specs.Device.{page_count};
ghost use Rattle.rules.specs.Event.{pins_after, selected, deselected, decodes, settled, step, refusal, next, answer};
ghost use Rattle.rules.specs.Judge.{storable};
ghost use Rattle.rules.specs.Lending.{AreSame, world_in};
ghost use Rattle.rules.specs.Refused.{number_of};
ghost use Rattle.rules.specs.Sound.{SoundInput, SoundCycle, Sound, Lent};
ghost use Rattle.chip.specs.Alone.{step_alone};

use rules::{
    Command, Device, Event, Input, Instruction, Level, Output, Pins, Place, Refusal, Row,
    Selection, State, World,
};
use wire::{receive, send};
use write::{cycle, judge};

// An edge of C counts while selected and not held.
pub fn is_decoding(s: State) -> bool
    ensures { result ≡ decodes s }
{
    s.selection.selected & !s.selection.held
}

// The hold rule.
pub fn settle(s: State) -> State
    ensures { result ≡ settled s }
{
    let mut t = s;
    if s.selection.selected & !s.pins.c {
        t.selection.held = !s.pins.hold;
    }
    t
}

// A selection begins: all that came in before is gone, and W counts as seen low if it is low now.
pub fn select(s: State) -> State
    ensures { result ≡ selected s }
{
    State {
        place: Place {
            address: 0,
            ..s.place
        },
        selection: Selection {
            selected: true,
            held: false,
            seen: !s.pins.w,
        },
        input: Input {
            bits: 0,
            value: 0,
            bytes: 0,
            last: 0,
        },
        command: Command {
            instruction: Instruction::Unknown,
            away: false,
        },
        output: Output {
            sending: 0,
            q: Level::Z,
        },
        ..s
    }
}

// Not selected, not held, nothing received, Q at Z.
pub fn deselect(s: State) -> State
    ensures { result ≡ deselected s }
{
    State {
        selection: Selection {
            selected: false,
            held: false,
            ..s.selection
        },
        input: Input {
            bits: 0,
            value: 0,
            bytes: 0,
            ..s.input
        },
        output: Output {
            q: Level::Z,
            ..s.output
        },
        ..s
    }
}

// The pins get their levels, and the hold rule goes by them.
fn set_pins(s: State, pins: Pins) -> State
    ensures { result ≡ settled (with_pins pins s) }
{
    settle(State { pins, ..s })
}

// D is set.
#[tactic(auto, unfolding(rules::specs::Event::step, rules::specs::Event::react))]
pub fn set_data(row: Row, s: State, high: bool) -> State
    ensures { result ≡ step_alone row (Event.Data high) s }
{
    set_pins(s, Pins { d: high, ..s.pins })
}

// S is set: its fall selects, and its rise judges the command and deselects.
pub fn chip_select(device: Device, s: State, high: bool) -> State
    ensures { result ≡ step_alone device.row (Event.Select high) s }
{
    let mut t = s;
    if high {
        if s.selection.selected & !s.pins.s {
            t = deselect(judge::judge(device, s));
        }
    } else if s.pins.s {
        t = select(s);
    }
    t.pins.s = high;
    settle(t)
}

// HOLD is set.
#[tactic(auto, unfolding(rules::specs::Event::step, rules::specs::Event::react))]
pub fn hold(row: Row, s: State, high: bool) -> State
    ensures { result ≡ step_alone row (Event.Hold high) s }
{
    set_pins(
        s,
        Pins {
            hold: high,
            ..s.pins
        },
    )
}

// W is set: low in a selection, it was seen low.
#[tactic(auto, unfolding(rules::specs::Event::step, rules::specs::Event::react))]
pub fn write_protect(row: Row, s: State, high: bool) -> State
    ensures { result ≡ step_alone row (Event.Protect high) s }
{
    let mut t = s;
    t.pins.w = high;
    if !high {
        t.selection.seen |= s.selection.selected;
    }
    settle(t)
}

// Power comes back.
#[tactic(auto, unfolding(rules::specs::Event::step, rules::specs::Event::react))]
pub fn power(row: Row, s: State) -> State
    ensures { result ≡ step_alone row Event.Power s }
{
    let mut t = deselect(s);
    t.registers.wel = false;
    settle(t)
}

// C gets its level, and the hold rule goes by it.
fn set_clock(s: State, high: bool) -> State
    ensures { result ≡ settled (with_pins (pins_after (Event.Clock high) s.pins) s) }
{
    set_pins(s, Pins { c: high, ..s.pins })
}

// C is set. It looks at no count, so that it does what the rules say whatever the counts are.
pub fn clock(
    device: Device,
    s: State,
    cells: &[u8],
    identification: &[u8],
    latch: &mut [u8],
    high: bool,
) -> State
    requires input { SoundInput s.input }
    requires stored { (s.place.address < device.row.cells) × (storable device.row s.registers.status ≡ s.registers.status) }
    requires lengths { (length cells.now ≡ device.row.cells) × (length identification.now ≡ device.row.identification)
        × (length latch.old ≡ device.row.page + device.row.page) }
    ensures { (counts : List ℕ) → world_of result cells.now identification.now latch.new counts
        ≡ step device.row (Event.Clock high) (world_of s cells.now identification.now latch.old counts) }
{
    if high {
        let t = receive::rise(device, s, is_decoding(s) & !s.pins.c, latch);
        set_clock(t, true)
    } else {
        let t = send::fall(device, s, is_decoding(s) & s.pins.c, cells, identification);
        set_clock(t, false)
    }
}

// Any event that is not refused.
#[tactic(auto, unfolding(rules::specs::Event::step, rules::specs::Event::react))]
pub fn step(device: Device, world: &mut World, event: Event)
    requires sound { Sound device.row (world_in world.old) }
    requires lent { Lent device.row (world_in world.old) }
    ensures same { AreSame world.new world.old }
    ensures world { world_in world.new ≡ step device.row event (world_in world.old) }
{
    let s = world.state;
    match event {
        Event::Clock(high) => {
            let cells = &mut *world.cells;
            let identification = &mut *world.identification;
            let latch = &mut *world.latch;
            world.state = clock(device, s, cells, identification, latch, high);
        }
        Event::Data(high) => world.state = set_data(device.row, s, high),
        Event::Select(high) => world.state = chip_select(device, s, high),
        Event::Hold(high) => world.state = hold(device.row, s, high),
        Event::Protect(high) => world.state = write_protect(device.row, s, high),
        Event::Wait(time) => {
            let cells = &mut *world.cells;
            let identification = &mut *world.identification;
            let latch = &mut *world.latch;
            let counts = &mut *world.counts;
            let t = cycle::wait(device, s, cells, identification, latch, counts, time);
            world.state = settle(t);
        }
        Event::Power => world.state = power(device.row, s),
    }
}

// The level of Q: Z while held, and the kept one comes back.
pub fn answer(s: State) -> Level
    ensures { result ≡ answer s }
{
    if s.selection.held {
        Level::Z
    } else {
        s.output.q
    }
}

// What an event is refused with, asked before anything moves: power during a cycle, and a wait that would end an array cycle on a page whose
// count is wrong. What the identification page and the latch hold does not matter.
pub fn refused(
    device: Device,
    s: State,
    cells: &[u8],
    counts: &[u16],
    event: Event,
) -> Result<(), Refusal>
    requires cycle { SoundCycle device.row s.cycle.kind s.cycle.next s.place.start s.place.left }
    requires lengths { (length cells.now ≡ device.row.cells) × (length counts.now ≡ page_count device.row) }
    ensures { (identification latch : List ℕ) → number_of result ≡ refusal device.row event (world_of s cells.now identification latch counts.now) }
{
    match event {
        Event::Wait(time) if cycle::ends_miscounted(device, s, cells, counts, time) => Err(
            Refusal::Count,
        ),
        Event::Power if receive::is_busy(s) => Err(Refusal::Power),
        _ => Ok(()),
    }
}

// Any event, refused or done. A single event comes here, and the loop of a trace with a wait or power, so that the counting of a page is
// compiled once and stays out of that loop (docs/SPEED.md).
#[tactic(auto, unfolding(rules::specs::Event::next))]
pub fn attempt(device: Device, world: &mut World, event: Event) -> Result<(), Refusal>
    requires sound { Sound device.row (world_in world.old) }
    requires lent { Lent device.row (world_in world.old) }
    ensures same { AreSame world.new world.old }
    ensures number { number_of result ≡ refusal device.row event (world_in world.old) }
    ensures world { world_in world.new ≡ next device.row event (world_in world.old) }
{
    let s = world.state;
    let cells = &mut *world.cells;
    let counts = &mut *world.counts;
    refused(device, s, cells, counts, event)?;
    step(device, world, event);
    Ok(())
}

// Any event, as the loop of a trace does it: no event of a pin is refused, so that it is done at once, and asked nothing.
#[tactic(auto, unfolding(rules::specs::Event::next))]
pub fn take(device: Device, world: &mut World, event: Event) -> Result<(), Refusal>
    requires sound { Sound device.row (world_in world.old) }
    requires lent { Lent device.row (world_in world.old) }
    ensures same { AreSame world.new world.old }
    ensures number { number_of result ≡ refusal device.row event (world_in world.old) }
    ensures world { world_in world.new ≡ next device.row event (world_in world.old) }
{
    match event {
        Event::Wait(_) | Event::Power => attempt(device, world, event),
        _ => {
            step(device, world, event);
            Ok(())
        }
    }
}

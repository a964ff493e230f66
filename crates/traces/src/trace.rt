// Records: reading one, judging it, and doing it. `quick` has the short ways for the commonest ones.

ghost use Rattle.std.specs.Prelude.{◌≡◌, ◌+◌, ◌≤◌, ◌<◌, length, IfOk};
ghost use Rattle.rules.specs.Lending.{AreSame, world_in};
ghost use Rattle.rules.specs.Refused.{number_of};
ghost use Rattle.rules.specs.Sound.{Sound, Lent};
ghost use Rattle.rules.specs.Trace.{two, length_of, pin_event, event_at, bad_pin, progress_of, turn};
ghost use Rattle.traces.specs.Form.{kind_number, IsKind, form_refusal, place_after, count_after};

use chip::event::{answer, take};
use rules::{Device, Event, Refusal, World};

// Two bytes at a place, the least significant first.
pub fn two_at(trace: &[u8], at: usize) -> usize
    requires { at + 2 ≤ length trace.now }
    ensures { result ≡ two trace.now at }
{
    bits::two(trace[at], trace[at + 1])
}

// What a record does: it sets a pin, waits, or cycles the power.
#[derive(Clone, Copy)]
pub enum RecordKind {
    Pin = 1,
    Wait,
    Power,
}

impl TryFrom<usize> for RecordKind {
    type Error = Refusal;

    ghost try_from_gives = { IsKind };

    fn try_from(number: usize) -> Result<RecordKind, Refusal> {
        match number {
            1 => Ok(RecordKind::Pin),
            2 => Ok(RecordKind::Wait),
            3 => Ok(RecordKind::Power),
            _ => Err(Refusal::Kind),
        }
    }
}

impl RecordKind {
    pub fn length(self) -> usize
        ensures { result ≡ length_of (kind_number self) }
    {
        match self {
            RecordKind::Pin => 3,
            RecordKind::Wait => 6,
            RecordKind::Power => 2,
        }
    }
}

// A pin byte: the pin in the upper bits, its new level in bit 0.
pub fn pin_event(byte: u8) -> Event
    ensures { result ≡ pin_event byte }
{
    let high = bits::bit_of(byte as usize, 0);
    match byte >> 1 {
        0 => Event::Clock(high),
        1 => Event::Data(high),
        2 => Event::Select(high),
        3 => Event::Hold(high),
        _ => Event::Protect(high),
    }
}

// The event of a record of this kind.
#[tactic(auto, unfolding(rules::specs::Trace::event_at))]
pub fn event_at(trace: &[u8], at: usize, kind: usize) -> Event
    requires { (kind ≡ two trace.now (at + 2)) × (at + 2 + length_of kind ≤ length trace.now) }
    ensures { result ≡ event_at trace.now at }
{
    match RecordKind::try_from(kind) {
        Ok(RecordKind::Pin) => pin_event(trace[at + 4]),
        Ok(RecordKind::Wait) => Event::Wait(bits::four(
            two_at(trace, at + 4),
            two_at(trace, at + 6),
        )),
        Ok(RecordKind::Power) | Err(_) => Event::Power,
    }
}

// Whether the pin byte of a record is above 9.
pub fn is_bad_pin(trace: &[u8], at: usize, kind: usize) -> bool
    requires { at + 2 + length_of kind ≤ length trace.now }
    ensures { result ≡ bad_pin trace.now at kind }
{
    matches!(RecordKind::try_from(kind), Ok(RecordKind::Pin)) && 9 < trace[at + 4]
}

// A record: its event, and the place behind it.
#[derive(Clone, Copy)]
pub struct Record {
    pub event: Event,
    pub next: usize,
}

// The record at a place, refused by its form in document 01's order. What its event is refused with comes after.
#[tactic(auto, unfolding(crate::specs::Form::form_refusal))]
pub fn record_at(trace: &[u8], at: usize, full: bool) -> Result<Record, Refusal>
    requires { at ≤ length trace.now }
    ensures number { number_of result ≡ form_refusal trace.now at full }
    ensures record { IfOk result (λ r. (r.event ≡ event_at trace.now at) × (r.next ≡ at + 2 + two trace.now at)) }
{
    let left = trace.len() - at;
    if left < 4 {
        return Err(Refusal::Cut);
    }
    let size = two_at(trace, at);
    let kind = two_at(trace, at + 2);
    let right = RecordKind::try_from(kind)?.length();
    if size != right {
        return Err(Refusal::Length);
    }
    if left < 2 + right {
        return Err(Refusal::Cut);
    }
    if is_bad_pin(trace, at, kind) {
        return Err(Refusal::Pin);
    }
    if full {
        return Err(Refusal::Answers);
    }
    Ok(Record {
        event: event_at(trace, at, kind),
        next: at + 2 + size,
    })
}

// One record's turn, and the place behind it.
#[tactic(auto, unfolding(rules::specs::Trace::turn))]
pub fn one(
    device: Device,
    world: &mut World,
    trace: &[u8],
    answers: &mut [u8],
    at: usize,
    n: usize,
) -> Result<usize, Refusal>
    requires sound { Sound device.row (world_in world.old) }
    requires lent { Lent device.row (world_in world.old) }
    requires at_in_bounds { at < length trace.now }
    ensures same { AreSame world.new world.old }
    ensures turn { progress_of (number_of result) (place_after at result) (count_after n result) (world_in world.new) answers.new
        ≡ turn device.row trace.now (progress_of 0 at n (world_in world.old) answers.old) }
{
    let record = record_at(trace, at, answers.len() <= n)?;
    take(device, world, record.event)?;
    answers[n] = answer(world.state).byte();
    Ok(record.next)
}

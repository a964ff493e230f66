// Short ways for the commonest records: D set, C rises within a byte or with the last bit of one that only counts, C falls with
// nothing sent, C falls within a byte. Each is the rules' own step under what `sorted` has found. Everything else takes the full turn.

ghost use Rattle.std.specs.Prelude.{◌≡◌, true, false, not, ◌&&◌, ◌+◌, ◌≤◌, ◌<◌, length, IfSome};
ghost use Rattle.rules.specs.Sound.{SoundInput};
ghost use Rattle.rules.specs.Send.{going, source_of, is_sending};
ghost use Rattle.rules.specs.Event.{decodes};
ghost use Rattle.chip.specs.Alone.{step_alone};
ghost use Rattle.traces.specs.Quick.{IsPin, only_counts, RiseSorted, FallSorted, Sorted};

use crate::trace::two_at;
use rules::{Device, Event, Row, Source, State};
use wire::{receive, send};

#[derive(Clone, Copy)]
pub enum Usual {
    Other,
    Data(bool),
    Bit,
    Still,
    Shift,
    Whole,
}

// The pin byte of a whole pin record.
pub fn pin_byte(trace: &[u8], at: usize) -> Option<u8>
    requires { at ≤ length trace.now }
    ensures { IfSome result (λ byte. IsPin trace.now at byte) }
{
    if trace.len() - at < 5 {
        return None;
    }
    let is_pin = (two_at(trace, at) == 3) & (two_at(trace, at + 2) == 1);
    is_pin.then_some(trace[at + 4])
}

// C falls: nothing is sent, or the next bit of a byte that is not the identification page's.
pub fn usual_fall(device: Device, s: State) -> Usual
    requires { s.place.address < device.row.cells }
    ensures { FallSorted device.row s result }
{
    if !s.pins.c {
        return Usual::Other;
    }
    if !(chip::event::is_decoding(s) & send::is_sending(device, s)) {
        return Usual::Still;
    }
    if s.input.bits == 0 {
        return Usual::Other;
    }
    match send::source_of(s) {
        Source::Identification => Usual::Other,
        _ => Usual::Shift,
    }
}

// Whether a whole byte would do nothing but count: it is no code, no byte of an address, and no data for the latch.
fn only_counts(device: Device, s: State) -> bool
    ensures { result ≡ only_counts device.row s }
{
    let acts = (s.input.bytes == 0)
        | receive::is_last(device.row, s)
        | receive::is_address(device, s)
        | receive::is_latched(device.row, s);
    !acts
}

// C rises: one bit more of a byte, or the eighth of one that only counts.
pub fn usual_rise(device: Device, s: State) -> Usual
    ensures { RiseSorted device.row s result }
{
    if !(chip::event::is_decoding(s) & !s.pins.c) {
        return Usual::Other;
    }
    if s.input.bits != 7 {
        return Usual::Bit;
    }
    if only_counts(device, s) {
        Usual::Whole
    } else {
        Usual::Other
    }
}

// Which way the record at a place takes. D low and D high take one way by one test: a branch between them would go by the data, which no
// processor can foresee.
pub fn sorted(device: Device, s: State, trace: &[u8], at: usize, room: bool) -> Usual
    requires { (s.place.address < device.row.cells) × (at ≤ length trace.now) }
    ensures { Sorted device.row s trace.now at room result }
{
    if !room {
        return Usual::Other;
    }
    match pin_byte(trace, at) {
        Some(0) => usual_fall(device, s),
        Some(1) => usual_rise(device, s),
        Some(byte) if byte <= 3 => Usual::Data(byte == 3),
        _ => Usual::Other,
    }
}

// D is set.
pub fn quick_data(row: Row, s: State, high: bool) -> State
    requires { s.selection.selected ≡ true → s.pins.c ≡ false → s.selection.held ≡ not s.pins.hold }
    ensures { result ≡ step_alone row (Event.Data high) s }
{
    let mut t = s;
    t.pins.d = high;
    t
}

// C rises within a byte.
pub fn quick_bit(row: Row, s: State) -> State
    requires { (SoundInput s.input) × (decodes s ≡ true) × (s.pins.c ≡ false) × (s.input.bits ≡ 7 → ⊥) }
    ensures { result ≡ step_alone row (Event.Clock true) s }
{
    let mut t = s;
    t.pins.c = true;
    t.input.value = bits::with_bit(s.input.value, s.pins.d);
    t.input.bits += 1;
    t
}

// C rises with the last bit of a byte that only counts.
pub fn quick_whole(row: Row, s: State) -> State
    requires { (SoundInput s.input) × (decodes s ≡ true) × (s.pins.c ≡ false) × (s.input.bits ≡ 7) × (only_counts row s ≡ true) }
    ensures { result ≡ step_alone row (Event.Clock true) s }
{
    let mut t = s;
    t.pins.c = true;
    t.input = receive::with_bit(s.input, s.pins.d);
    t
}

// C falls with nothing sent.
pub fn quick_still(row: Row, s: State) -> State
    requires { (s.pins.c ≡ true) × ((decodes s && is_sending row s) ≡ false) }
    ensures { result ≡ step_alone row (Event.Clock false) s }
{
    let mut t = s;
    t.pins.c = false;
    t.selection.held = (s.selection.selected & !s.pins.hold)
        | (!s.selection.selected & s.selection.held);
    t
}

// C falls within a byte.
pub fn quick_shift(row: Row, s: State) -> State
    requires { (s.input.bits ≤ 7) × (s.pins.c ≡ true) × ((decodes s && is_sending row s) ≡ true) × (s.input.bits ≡ 0 → ⊥) × ((going row (source_of s) s.place.address).past ≡ false) }
    ensures { result ≡ step_alone row (Event.Clock false) s }
{
    let mut t = s;
    t.pins.c = false;
    t.output = send::bit_out(s.output.sending, s.input.bits);
    t.selection.held = !s.pins.hold;
    t
}

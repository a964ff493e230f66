// The test for soundness, clause by clause. It is made once a call; within a run every event keeps a sound device sound.

ghost use Rattle.std.specs.Prelude.{◌≡◌, ◌&&◌, ◌+◌, length, eqb, leb, if◌then◌else◌};
ghost use Rattle.rules.specs.Sound.{◌implies◌, all, received_clauses, cycle_clauses, resting_clauses, selected_clauses, page_clauses, is_sound};
ghost use Rattle.rules.specs.Instruction.{busy};

use rules::{Device, Level, Row, State};
use wire::receive::is_busy;

pub fn implies(a: bool, b: bool) -> bool
    ensures { result ≡ (a implies b) }
{
    !a | b
}

// The current byte, whole bytes and the address.
pub fn received_sound(row: Row, s: State) -> bool
    ensures { result ≡ all (received_clauses row s) }
{
    if 7 < s.input.bits {
        return false;
    }
    let limit = 1usize << s.input.bits;
    ((s.input.value as usize) < limit) & (s.input.bytes <= 6) & (s.place.address < row.cells)
}

// A running cycle has some of its write time left; where none runs there is no time left.
pub fn time_sound(row: Row, s: State) -> bool
    ensures { result ≡ (if busy s then leb 1 s.place.left && leb s.place.left row.time else eqb s.place.left 0) }
{
    let left = s.place.left;
    if is_busy(s) {
        (1 <= left) & (left <= row.time)
    } else {
        left == 0
    }
}

// Status, new status, time left and page start.
pub fn cycle_sound(device: Device, s: State) -> bool
    ensures { result ≡ all (cycle_clauses device.row s) }
{
    let row = device.row;
    let status = s.registers.status;
    let next = s.cycle.next;
    let start = s.place.start;
    (bits::stored(row, status) == status)
        & (bits::stored(row, next) == next)
        & time_sound(row, s)
        & (bits::place(device, start) == 0)
        & (start < row.cells)
        & implies(tables::changes(s.cycle.kind).identification, start == 0)
}

// Not selected: not held, nothing received, Q at Z.
pub fn resting_sound(s: State) -> bool
    ensures { result ≡ all (resting_clauses s) }
{
    let off = !s.selection.selected;
    implies(off, !s.selection.held)
        & implies(off, s.input.bits == 0)
        & implies(off, s.input.bytes == 0)
        & implies(off, s.output.q == Level::Z)
}

// Selected: S low, W seen low, held by HOLD; and what a cycle turned away.
pub fn selected_sound(s: State) -> bool
    ensures { result ≡ all (selected_clauses s) }
{
    let on = s.selection.selected;
    let taken = tables::facts(s.command.instruction).taken;
    implies(on, !s.pins.s)
        & implies(on, s.pins.w | s.selection.seen)
        & implies(is_busy(s), (s.input.bytes == 0) | taken | s.command.away)
        & implies(on, s.pins.c | (s.selection.held == !s.pins.hold))
}

// Without an identification page there is no lock, no cycle of that page, and no instruction of it.
pub fn page_sound(row: Row, s: State) -> bool
    ensures { result ≡ all (page_clauses row s) }
{
    let there = tables::has_identification(row);
    let change = tables::changes(s.cycle.kind);
    implies(s.registers.locked, there)
        & implies(change.identification | change.lock, there)
        & implies(tables::facts(s.command.instruction).identifies, there)
}

// Every clause, and the marks.
pub fn is_sound(device: Device, s: State, latch: &[u8]) -> bool
    requires { length latch.now ≡ device.row.page + device.row.page }
    ensures { result ≡ is_sound device.row s latch.now }
{
    let row = device.row;
    received_sound(row, s)
        & cycle_sound(device, s)
        & resting_sound(s)
        & selected_sound(s)
        & page_sound(row, s)
        & memory::latch_is_marked(row, latch)
}

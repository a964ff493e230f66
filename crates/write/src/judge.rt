// S rises: whether the command is done, and what a done one sets or starts.

ghost use Rattle.std.specs.Prelude.{◌≡◌, if◌then◌else◌};
ghost use Rattle.rules.specs.Judge.{storable, blocks, is_protected, is_shut, allows, is_complete, is_dropped, is_done, start_of, judged};

use rules::{Cycle, Device, Kind, Row, State};

// The block protection bits.
pub fn blocks(s: State) -> u8
    ensures { result ≡ blocks s }
{
    bits::blocks(s.registers.status)
}

// Whether a setting of the bits protects an address: one look-up in the service sheet, one comparison.
#[tactic(auto, unfolding(rules::specs::Judge::is_protected))]
pub fn is_protected(row: Row, bp: u8, address: usize) -> bool
    ensures { result ≡ is_protected row bp address }
{
    tables::first_protected(row, bp) <= address
}

// The identification page is shut if locked, or if all blocks are protected.
pub fn is_shut(s: State) -> bool
    ensures { result ≡ is_shut s }
{
    s.registers.locked | (blocks(s) == 3)
}

// Whether a command has what it asks for besides whole bytes, by the cycle that it starts.
#[tactic(auto, unfolding(rules::specs::Judge::allows))]
pub fn allows(device: Device, s: State, kind: Kind) -> bool
    ensures { result ≡ allows device.row s kind }
{
    let row = device.row;
    let bytes = usize::from(s.input.bytes);
    let wel = s.registers.wel;
    let one = row.width == 1;
    let low = s.selection.seen & one;
    match kind {
        Kind::None => bytes == 1,
        Kind::Status => (bytes == 2)
            & wel
            & !(s.selection.seen & (bits::bit_of(usize::from(s.registers.status), 7) | one)),
        Kind::Array => (1 + row.width < bytes)
            & wel
            & !is_protected(row, blocks(s), s.place.address)
            & !low,
        Kind::Identification => (1 + row.width < bytes) & wel & !is_shut(s) & !low,
        Kind::Lock => (bytes == 2 + row.width)
            & wel
            & !is_shut(s)
            & !low
            & bits::bit_of(usize::from(s.input.last), 1),
    }
}

// Complete: not turned away, whole bytes, and all that the command asks for.
#[tactic(auto, unfolding(rules::specs::Judge::is_whole))]
pub fn is_complete(device: Device, s: State) -> bool
    ensures { result ≡ is_complete device.row s }
{
    let starts = tables::facts(s.command.instruction).starts;
    !s.command.away & (s.input.bits == 0) & allows(device, s, starts)
}

// Dropped: found in hold, and no write that this device triggers there.
pub fn is_dropped(row: Row, s: State) -> bool
    ensures { result ≡ is_dropped row s }
{
    let f = tables::facts(s.command.instruction);
    let change = tables::changes(f.starts);
    s.selection.held & !(row.triggers & (f.addressed & change.runs))
}

// Done, in hold or out of it.
#[tactic(auto, unfolding(rules::specs::Judge::is_done))]
pub fn is_done(device: Device, s: State) -> bool
    ensures { result ≡ is_done device.row s }
{
    !is_dropped(device.row, s) & is_complete(device, s)
}

// The page start of a cycle.
pub fn start_of(device: Device, s: State, kind: Kind) -> usize
    ensures { result ≡ start_of device.row s kind }
{
    match kind {
        Kind::Array => s.place.address - bits::place(device, s.place.address),
        Kind::Identification => 0,
        Kind::None | Kind::Status | Kind::Lock => s.place.start,
    }
}

// The new status bits of a cycle.
pub fn next_of(row: Row, s: State, status: bool) -> u8
    ensures { result ≡ (if status then storable row s.input.last else s.cycle.next) }
{
    if status {
        bits::stored(row, s.input.last)
    } else {
        s.cycle.next
    }
}

// The command is judged: a done one sets or resets WEL, or starts its cycle.
#[tactic(auto, unfolding(rules::specs::Judge::judged))]
pub fn judge(device: Device, s: State) -> State
    ensures { result ≡ judged device.row s }
{
    if !is_done(device, s) {
        return s;
    }
    let f = tables::facts(s.command.instruction);
    let change = tables::changes(f.starts);
    let mut t = s;
    t.registers.wel = f.sets | s.registers.wel & !f.resets;
    if !change.runs {
        return t;
    }
    t.cycle = Cycle {
        kind: f.starts,
        next: next_of(device.row, s, change.status),
    };
    t.place.start = start_of(device, s, f.starts);
    t.place.left = device.row.time;
    t
}

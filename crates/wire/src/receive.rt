// C rises: one bit more of a byte; what a whole byte does to the command, the address and the latch.

ghost use Rattle.std.specs.Prelude.{◌≡◌, ◌+◌, ◌*◌, ◌<◌, min, length};
ghost use Rattle.rules.specs.World.{number};
ghost use Rattle.rules.specs.Instruction.{facts, busy, holds_latch, command_bytes, start_address, decode, lock_bit};
ghost use Rattle.rules.specs.Receive.{is_address, is_last, is_latched, command_after, address_after, clears, marked, latch_after, input_after, risen, risen_latch};
ghost use Rattle.rules.specs.Sound.{SoundInput};

use rules::{Command, Device, Input, Instruction, Kind, Row, State};

// Whole bytes stop counting at 6.
pub fn counted(bytes: u8) -> u8
    ensures { result ≡ min (bytes + 1) 6 }
{
    bytes.min(5) + 1
}

// One bit more; the eighth makes a whole byte.
pub fn with_bit(i: Input, d: bool) -> Input
    requires { SoundInput i }
    ensures { result ≡ input_after (i.value * 2 + number d) i }
{
    let value = bits::with_bit(i.value, d);
    if i.bits == 7 {
        Input {
            bits: 0,
            value: 0,
            bytes: counted(i.bytes),
            last: value,
        }
    } else {
        Input {
            bits: i.bits + 1,
            value,
            ..i
        }
    }
}

// Whether a cycle runs.
pub fn is_busy(s: State) -> bool
    ensures { result ≡ busy s }
{
    tables::changes(s.cycle.kind).runs
}

// Whether a cycle of this kind holds the latch.
pub fn holds_latch(kind: Kind) -> bool
    ensures { result ≡ holds_latch kind }
{
    let change = tables::changes(kind);
    change.cells | change.identification
}

// The bytes of a command before its data.
pub fn command_bytes(device: Device, i: Instruction) -> usize
    ensures { result ≡ command_bytes device.row i }
{
    if tables::facts(i).addressed {
        1 + device.row.width
    } else {
        1
    }
}

// The address before its first byte: A8 out of the code, where it is there.
pub fn start_address(row: Row, code: u8, i: Instruction) -> usize
    ensures { result ≡ start_address row code i }
{
    let f = tables::facts(i);
    usize::from(tables::has_a8(row) & f.addressed & !f.paged & bits::bit_of(usize::from(code), 3))
}

// The bit that makes RDID into RDLS and WRID into LID.
pub fn lock_bit(row: Row, address: usize) -> bool
    ensures { result ≡ lock_bit row address }
{
    bits::bit_of(address, if row.width == 1 { 7 } else { 10 })
}

// The byte coming in is the last of an identification instruction's address.
pub fn is_last(row: Row, s: State) -> bool
    ensures { result ≡ is_last row s }
{
    (usize::from(s.input.bytes) == row.width)
        & tables::facts(s.command.instruction).paged
        & !s.command.away
}

// It is a byte of the address.
pub fn is_address(device: Device, s: State) -> bool
    ensures { result ≡ is_address device.row s }
{
    (usize::from(s.input.bytes) < command_bytes(device, s.command.instruction)) & !s.command.away
}

// It is a data byte for the latch.
pub fn is_latched(row: Row, s: State) -> bool
    ensures { result ≡ is_latched row s }
{
    (row.width < usize::from(s.input.bytes))
        & holds_latch(tables::facts(s.command.instruction).starts)
        & !s.command.away
}

// The command after a whole byte.
pub fn command_after(device: Device, s: State, byte: u8) -> Command
    requires { s.place.address < device.row.cells }
    ensures { result ≡ command_after device.row byte s }
{
    if s.input.bytes == 0 {
        let instruction = tables::decode(device.row, byte);
        let away = is_busy(s) & !tables::facts(instruction).taken;
        return Command { instruction, away };
    }
    let whole = bits::with_byte(device, s.place.address, byte);
    if is_last(device.row, s) & lock_bit(device.row, whole) {
        Command {
            instruction: tables::facts(s.command.instruction).lock,
            ..s.command
        }
    } else {
        s.command
    }
}

// The address after a whole byte.
#[tactic(auto, unfolding(rules::specs::Receive::address_after))]
pub fn address_after(device: Device, s: State, byte: u8) -> usize
    requires { s.place.address < device.row.cells }
    ensures { result ≡ address_after device.row byte s }
{
    let address = s.place.address;
    if s.input.bytes == 0 {
        start_address(device.row, byte, tables::decode(device.row, byte))
    } else if is_last(device.row, s) {
        bits::place(device, bits::with_byte(device, address, byte))
    } else if is_address(device, s) {
        bits::with_byte(device, address, byte)
    } else if is_latched(device.row, s) {
        bits::roll(device, address)
    } else {
        address
    }
}

// A code that brings data for the latch clears the marks, unless it is turned away.
pub fn code_clears(row: Row, s: State, byte: u8) -> bool
    ensures { result ≡ clears row byte s }
{
    let f = tables::facts(tables::decode(row, byte));
    holds_latch(f.starts) & !(is_busy(s) & !f.taken)
}

// A data byte goes to its place in the latch, and its mark is set.
pub fn mark(device: Device, address: usize, byte: u8, latch: &mut [u8])
    requires { length latch.old ≡ device.row.page + device.row.page }
    ensures { latch.new ≡ marked device.row address byte latch.old }
{
    let at = bits::place(device, address);
    latch[at] = byte;
    latch[device.row.page + at] = 1;
}

// The latch after a whole byte.
#[tactic(auto, unfolding(rules::specs::Receive::latch_after))]
pub fn latch_after(device: Device, s: State, byte: u8, latch: &mut [u8])
    requires { length latch.old ≡ device.row.page + device.row.page }
    ensures { latch.new ≡ latch_after device.row byte s latch.old }
{
    if s.input.bytes == 0 {
        if code_clears(device.row, s, byte) {
            memory::clear_marks(device.row, latch);
        }
    } else if is_latched(device.row, s) {
        mark(device, s.place.address, byte, latch);
    }
}

// C has risen: where the rise is decoded, D is taken.
#[tactic(auto, unfolding(rules::specs::Receive::risen, rules::specs::Receive::risen_latch))]
pub fn rise(device: Device, s: State, decoded: bool, latch: &mut [u8]) -> State
    requires { (SoundInput s.input) × (s.place.address < device.row.cells) × (length latch.old ≡ device.row.page + device.row.page) }
    ensures { (result ≡ risen device.row decoded s) × (latch.new ≡ risen_latch device.row decoded s latch.old) }
{
    if !decoded {
        return s;
    }
    let mut t = State {
        input: with_bit(s.input, s.pins.d),
        ..s
    };
    if s.input.bits == 7 {
        let byte = t.input.last;
        t.place.address = address_after(device, s, byte);
        t.command = command_after(device, s, byte);
        latch_after(device, s, byte, latch);
    }
    t
}

// Reading a state from its bytes. specs/StateBytes.antt says which byte is what.

ghost use Rattle.std.specs.Prelude.{◌≡◌, ◌+◌, ◌≤◌, get_or};
ghost use Rattle.rules.specs.Trace.{four};
ghost use Rattle.state_bytes.specs.StateBytes.{instructions, levels, kinds, is_state, state_at, no_state, state_of};
ghost use Rattle.state_bytes.specs.StateBytes.{place_at, pins_at, selection_at, command_at, registers_at, output_at, cycle_at, input_at, filler_at};

use rules::{
    Command, Cycle, Filler, Input, Instruction, Kind, Level, Output, Pins, Place, Registers,
    Selection, State,
};

// The lists of StateBytes: what stands at a place in one of them is what a byte of that number means.
const INSTRUCTIONS: [Instruction; 11] = [
    Instruction::Wren,
    Instruction::Wrdi,
    Instruction::Rdsr,
    Instruction::Wrsr,
    Instruction::Read,
    Instruction::Write,
    Instruction::Rdid,
    Instruction::Rdls,
    Instruction::Wrid,
    Instruction::Lid,
    Instruction::Unknown,
];

const LEVELS: [Level; 3] = [Level::Low, Level::High, Level::Z];

const KINDS: [Kind; 5] = [
    Kind::None,
    Kind::Array,
    Kind::Identification,
    Kind::Status,
    Kind::Lock,
];

// What stands at a place of a list, and `other` past its end.
fn listed<T: Copy>(list: &[T], place: u8, other: T) -> T
    ensures { result ≡ get_or list.now place other }
{
    list.get(usize::from(place)).copied().unwrap_or(other)
}

// Four bytes at a place, the least significant first.
fn four_at(bytes: &[u8; 36], at: usize) -> usize
    requires { at + 4 ≤ 36 }
    ensures { result ≡ four bytes.now at }
{
    u32::from_le_bytes([bytes[at], bytes[at + 1], bytes[at + 2], bytes[at + 3]]) as usize
}

// Whether bytes are a state at all.
#[tactic(auto, unfolding(crate::specs::StateBytes::is_state))]
pub fn is_state(bytes: &[u8]) -> bool
    ensures { result ≡ is_state bytes.now }
{
    bytes.len() == 36
        && memory::are_marks(&bytes[12..23])
        && bytes[23] <= 10
        && bytes[24] <= 2
        && bytes[25] <= 4
}

// The groups of the state, read from its bytes.
fn place_at(bytes: &[u8; 36]) -> Place
    ensures { result ≡ place_at bytes.now }
{
    Place {
        address: four_at(bytes, 0),
        start: four_at(bytes, 4),
        left: four_at(bytes, 8),
    }
}

fn pins_at(bytes: &[u8; 36]) -> Pins
    ensures { result ≡ pins_at bytes.now }
{
    Pins {
        c: bytes[12] == 1,
        d: bytes[13] == 1,
        s: bytes[14] == 1,
        hold: bytes[15] == 1,
        w: bytes[16] == 1,
    }
}

fn selection_at(bytes: &[u8; 36]) -> Selection
    ensures { result ≡ selection_at bytes.now }
{
    Selection {
        selected: bytes[17] == 1,
        held: bytes[18] == 1,
        seen: bytes[19] == 1,
    }
}

fn command_at(bytes: &[u8; 36]) -> Command
    ensures { result ≡ command_at bytes.now }
{
    Command {
        instruction: listed(&INSTRUCTIONS, bytes[23], Instruction::Unknown),
        away: bytes[20] == 1,
    }
}

fn registers_at(bytes: &[u8; 36]) -> Registers
    ensures { result ≡ registers_at bytes.now }
{
    Registers {
        status: bytes[31],
        wel: bytes[21] == 1,
        locked: bytes[22] == 1,
    }
}

fn output_at(bytes: &[u8; 36]) -> Output
    ensures { result ≡ output_at bytes.now }
{
    Output {
        sending: bytes[30],
        q: listed(&LEVELS, bytes[24], Level::Z),
    }
}

fn cycle_at(bytes: &[u8; 36]) -> Cycle
    ensures { result ≡ cycle_at bytes.now }
{
    Cycle {
        kind: listed(&KINDS, bytes[25], Kind::None),
        next: bytes[32],
    }
}

fn input_at(bytes: &[u8; 36]) -> Input
    ensures { result ≡ input_at bytes.now }
{
    Input {
        bits: bytes[26],
        value: bytes[27],
        bytes: bytes[28],
        last: bytes[29],
    }
}

fn filler_at(bytes: &[u8; 36]) -> Filler
    ensures { result ≡ filler_at bytes.now }
{
    Filler {
        first: bytes[33],
        second: bytes[34],
        third: bytes[35],
    }
}

fn state_at(bytes: &[u8; 36]) -> State
    ensures { result ≡ state_at bytes.now }
{
    State {
        place: place_at(bytes),
        pins: pins_at(bytes),
        selection: selection_at(bytes),
        input: input_at(bytes),
        command: command_at(bytes),
        output: output_at(bytes),
        registers: registers_at(bytes),
        cycle: cycle_at(bytes),
        filler: filler_at(bytes),
    }
}

// A state that is not sound: it stands for bytes that are none.
pub fn no_state() -> State
    ensures { result ≡ no_state }
{
    let mut none = lent::preparing::prepared_state();
    none.input.bits = 8;
    none
}

// The state that bytes are, or stand for.
#[tactic(auto, unfolding(crate::specs::StateBytes::state_of, crate::specs::StateBytes::is_state))]
pub fn state_of(bytes: &[u8]) -> State
    ensures { result ≡ state_of bytes.now }
{
    match <&[u8; 36]>::try_from(bytes) {
        Ok(state) if is_state(state) => state_at(state),
        _ => no_state(),
    }
}

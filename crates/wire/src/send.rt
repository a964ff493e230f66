// C falls: which byte a command sends, and its next bit.

ghost use Rattle.std.specs.Prelude.{◌≡◌, true, false, ◌≤◌, ◌<◌, length};
ghost use Rattle.rules.specs.Judge.{storable};
ghost use Rattle.rules.specs.Send.{byte_of, going, source_of, is_sending, shown_address, output_of, output_after, fallen};

use crate::receive::{command_bytes, is_busy};
use rules::{Device, Going, Level, Output, Row, Source, State};

// How RDID goes on: past the identification page's end the address stays.
pub fn page_going(row: Row, address: usize) -> Going
    ensures { result ≡ going row Source.Identification address }
{
    let past = row.identification <= address;
    Going {
        sends: true,
        after: if past {
            row.identification
        } else {
            address + 1
        },
        past,
    }
}

// How a source goes on from an address: the status and the lock repeat.
pub fn going_on(device: Device, source: Source, address: usize) -> Going
    requires { address < device.row.cells }
    ensures { result ≡ going device.row source address }
{
    let repeats = Going {
        sends: true,
        after: address,
        past: false,
    };
    match source {
        Source::Silent => Going {
            sends: false,
            ..repeats
        },
        Source::Status | Source::Lock => repeats,
        Source::Cells => Going {
            after: bits::cell_after(device, address),
            ..repeats
        },
        Source::Identification => page_going(device.row, address),
    }
}

// What the command sends.
pub fn source_of(s: State) -> Source
    ensures { result ≡ source_of s }
{
    tables::facts(s.command.instruction).sends
}

// Whether the command is sending.
pub fn is_sending(device: Device, s: State) -> bool
    requires { s.place.address < device.row.cells }
    ensures { result ≡ is_sending device.row s }
{
    going_on(device, source_of(s), s.place.address).sends
        & (command_bytes(device, s.command.instruction) <= usize::from(s.input.bytes))
        & !s.command.away
}

// The address whose byte a fall shows.
#[tactic(auto, unfolding(rules::specs::Send::shown_address))]
pub fn shown_address(device: Device, s: State) -> usize
    requires { s.place.address < device.row.cells }
    ensures { result ≡ shown_address device.row s }
{
    let first = usize::from(s.input.bytes) == command_bytes(device, s.command.instruction);
    if (s.input.bits == 0) & !first {
        going_on(device, source_of(s), s.place.address).after
    } else {
        s.place.address
    }
}

// The byte that a source sends at an address that is not past its end.
pub fn byte_of(
    row: Row,
    s: State,
    cells: &[u8],
    identification: &[u8],
    source: Source,
    address: usize,
) -> u8
    requires { (storable row s.registers.status ≡ s.registers.status) × (address < length cells.now) × (length identification.now ≡ row.identification)
        × ((going row source address).past ≡ false) }
    ensures { result ≡ byte_of s cells.now identification.now source address }
{
    match source {
        Source::Silent => 0,
        Source::Status => bits::status_byte(row, s.registers.status, s.registers.wel, is_busy(s)),
        Source::Cells => cells[address],
        Source::Identification => identification[address],
        Source::Lock => u8::from(s.registers.locked),
    }
}

// The bit of a byte that comes after so many.
pub fn bit_out(byte: u8, bits: u8) -> Output
    requires { bits ≤ 7 }
    ensures { result ≡ output_of byte bits }
{
    Output {
        sending: byte,
        q: Level::from(bits::bit_of(usize::from(byte), usize::from(7 - bits))),
    }
}

// The output at a fall that shows a bit of the byte at an address.
#[tactic(auto, unfolding(rules::specs::Send::output_after))]
pub fn output_after(
    device: Device,
    s: State,
    cells: &[u8],
    identification: &[u8],
    address: usize,
) -> Output
    requires { (s.input.bits ≤ 7) × (storable device.row s.registers.status ≡ s.registers.status) × (address < device.row.cells)
        × (length cells.now ≡ device.row.cells) × (length identification.now ≡ device.row.identification) }
    ensures { result ≡ output_after device.row s cells.now identification.now address }
{
    let source = source_of(s);
    if going_on(device, source, address).past {
        Output {
            q: Level::Z,
            ..s.output
        }
    } else if s.input.bits == 0 {
        bit_out(
            byte_of(device.row, s, cells, identification, source, address),
            0,
        )
    } else {
        bit_out(s.output.sending, s.input.bits)
    }
}

// C has fallen: where the fall is decoded and the command is sending, Q moves on.
#[tactic(auto, unfolding(rules::specs::Send::fallen))]
pub fn fall(device: Device, s: State, decoded: bool, cells: &[u8], identification: &[u8]) -> State
    requires { (s.input.bits ≤ 7) × (s.place.address < device.row.cells) × (storable device.row s.registers.status ≡ s.registers.status)
        × (length cells.now ≡ device.row.cells) × (length identification.now ≡ device.row.identification) }
    ensures { result ≡ fallen device.row decoded s cells.now identification.now }
{
    let mut t = s;
    if decoded & is_sending(device, s) {
        t.place.address = shown_address(device, s);
        t.output = output_after(device, s, cells, identification, t.place.address);
    }
    t
}

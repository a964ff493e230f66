// Bits by mask and shift: of codes, addresses, the status byte and the numbers of a record, taken apart and put together. Each is tied to the
// arithmetic of the rules by a law over the width (proofs/Masks.antt).

#![tactic(auto)]

ghost use Rattle.std.specs.Prelude.{◌≡◌, ◌+◌, ◌-◌, ◌*◌, ◌/◌, ◌%◌, ◌<◌};
ghost use Rattle.rules.specs.World.{bit, number};
ghost use Rattle.rules.specs.Instruction.{longer};
ghost use Rattle.rules.specs.Receive.{rolled};
ghost use Rattle.rules.specs.Judge.{storable};

use rules::{Device, Row};

// A byte so far with one bit more at its low end.
pub fn with_bit(value: u8, d: bool) -> u8
    requires { value < 128 }
    ensures { result ≡ value * 2 + number d }
{
    value << 1 | (d as u8)
}

// Bit k of a byte or of an address.
pub fn bit_of(number: usize, k: usize) -> bool
    requires { k < 64 }
    ensures { result ≡ bit number k }
{
    number >> k & 1 == 1
}

// A code without its bit 3, which is no part of it where the address is one byte.
pub fn without_bit_3(code: u8) -> u8
    ensures { result ≡ code - number (bit code 3) * 8 }
{
    code & 0xF7
}

// The address with one byte more, bits above the array ignored.
pub fn with_byte(device: Device, address: usize, byte: u8) -> usize
    requires { address < device.row.cells }
    ensures { result ≡ longer device.row address byte }
{
    (address << 8 | byte as usize) & (device.row.cells - 1)
}

// The place of an address within its page.
pub fn place(device: Device, address: usize) -> usize
    ensures { result ≡ address % device.row.page }
{
    address & (device.row.page - 1)
}

// The place after an address, round within its page.
pub fn roll(device: Device, address: usize) -> usize
    requires { address < device.row.cells }
    ensures { result ≡ rolled device.row address }
{
    let at = place(device, address);
    address - at + place(device, at + 1)
}

// The cell after an address: after the last comes cell 0.
pub fn cell_after(device: Device, address: usize) -> usize
    requires { address < device.row.cells }
    ensures { result ≡ (address + 1) % device.row.cells }
{
    (address + 1) & (device.row.cells - 1)
}

// The bits of a data byte that a device stores.
pub fn stored(row: Row, byte: u8) -> u8
    ensures { result ≡ storable row byte }
{
    if row.srwd { byte & 0x8C } else { byte & 0x0C }
}

// The byte that RDSR sends, of stored bits, WEL and WIP.
pub fn status_byte(row: Row, status: u8, wel: bool, busy: bool) -> u8
    requires { storable row status ≡ status }
    ensures { result ≡ status + number wel * 2 + number busy }
{
    status | (wel as u8) << 1 | (busy as u8)
}

// The two block protection bits.
pub fn blocks(status: u8) -> u8
    ensures { result ≡ status / 4 % 4 }
{
    status >> 2 & 3
}

// Two bytes, the least significant first.
pub fn two(low: u8, high: u8) -> usize
    ensures { result ≡ low + high * 256 }
{
    u16::from_le_bytes([low, high]) as usize
}

// Two numbers of two bytes, the least significant first.
pub fn four(low: usize, high: usize) -> u32
    requires { (low < 65536) × (high < 65536) }
    ensures { result ≡ low + high * 65536 }
{
    low as u32 | (high as u32) << 16
}

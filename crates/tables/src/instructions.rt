// The instructions: which one a code names on a device, and the table of what each does.

ghost use Rattle.std.specs.Prelude.{◌≡◌, ◌-◌, ◌*◌, if◌then◌else◌};
ghost use Rattle.rules.specs.World.{bit, number};
ghost use Rattle.rules.specs.Device.{single};
ghost use Rattle.rules.specs.Instruction.{facts_of, facts, named, decode};

use crate::devices::has_identification;
use rules::{Facts, Instruction, Kind, Row, Source};

// A code as it is looked up: without bit 3 where the address is one byte.
pub fn plain(row: Row, code: u8) -> u8
    ensures { result ≡ (if single row then code - number (bit code 3) * 8 else code) }
{
    if row.width == 1 {
        bits::without_bit_3(code)
    } else {
        code
    }
}

// What a code names, whether or not the device has an identification page.
pub fn name_of(row: Row, code: u8) -> Instruction
    ensures { result ≡ named row code }
{
    if code == 0x83 {
        return Instruction::Rdid;
    }
    if code == 0x82 {
        return Instruction::Wrid;
    }
    let plain = plain(row, code);
    match plain {
        0x06 => Instruction::Wren,
        0x04 => Instruction::Wrdi,
        0x05 => Instruction::Rdsr,
        0x01 => Instruction::Wrsr,
        0x03 => Instruction::Read,
        0x02 => Instruction::Write,
        _ => Instruction::Unknown,
    }
}

// A row of the instruction table, by its columns.
fn row(
    taken: bool,
    addressed: bool,
    paged: bool,
    identifies: bool,
    lock: Instruction,
    sends: Source,
    sets: bool,
    resets: bool,
    starts: Kind,
) -> Facts
    ensures { result ≡ facts_of taken addressed paged identifies lock sends sets resets starts }
{
    Facts {
        taken: taken,
        addressed: addressed,
        paged: paged,
        identifies: identifies,
        lock: lock,
        sends: sends,
        sets: sets,
        resets: resets,
        starts: starts,
    }
}

// The instruction table. Columns: taken in a cycle too; an address follows; only its place in the page counts; it is of the
// identification page; what the lock bit makes of it; what it sends; sets WEL; resets WEL; the cycle it starts.
pub fn facts(i: Instruction) -> Facts
    ensures { result ≡ facts i }
{
    match i {
        Instruction::Wren => row(
            false,
            false,
            false,
            false,
            Instruction::Wren,
            Source::Silent,
            true,
            false,
            Kind::None,
        ),
        Instruction::Wrdi => row(
            true,
            false,
            false,
            false,
            Instruction::Wrdi,
            Source::Silent,
            false,
            true,
            Kind::None,
        ),
        Instruction::Rdsr => row(
            true,
            false,
            false,
            false,
            Instruction::Rdsr,
            Source::Status,
            false,
            false,
            Kind::None,
        ),
        Instruction::Wrsr => row(
            false,
            false,
            false,
            false,
            Instruction::Wrsr,
            Source::Silent,
            false,
            false,
            Kind::Status,
        ),
        Instruction::Read => row(
            false,
            true,
            false,
            false,
            Instruction::Read,
            Source::Cells,
            false,
            false,
            Kind::None,
        ),
        Instruction::Write => row(
            false,
            true,
            false,
            false,
            Instruction::Write,
            Source::Silent,
            false,
            false,
            Kind::Array,
        ),
        Instruction::Rdid => row(
            false,
            true,
            true,
            true,
            Instruction::Rdls,
            Source::Identification,
            false,
            false,
            Kind::None,
        ),
        Instruction::Rdls => row(
            false,
            true,
            false,
            true,
            Instruction::Rdls,
            Source::Lock,
            false,
            false,
            Kind::None,
        ),
        Instruction::Wrid => row(
            false,
            true,
            true,
            true,
            Instruction::Lid,
            Source::Silent,
            false,
            false,
            Kind::Identification,
        ),
        Instruction::Lid => row(
            false,
            true,
            false,
            true,
            Instruction::Lid,
            Source::Silent,
            false,
            false,
            Kind::Lock,
        ),
        Instruction::Unknown => row(
            false,
            false,
            false,
            false,
            Instruction::Unknown,
            Source::Silent,
            false,
            false,
            Kind::None,
        ),
    }
}

// The instruction of a code. Without an identification page its two codes are unknown.
pub fn decode(row: Row, code: u8) -> Instruction
    ensures { result ≡ decode row code }
{
    let i = name_of(row, code);
    let f = facts(i);
    if f.identifies & !has_identification(row) {
        return Instruction::Unknown;
    }
    i
}

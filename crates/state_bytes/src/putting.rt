// Putting a state into bytes. specs/StateBytes.antt says which byte is what.

ghost use Rattle.std.specs.Prelude.{◌≡◌, length};
ghost use Rattle.state_bytes.specs.StateBytes.{number_bytes, flag_bytes, other_bytes, bytes_of};

use rules::{Place, State};

// Puts the three numbers, four bytes of each.
fn put_numbers(room: &mut [u8], place: Place)
    requires { length room.old ≡ 12 }
    ensures { room.new ≡ number_bytes place }
{
    room[0..4].copy_from_slice(&place.address.to_le_bytes()[..4]);
    room[4..8].copy_from_slice(&place.start.to_le_bytes()[..4]);
    room[8..12].copy_from_slice(&place.left.to_le_bytes()[..4]);
}

// Puts the eleven flags.
fn put_flags(room: &mut [u8], s: State)
    requires { length room.old ≡ 11 }
    ensures { room.new ≡ flag_bytes s }
{
    let flags = [
        s.pins.c as u8,
        s.pins.d as u8,
        s.pins.s as u8,
        s.pins.hold as u8,
        s.pins.w as u8,
        s.selection.selected as u8,
        s.selection.held as u8,
        s.selection.seen as u8,
        s.command.away as u8,
        s.registers.wel as u8,
        s.registers.locked as u8,
    ];
    room.copy_from_slice(&flags);
}

// Puts the other bytes.
fn put_others(room: &mut [u8], s: State)
    requires { length room.old ≡ 13 }
    ensures { room.new ≡ other_bytes s }
{
    let others = [
        s.command.instruction as u8,
        s.output.q as u8,
        s.cycle.kind as u8,
        s.input.bits,
        s.input.value,
        s.input.bytes,
        s.input.last,
        s.output.sending,
        s.registers.status,
        s.cycle.next,
        s.filler.first,
        s.filler.second,
        s.filler.third,
    ];
    room.copy_from_slice(&others);
}

// Puts a state.
#[tactic(auto, unfolding(crate::specs::StateBytes::bytes_of))]
pub fn put_state(room: &mut [u8], s: State)
    requires { length room.old ≡ 36 }
    ensures { room.new ≡ bytes_of s }
{
    put_numbers(&mut room[0..12], s.place);
    put_flags(&mut room[12..23], s);
    put_others(&mut room[23..36], s);
}

// A device as it is prepared: its state, and the lent buffers.

ghost use Rattle.std.specs.Prelude.{◌≡◌};
ghost use Rattle.rules.specs.Device.{prepared_state};
ghost use Rattle.rules.specs.Call.{prepared_as, prepare_outcome};
ghost use Rattle.rules.specs.World.{world_of};
ghost use Rattle.rules.specs.Refused.{number_of, state_of};

use crate::judging::lent_refused;
use rules::{
    Command, Cycle, Filler, Input, Instruction, Kind, Level, Output, Pins, Place, Refusal,
    Registers, Selection, State,
};

// The state of a prepared device, the same for all.
pub fn prepared_state() -> State
    ensures { result ≡ prepared_state }
{
    State {
        place: Place {
            address: 0,
            start: 0,
            left: 0,
        },
        pins: Pins {
            c: false,
            d: false,
            s: true,
            hold: true,
            w: true,
        },
        selection: Selection {
            selected: false,
            held: false,
            seen: false,
        },
        input: Input {
            bits: 0,
            value: 0,
            bytes: 0,
            last: 0,
        },
        command: Command {
            instruction: Instruction::Unknown,
            away: false,
        },
        output: Output {
            sending: 0,
            q: Level::Z,
        },
        registers: Registers {
            status: 0,
            wel: false,
            locked: false,
        },
        cycle: Cycle {
            kind: Kind::None,
            next: 0,
        },
        filler: Filler {
            first: 0,
            second: 0,
            third: 0,
        },
    }
}

// Prepares a device in the lent buffers, and gives its state. Refused, it leaves them as they are.
#[tactic(auto, unfolding(rules::specs::Call::prepare_outcome, rules::specs::Device::prepared))]
pub fn prepare(
    device: u8,
    cells: &mut [u8],
    identification: &mut [u8],
    latch: &mut [u8],
    counts: &mut [u16],
) -> Result<State, Refusal>
    ensures { prepared_as (number_of result) (world_of (state_of prepared_state result) cells.new identification.new latch.new counts.new)
        ≡ prepare_outcome device cells.old identification.old latch.old counts.old }
{
    let known = lent_refused(device, cells, identification, latch, counts)?;
    cells.fill(0xFF);
    memory::prepare_identification(known, identification);
    latch.fill(0);
    counts.fill(0);
    Ok(prepared_state())
}

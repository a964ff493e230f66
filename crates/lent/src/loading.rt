// What is stored: whether a device can have it, the state that it is loaded into, and what a state has stored.

ghost use Rattle.std.specs.Prelude.{◌≡◌};
ghost use Rattle.rules.specs.Device.{prepared_state};
ghost use Rattle.rules.specs.Call.{stored_in, loaded_as, load_outcome};
ghost use Rattle.rules.specs.Refused.{number_of, state_of};

use crate::judging::known_device;
use crate::preparing::prepared_state;
use rules::{Refusal, Registers, State, Stored};

// The state of a device that has just got its power, with what it has stored. Its cells and its identification page are the caller's. Refused
// with 1 where there is no such device; with 5 where it has not these bits, or where the lock is above 1, or above 0 with no page to lock.
#[tactic(auto, unfolding(rules::specs::Call::load_outcome))]
pub fn load(device: u8, stored: Stored) -> Result<State, Refusal>
    ensures { loaded_as (number_of result) (state_of prepared_state result) ≡ load_outcome device stored }
{
    let row = known_device(device)?.row;
    let most = u8::from(tables::has_identification(row));
    if bits::stored(row, stored.status) != stored.status || most < stored.lock {
        return Err(Refusal::State);
    }
    let registers = Registers {
        status: stored.status,
        wel: false,
        locked: stored.lock == 1,
    };
    Ok(State {
        registers,
        ..prepared_state()
    })
}

// What a state has stored besides cells and identification page, sound or not.
pub fn stored(s: State) -> Stored
    ensures { result ≡ stored_in s }
{
    Stored {
        status: s.registers.status,
        lock: u8::from(s.registers.locked),
    }
}

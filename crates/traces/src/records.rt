// Running a trace's records, on a device that is sound: `preserved` keeps it so, and it is judged once.

ghost use Rattle.std.specs.Prelude.{◌≡◌};
ghost use Rattle.rules.specs.Lending.{AreSame, world_in};
ghost use Rattle.rules.specs.Refused.{number_of};
ghost use Rattle.rules.specs.Sound.{Sound, Lent};
ghost use Rattle.rules.specs.Trace.{progress_of, run};

use crate::quick::{Usual, quick_bit, quick_data, quick_shift, quick_still, quick_whole, sorted};
use crate::trace::one;
use chip::event::answer;
use rules::{Device, Refusal, World};

// How a run ended, the records done, and the bytes taken.
#[derive(Clone, Copy)]
pub struct Ran {
    pub ended: Result<(), Refusal>,
    pub done: usize,
    pub taken: usize,
}

// At most `limit` records. The state is changed in a variable of its own, and stands in the world whenever that is handed on. Each short way has
// its own arm and its own end, and all else takes the one full turn: one end for all the arms cost a tenth of the speed (docs/SPEED.md).
pub fn run_records(
    device: Device,
    world: &mut World,
    trace: &[u8],
    answers: &mut [u8],
    limit: usize,
) -> Ran
    requires sound { Sound device.row (world_in world.old) }
    requires lent { Lent device.row (world_in world.old) }
    ensures same { AreSame world.new world.old }
    ensures run { progress_of (number_of result.ended) result.taken result.done (world_in world.new) answers.new
        ≡ run limit device.row trace.now (progress_of 0 0 0 (world_in world.old) answers.old) }
{
    let mut t = world.state;
    let mut at: usize = 0;
    let mut n: usize = 0;
    while n < limit {
        if trace.len() <= at {
            break;
        }
        let way = sorted(device, t, trace, at, n < answers.len());
        match way {
            Usual::Other => {
                world.state = t;
                match one(device, world, trace, answers, at, n) {
                    Ok(next) => at = next,
                    Err(refusal) => {
                        return Ran {
                            ended: Err(refusal),
                            done: n,
                            taken: at,
                        };
                    }
                }
                t = world.state;
                n += 1;
            }
            Usual::Data(high) => {
                t = quick_data(device.row, t, high);
                answers[n] = answer(t).byte();
                at += 5;
                n += 1;
            }
            Usual::Bit => {
                t = quick_bit(device.row, t);
                answers[n] = answer(t).byte();
                at += 5;
                n += 1;
            }
            Usual::Still => {
                t = quick_still(device.row, t);
                answers[n] = answer(t).byte();
                at += 5;
                n += 1;
            }
            Usual::Shift => {
                t = quick_shift(device.row, t);
                answers[n] = answer(t).byte();
                at += 5;
                n += 1;
            }
            Usual::Whole => {
                t = quick_whole(device.row, t);
                answers[n] = answer(t).byte();
                at += 5;
                n += 1;
            }
        }
    }
    world.state = t;
    Ran {
        ended: Ok(()),
        done: n,
        taken: at,
    }
}

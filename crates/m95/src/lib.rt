// The library: prepare, count, the first blank page, load, event, run, what is stored, and a view of a page. Each call takes any input whatever,
// and its contract says its whole answer and the whole contents of every lent buffer as one function of the input: the outcomes of
// rules/specs/Call.antt.

#![tactic(auto)]

ghost use Rattle.std.specs.Prelude.{◌≡◌, IfOk};
ghost use Rattle.rules.specs.World.{world_of};
ghost use Rattle.rules.specs.Device.{row_of};
ghost use Rattle.rules.specs.Send.{status_byte};
ghost use Rattle.rules.specs.Sound.{Sound, Lent};
ghost use Rattle.rules.specs.Trace.{progress_of};
ghost use Rattle.rules.specs.Call.{world_refusal, replied_as, event_outcome, run_outcome};
ghost use Rattle.rules.specs.Lending.{AreSame, world_in};
ghost use Rattle.rules.specs.Refused.{number_of, answer_of};

use lent::judging::lent_refused;
use rules::{Device, Event, Level, Refusal, State, World};
use traces::records::{Ran, run_records};

// The calls that run nothing: preparing, counting, the first blank page and what is stored, whose contracts stand in `lent`, and the view of a
// page, in `pages`.
pub use lent::counting::{count_pages, first_blank};
pub use lent::loading::{load, stored};
pub use lent::preparing::{prepare, prepared_state};
pub use pages::view;

// A device and what is lent for it: refused for what is lent, and then for a state that is not sound, or a mark that is not 0 or 1.
#[tactic(auto, unfolding(rules::specs::Call::world_refusal))]
pub fn world_refused(
    device: u8,
    s: State,
    cells: &[u8],
    identification: &[u8],
    latch: &[u8],
    counts: &[u16],
) -> Result<Device, Refusal>
    ensures number { number_of result ≡ world_refusal device (world_of s cells.now identification.now latch.now counts.now) }
    ensures known { IfOk result (λ known. known.row ≡ row_of device) }
{
    let known = lent_refused(device, cells, identification, latch, counts)?;
    if chip::sound::is_sound(known, s, latch) {
        Ok(known)
    } else {
        Err(Refusal::State)
    }
}

// The same of a world.
pub fn judged(device: u8, world: &World) -> Result<Device, Refusal>
    ensures number { number_of result ≡ world_refusal device (world_in world.now) }
    ensures known { IfOk result (λ known. known.row ≡ row_of device) }
    ensures sound { IfOk result (λ known. Sound known.row (world_in world.now)) }
    ensures lent { IfOk result (λ known. Lent known.row (world_in world.now)) }
{
    world_refused(
        device,
        world.state,
        world.cells,
        world.identification,
        world.latch,
        world.counts,
    )
}

// One event, and the level of Q after it. Refused, it changes nothing, and Q counts as Z.
#[tactic(auto, unfolding(rules::specs::Call::event_outcome, rules::specs::Event::next))]
pub fn event(device: u8, world: &mut World, event: Event) -> Result<Level, Refusal>
    ensures same { AreSame world.new world.old }
    ensures outcome { replied_as (number_of result) (answer_of result) (world_in world.new) ≡ event_outcome device (world_in world.old) event }
{
    let known = judged(device, world)?;
    chip::event::attempt(known, world, event)?;
    Ok(chip::event::answer(world.state))
}

// A trace, as many of its records as asked for.
#[tactic(auto, unfolding(rules::specs::Call::run_outcome))]
pub fn run(device: u8, world: &mut World, trace: &[u8], answers: &mut [u8], limit: usize) -> Ran
    ensures same { AreSame world.new world.old }
    ensures outcome { progress_of (number_of result.ended) result.taken result.done (world_in world.new) answers.new
        ≡ run_outcome device (world_in world.old) trace.now answers.old limit }
{
    match judged(device, world) {
        Ok(known) => run_records(known, world, trace, answers, limit),
        Err(refusal) => Ran {
            ended: Err(refusal),
            done: 0,
            taken: 0,
        },
    }
}

// The byte that RDSR would send in a state, sound or not.
pub fn status_byte(s: State) -> usize
    ensures { result ≡ status_byte s }
{
    let busy = wire::receive::is_busy(s) as usize;
    s.registers.status as usize + (s.registers.wel as usize) * 2 + busy
}

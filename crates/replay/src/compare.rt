// Running a stored vector through the library, and comparing all that is left of it with what the vector says.

ghost use Rattle.std.specs.Prelude.{◌≡◌, ◌≤◌, length};
ghost use Rattle.rules.specs.Lending.{AreSame};

use crate::vector;
use crate::vector::{Header, Vector};
use rules::{State, World, number_of};
use std::ops::Add;
use traces::records::Ran;

// How many vectors were run, and how many differ.
#[derive(Clone, Copy, Default)]
pub struct Tally {
    pub run: u64,
    pub different: u64,
}

impl Add for Tally {
    type Output = Tally;

    fn add(self, other: Tally) -> Tally {
        Tally {
            run: self.run.wrapping_add(other.run),
            different: self.different.wrapping_add(other.different),
        }
    }
}

// What stands for a file, or the end of one, that cannot be read.
pub const UNREAD: Tally = Tally {
    run: 0,
    different: 1,
};

// Whether each byte that a vector names stands in a memory. It is set back to what a prepared device has there.
fn take_back(named: &[u8], memory: &mut [u8], prepared: &[u8]) -> bool
    requires { length memory.old ≡ length prepared.now }
{
    for [a, b, c, d, byte] in named.as_chunks::<5>().0 {
        let address = vector::number([*a, *b, *c, *d]);
        if memory.len() <= address || memory[address] != *byte {
            return false;
        }
        memory[address] = prepared[address];
    }
    true
}

// Whether a memory is a prepared device's but for the bytes that a vector names, which stand in it.
fn is_left(named: &[u8], memory: &mut [u8], prepared: &[u8]) -> bool
    requires { length memory.old ≡ length prepared.now }
{
    take_back(named, memory, prepared) && memory[..] == prepared[..]
}

// Whether a run ended as a vector says: its number and counts, the status and the lock.
fn is_ended(ran: Ran, state: State, h: Header) -> bool {
    let is_counted = (number_of(ran.ended) == h.number)
        & (ran.done == h.done)
        & (ran.taken == h.taken);
    is_counted & (m95::status_byte(state) == h.status) & (state.registers.locked == h.locked)
}

// Whether the run of a vector's trace on a freshly prepared device ends as the vector says, with its answers and its contents. What the
// device had before the run is kept in `blank` and `factory`.
fn is_good(
    vector: Vector<'_>,
    world: &mut World,
    answers: &mut [u8],
    blank: &mut [u8],
    factory: &mut [u8],
) -> bool
    requires long { (length world.old.cells.now ≡ length blank.old) × (length world.old.identification.now ≡ length factory.old) }
    requires enough { length vector.trace.now ≤ length answers.old }
    ensures same { AreSame world.new world.old }
{
    let device = vector.header.device;
    let cells = &mut *world.cells;
    let identification = &mut *world.identification;
    let latch = &mut *world.latch;
    let counts = &mut *world.counts;
    let ready = m95::prepare(device, cells, identification, latch, counts);
    blank.copy_from_slice(cells);
    factory.copy_from_slice(identification);
    world.state = ready.unwrap_or(m95::prepared_state());
    let ran = m95::run(device, world, vector.trace, answers, vector.trace.len());
    let are_cells = is_left(vector.cells, world.cells, blank);
    let is_page = is_left(vector.page, world.identification, factory);
    is_ended(ran, world.state, vector.header)
        & answers.starts_with(vector.answers)
        & are_cells
        & is_page
}

// Whether a vector is good, in as much of the room as its device has cells and pages.
#[tactic(auto, using(rules::proofs::Widths::room))]
fn is_good_here(vector: Vector<'_>) -> bool
    requires { length vector.trace.now ≤ 131072 }
{
    let mut cells = [0u8; 262144];
    let mut identification = [0u8; 256];
    let mut latch = [0u8; 512];
    let mut counts = [0u16; 1024];
    let mut blank = [0u8; 262144];
    let mut factory = [0u8; 256];
    let mut answers = [0u8; 131072];
    let device = tables::device(vector.header.device);
    let row = device.row;
    let mut world = World {
        state: m95::prepared_state(),
        cells: &mut cells[..row.cells],
        identification: &mut identification[..row.identification],
        latch: &mut latch[..row.page + row.page],
        counts: &mut counts[..tables::page_count(device)],
    };
    is_good(
        vector,
        &mut world,
        &mut answers[..vector.trace.len()],
        &mut blank[..row.cells],
        &mut factory[..row.identification],
    )
}

// Runs all the vectors of a file. Bytes that are no whole vector count as one that differs.
pub fn run_all(bytes: &[u8]) -> Tally
    requires { length bytes.now ≤ 131072 }
{
    let mut tally = Tally::default();
    let mut rest = bytes;
    while !rest.is_empty() {
        let Some((vector, behind)) = vector::split(rest) else {
            return tally + UNREAD;
        };
        let different = u64::from(!is_good_here(vector));
        tally = tally + Tally { run: 1, different };
        rest = behind;
    }
    tally
}

// What the bench prints, into a lent buffer: the first record, the run of the trace, and the text.

ghost use Rattle.std.specs.Prelude.{◌+◌, ◌*◌, ◌≤◌, ◌<◌, ◌≡◌, ◌++◌, length, take, IfOk};
ghost use Rattle.io.specs.Counts.{IsPrefixLen};
ghost use Rattle.rules.specs.Lending.{AreSame, world_in};
ghost use Rattle.rules.specs.Refused.{number_of};
ghost use Rattle.rules.specs.Send.{status_byte};
ghost use Rattle.rules.specs.Trace.{progress_of};
ghost use Rattle.rules.specs.Call.{lent_refusal, first_record};
ghost use Rattle.rules.specs.Program.{hexadecimal, header, lines, ended, bench_run, run_text, bench_text};
ghost use Rattle.text.specs.Put.{Put};

use rules::{Refusal, State, World, number_of};
use traces::records::Ran;
use traces::trace::two_at;

// The device that the first record names, refused in document 01's order.
#[tactic(auto, unfolding(rules::specs::Call::first_record))]
fn first_device(input: &[u8]) -> Result<u8, Refusal>
    ensures number { number_of result ≡ (first_record input.now).number }
    ensures device { IfOk result (λ device. (device ≡ (first_record input.now).device) × (1 ≤ device) × (device ≤ 2) × (5 ≤ length input.now) × (length input.now ≤ 32768)) }
{
    let length = input.len();
    let is_too_long = 32768 < length;
    if is_too_long {
        return Err(Refusal::Long);
    }
    if length < 4 {
        return Err(Refusal::Cut);
    }
    if two_at(input, 2) != 16 {
        return Err(Refusal::Kind);
    }
    if two_at(input, 0) != 3 {
        return Err(Refusal::Length);
    }
    if length < 5 {
        return Err(Refusal::Cut);
    }
    let device = input[4];
    if device < 1 {
        return Err(Refusal::Device);
    }
    let is_past = 2 < device;
    if is_past {
        return Err(Refusal::Device);
    }
    Ok(device)
}

// The run of a trace on a freshly prepared device. Limit and answer room are as many as the trace has bytes.
#[tactic(auto, unfolding(rules::specs::Call::prepare_outcome, rules::specs::Program::bench_run))]
fn bench_run(device: u8, world: &mut World, trace: &[u8], answers: &mut [u8]) -> Ran
    requires lent { lent_refusal device world.old.cells.now world.old.identification.now world.old.latch.now world.old.counts.now ≡ 0 }
    requires room { length answers.old ≡ length trace.now }
    ensures same { AreSame world.new world.old }
    ensures run { progress_of (number_of result.ended) result.taken result.done (world_in world.new) answers.new ≡ bench_run device trace.now }
{
    let cells = &mut *world.cells;
    let identification = &mut *world.identification;
    let latch = &mut *world.latch;
    let counts = &mut *world.counts;
    let ready = m95::prepare(device, cells, identification, latch, counts);
    world.state = ready.unwrap_or(m95::prepared_state());
    answers.fill(0);
    m95::run(device, world, trace, answers, trace.len())
}

// The last line.
#[tactic(auto, using(crate::proofs::Printing::lengths))]
fn put_end(number: usize, status: &[u8; 2], out: &mut [u8], at: usize) -> usize
    requires { at + 28 ≤ length out.old }
    ensures { Put out.old at (ended number status.now) out.new result }
{
    let after = text::put_ending(number as u64, status, out, at);
    text::put(b"\n", out, after)
}

// The text of a run: the header, a line for each record done, the end.
#[tactic(auto, using(crate::proofs::Printing::lengths))]
fn put_run(ran: Ran, state: State, answers: &[u8], out: &mut [u8]) -> usize
    requires { (ran.done ≤ length answers.now) × (ran.done * 23 + 64 ≤ length out.old) × (status_byte state < 256) }
    ensures { Put out.old 0 (header ++ lines 1 (take ran.done answers.now) ++ ended (number_of ran.ended) (hexadecimal (status_byte state))) out.new result }
{
    let headed = text::put(b"record q\n", out, 0);
    let listed = text::put_lines(&answers[..ran.done], out, headed);
    let status = text::hexadecimal(m95::status_byte(state));
    put_end(number_of(ran.ended), &status, out, listed)
}

// The text of a trace on a device. The device gets as much of the lent room as it has cells, and so on; the trace as many answer
// bytes as it has bytes.
#[tactic(auto, unfolding(rules::specs::Program::run_text))]
fn put_trace(
    device: u8,
    trace: &[u8],
    cells: &mut [u8],
    identification: &mut [u8],
    latch: &mut [u8],
    counts: &mut [u16],
    answers: &mut [u8],
    out: &mut [u8],
) -> usize
    requires le_device { (1 ≤ device) × (device ≤ 2) × (length trace.now ≤ 32763) }
    requires cells_len { (length cells.old ≡ 16384) × (length identification.old ≡ 64) × (length latch.old ≡ 128) × (length counts.old ≡ 256) }
    requires answers_len { (length answers.old ≡ 32768) × (length out.old ≡ 196608) }
    ensures { Put out.old 0 (run_text (bench_run device trace.now)) out.new result }
{
    let known = tables::device(device);
    let row = known.row;
    let pages = tables::page_count(known);
    let mut world = World {
        state: m95::prepared_state(),
        cells: &mut cells[..row.cells],
        identification: &mut identification[..row.identification],
        latch: &mut latch[..row.page + row.page],
        counts: &mut counts[..pages],
    };
    let answers = &mut answers[..trace.len()];
    let ran = bench_run(device, &mut world, trace, answers);
    put_run(ran, world.state, answers, out)
}

// All that the bench prints for an input, at the start of the lent text, and how much.
#[tactic(auto, unfolding(rules::specs::Program::bench_text))]
pub fn bench_text(
    input: &[u8],
    cells: &mut [u8],
    identification: &mut [u8],
    latch: &mut [u8],
    counts: &mut [u16],
    answers: &mut [u8],
    out: &mut [u8],
) -> usize
    requires cells_len { (length cells.old ≡ 16384) × (length identification.old ≡ 64) × (length latch.old ≡ 128) × (length counts.old ≡ 256) }
    requires answers_len { (length answers.old ≡ 32768) × (length out.old ≡ 196608) }
    ensures prefix_len { IsPrefixLen result out.new }
    ensures out_after { take result out.new ≡ bench_text input.now }
{
    match first_device(input) {
        Ok(device) => put_trace(
            device,
            &input[5..],
            cells,
            identification,
            latch,
            counts,
            answers,
            out,
        ),
        Err(refusal) => put_end(refusal.number(), b"--", out, 0),
    }
}

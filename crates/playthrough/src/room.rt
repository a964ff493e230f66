// Where there is room on a chip: the first blank page of its file, in one line on standard output. No file is changed or made.

ghost use Rattle.std.specs.Prelude.{true, ◌≡◌, length};
ghost use Rattle.rules.specs.Device.{is_device, row_of, page_count};
ghost use Rattle.rules.specs.Call.{count_outcome};

use crate::say::{complain, tell_fault, tell_unstorable};
use player::contents;
use std::rt::Files;

// Prints the line on the room in cells that were read.
fn tell_room<P: Print, E: Print>(out: &P, errors: &E, device: u8, cells: &[u8], counts: &mut [u16])
    requires { (count_outcome device cells.now counts.old).number ≡ 0 }
{
    let mut line = [0u8; 32];
    let length = player::room::put_room(device, cells, counts, &mut line);
    if out.write_all(&line[..length]).is_err() {
        complain(errors, b"play: standard output cannot be written\n");
    }
}

// Prints it for the chip in a file, in buffers of the device's lengths. Contents that a run would refuse are refused here too, and so is a file
// that is not there: a name that was mistyped must not be answered with page 0 of a new chip.
#[tactic(auto, using(crate::proofs::Loading::counting_taken))]
fn ask_lent<R: Files + Print, E: Print>(
    rt: &R,
    errors: &E,
    device: u8,
    cells: &mut [u8],
    identification: &mut [u8],
    counts: &mut [u16],
    chip: &[u8],
)
    requires device_value { (is_device device ≡ true) × (length counts.old ≡ page_count (row_of device)) }
    requires cells_len { (length cells.old ≡ (row_of device).cells) × (length identification.old ≡ (row_of device).identification) }
{
    let known = tables::device(device);
    let stored = match contents::load(rt, known, chip, None, cells, identification) {
        Ok(stored) => stored,
        Err(fault) => {
            tell_fault(errors, fault, chip);
            return;
        }
    };
    if m95::load(device, stored).is_err() {
        tell_unstorable(errors);
        return;
    }
    tell_room(rt, errors, device, cells, counts);
}

// Prints it for a device, in buffers of which as much is lent as the device has cells and pages. Its room on the stack is its own, as that of a run is.
#[inline(never)]
#[tactic(auto, using(rules::proofs::Widths::room))]
pub fn ask_device<R: Files + Print, E: Print>(rt: &R, errors: &E, device: u8, chip: &[u8])
    requires { is_device device ≡ true }
{
    let mut cells = [0xFFu8; 262144];
    let mut identification = [0u8; 256];
    let mut counts = [0u16; 1024];
    let known = tables::device(device);
    let row = known.row;
    ask_lent(
        rt,
        errors,
        device,
        &mut cells[..row.cells],
        &mut identification[..row.identification],
        &mut counts[..tables::page_count(known)],
        chip,
    );
}

// What is lent, judged by its lengths: the device that it fits, or why it is refused.

ghost use Rattle.std.specs.Prelude.{◌≡◌, ◌+◌, length, true, false, IfOk, MatchResult};
ghost use Rattle.rules.specs.Device.{is_device, row_of, page_count};
ghost use Rattle.rules.specs.Call.{memory_refusal, lent_refusal};
ghost use Rattle.rules.specs.Refused.{number_of};

use rules::{Device, Refusal};

// The device of a number, refused with 1 where there is none.
pub(crate) fn known_device(device: u8) -> Result<Device, Refusal>
    ensures { MatchResult result (λ d. (is_device device ≡ true) × (d.row ≡ row_of device)) (λ e. (is_device device ≡ false) × (e ≡ Refusal.Device)) }
{
    if tables::is_device(device) {
        Ok(tables::device(device))
    } else {
        Err(Refusal::Device)
    }
}

// 1 to 3, in document 01's order: no such device; cells or identification page of a wrong length. No number hangs on what else is wrong besides.
#[tactic(auto, unfolding(rules::specs::Call::memory_refusal))]
pub fn memory_refused(device: u8, cells: &[u8], identification: &[u8]) -> Result<Device, Refusal>
    ensures number { number_of result ≡ memory_refusal device cells.now identification.now }
    ensures known { IfOk result (λ d. d.row ≡ row_of device) }
    ensures fits { IfOk result (λ d. (length cells.now ≡ d.row.cells) × (length identification.now ≡ d.row.identification)) }
{
    let known = known_device(device)?;
    if cells.len() != known.row.cells {
        return Err(Refusal::Cells);
    }
    if identification.len() != known.row.identification {
        return Err(Refusal::Identification);
    }
    Ok(known)
}

// 1 to 3, then 4: a latch of a wrong length; then 14: not a count for each page.
#[tactic(auto, unfolding(rules::specs::Call::lent_refusal))]
pub fn lent_refused(
    device: u8,
    cells: &[u8],
    identification: &[u8],
    latch: &[u8],
    counts: &[u16],
) -> Result<Device, Refusal>
    ensures number { number_of result ≡ lent_refusal device cells.now identification.now latch.now counts.now }
    ensures known { IfOk result (λ d. d.row ≡ row_of device) }
    ensures fits { IfOk result (λ d. (length cells.now ≡ d.row.cells) × (length identification.now ≡ d.row.identification)) }
    ensures fits_latch { IfOk result (λ d. (length latch.now ≡ d.row.page + d.row.page) × (length counts.now ≡ page_count d.row)) }
{
    let known = memory_refused(device, cells, identification)?;
    if latch.len() != known.row.page + known.row.page {
        return Err(Refusal::Latch);
    }
    if counts.len() != tables::page_count(known) {
        return Err(Refusal::Counts);
    }
    Ok(known)
}

// A device's pages, counted afresh from its cells, for whoever filled these otherwise than by preparing and events; and the first blank page,
// by the counts alone.

ghost use Rattle.std.specs.Prelude.{◌≡◌};
ghost use Rattle.rules.specs.Call.{counted_as, count_outcome, found_as, blank_outcome};
ghost use Rattle.rules.specs.Refused.{number_of, page_of};

use crate::judging::known_device;
use rules::Refusal;

// Each page gets its count, whatever stood there. Refused with 1 where there is no such device, 2 for cells of a wrong length, 14 where there is
// not a count for each page.
#[tactic(auto, unfolding(rules::specs::Call::count_outcome))]
pub fn count_pages(device: u8, cells: &[u8], counts: &mut [u16]) -> Result<(), Refusal>
    ensures { counted_as (number_of result) counts.new ≡ count_outcome device cells.now counts.old }
{
    let known = known_device(device)?;
    if cells.len() != known.row.cells {
        return Err(Refusal::Cells);
    }
    if counts.len() != tables::page_count(known) {
        return Err(Refusal::Counts);
    }
    memory::counts::recount_all(known, cells, counts);
    Ok(())
}

// The lowest page whose count is 0, or none. Refused with 1 and 14, as counting is.
#[tactic(auto, unfolding(rules::specs::Call::blank_outcome))]
pub fn first_blank(device: u8, counts: &[u16]) -> Result<Option<usize>, Refusal>
    ensures { found_as (number_of result) (page_of result) ≡ blank_outcome device counts.now }
{
    let pages = tables::page_count(known_device(device)?);
    if counts.len() != pages {
        return Err(Refusal::Counts);
    }
    Ok(memory::counts::first_blank(counts))
}

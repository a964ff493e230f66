// A page shown without copying: a part of one of the two lent slices. `m95` hands the call on as its own.

#![tactic(auto)]

ghost use Rattle.std.specs.Prelude.{◌-◌, ◌%◌, ◌<◌, ◌≡◌, [], length, take, drop, MatchResult};
ghost use Rattle.rules.specs.Call.{is_past, shown_as, view_outcome};
ghost use Rattle.rules.specs.Refused.{refusal_number};

use lent::judging::memory_refused;
use rules::{Device, Refusal, Region, Row};

// Whether an address lies past what a region has: past the last cell, and never for the identification page.
#[tactic(auto, unfolding(rules::specs::Call::is_past))]
fn is_past(row: Row, region: Region, address: usize) -> bool
    ensures { result ≡ is_past row region address }
{
    match region {
        Region::Cells => row.cells <= address,
        Region::Identification => false,
    }
}

// The page of the cells that holds an address.
fn page_at<'a>(device: Device, cells: &'a [u8], address: usize) -> &'a [u8]
    requires { (length cells.now ≡ device.row.cells) × (address < device.row.cells) }
    ensures { result.now ≡ take device.row.page (drop (address - address % device.row.page) cells.now) }
{
    let start = address - bits::place(device, address);
    &cells[start..start + device.row.page]
}

// A view of a region: a page of the cells or the identification page. Refused with 1 to 3 for the two slices, whatever the region; then with 13.
#[tactic(auto, unfolding(rules::specs::Call::view_outcome, rules::specs::Call::part_of, rules::specs::Call::is_past))]
pub fn view<'a>(
    device: u8,
    region: Region,
    cells: &'a [u8],
    identification: &'a [u8],
    address: usize,
) -> Result<&'a [u8], Refusal>
    ensures { MatchResult result (λ part. shown_as 0 part.now ≡ view_outcome device region cells.now identification.now address)
        (λ e. shown_as (refusal_number e) [] ≡ view_outcome device region cells.now identification.now address) }
{
    let known = memory_refused(device, cells, identification)?;
    if is_past(known.row, region, address) {
        return Err(Refusal::Address);
    }
    Ok(match region {
        Region::Cells => page_at(known, cells, address),
        Region::Identification => identification,
    })
}

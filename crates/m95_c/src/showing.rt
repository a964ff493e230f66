// The calls that show a size, the first blank page, the status, what is stored or a page. A size is given back; the rest goes to the numbers that
// are lent for it.

ghost use Rattle.std.specs.Prelude.{◌≡◌, MatchResult};
ghost use Rattle.rules.specs.Device.{row_of};
ghost use Rattle.rules.specs.Refused.{refusal_number};
ghost use Rattle.m95_c.specs.Left.{sizes_of, searched_as, blank_left, told_as, status_left, kept_as, stored_left, part_start, placed_as, view_left};

use crate::numbers::{device_of, region_of};
use lent::judging::memory_refused;
use rules::{Refusal, Region, number_of};
use state_bytes::{is_state, state_of};

// How many cells a device has, how many bytes a page of it, how many its identification page, which may have none, and how many pages its cells make.
#[derive(Clone, Copy, Default)]
pub struct Sizes {
    pub cells: usize,
    pub page: usize,
    pub identification: usize,
    pub pages: usize,
}

// A device's sizes; all 0 where there is no such device.
fn sizes_of(device: usize) -> Sizes
    ensures { result ≡ sizes_of device }
{
    let number = device_of(device);
    let known = tables::device(number);
    if tables::is_device(number) {
        return Sizes {
            cells: known.row.cells,
            page: known.row.page,
            identification: known.row.identification,
            pages: tables::page_count(known),
        };
    }
    Sizes::default()
}

#[unsafe(no_mangle)]
pub extern "C" fn m95_cells(device: usize) -> usize
    ensures { result ≡ (sizes_of device).cells }
{
    sizes_of(device).cells
}

#[unsafe(no_mangle)]
pub extern "C" fn m95_page(device: usize) -> usize
    ensures { result ≡ (sizes_of device).page }
{
    sizes_of(device).page
}

#[unsafe(no_mangle)]
pub extern "C" fn m95_identification(device: usize) -> usize
    ensures { result ≡ (sizes_of device).identification }
{
    sizes_of(device).identification
}

#[unsafe(no_mangle)]
pub extern "C" fn m95_pages(device: usize) -> usize
    ensures { result ≡ (sizes_of device).pages }
{
    sizes_of(device).pages
}

// The first blank page, by the counts alone: whether there is one, 1 or 0, and which.
#[tactic(auto, unfolding(crate::specs::Left::blank_left))]
#[unsafe(no_mangle)]
pub extern "C" fn m95_first_blank(
    device: usize,
    counts: &[u16],
    found: &mut usize,
    page: &mut usize,
) -> usize
    ensures { searched_as result found.new page.new ≡ blank_left device counts.now }
{
    let searched = m95::first_blank(device_of(device), counts);
    let blank = searched.unwrap_or(None);
    *found = usize::from(blank.is_some());
    *page = blank.unwrap_or(0);
    number_of(searched)
}

// The byte that RDSR would send in a state, sound or not.
#[tactic(auto, unfolding(crate::specs::Left::status_left, state_bytes::specs::StateBytes::state_of))]
#[unsafe(no_mangle)]
pub extern "C" fn m95_status_byte(state: &[u8], status: &mut usize) -> usize
    ensures { told_as result status.new ≡ status_left state.now }
{
    if !is_state(state) {
        *status = 0;
        return Refusal::State.number();
    }
    *status = m95::status_byte(state_of(state));
    0
}

// What a state has stored besides cells and identification page, sound or not.
#[tactic(auto, unfolding(crate::specs::Left::stored_left, state_bytes::specs::StateBytes::state_of))]
#[unsafe(no_mangle)]
pub extern "C" fn m95_stored(state: &[u8], status: &mut usize, lock: &mut usize) -> usize
    ensures { kept_as result status.new lock.new ≡ stored_left state.now }
{
    if !is_state(state) {
        *status = 0;
        *lock = 0;
        return Refusal::State.number();
    }
    let stored = m95::stored(state_of(state));
    *status = usize::from(stored.status);
    *lock = usize::from(stored.lock);
    0
}

// Where a region's part starts in its buffer.
fn part_start(device: u8, region: Region, address: usize) -> usize
    ensures { result ≡ part_start (row_of device) region address }
{
    match region {
        Region::Cells => address - bits::place(tables::device(device), address),
        Region::Identification => 0,
    }
}

// Where a view of a region starts, in the cells or in the identification page, and how long it is.
#[tactic(auto, unfolding(crate::specs::Left::view_left))]
fn placed(
    device: usize,
    region: usize,
    cells: &[u8],
    identification: &[u8],
    address: usize,
) -> Result<(usize, usize), Refusal>
    ensures { MatchResult result (λ part. placed_as 0 part.0 part.1 ≡ view_left device region cells.now identification.now address)
        (λ e. placed_as (refusal_number e) 0 0 ≡ view_left device region cells.now identification.now address) }
{
    let number = device_of(device);
    memory_refused(number, cells, identification)?;
    let asked = region_of(region)?;
    let part = m95::view(number, asked, cells, identification, address)?;
    Ok((part_start(number, asked, address), part.len()))
}

// A view of a region: where its part starts, and how long it is.
#[unsafe(no_mangle)]
pub extern "C" fn m95_view(
    device: usize,
    region: usize,
    cells: &[u8],
    identification: &[u8],
    address: usize,
    start: &mut usize,
    length: &mut usize,
) -> usize
    ensures { placed_as result start.new length.new
        ≡ view_left device region cells.now identification.now address }
{
    let view = placed(device, region, cells, identification, address);
    let (from, count) = view.unwrap_or((0, 0));
    *start = from;
    *length = count;
    number_of(view)
}

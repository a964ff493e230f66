// How full each page is: a page's cells counted, its count held to them, counts taken afresh, and the first page whose count is 0.

ghost use Rattle.std.specs.Prelude.{◌≡◌, ◌+◌, ◌%◌, ◌≤◌, ◌<◌, length};
ghost use Rattle.rules.specs.Device.{page_count};
ghost use Rattle.rules.specs.Cycle.{filled, is_miscounted, recounted};
ghost use Rattle.rules.specs.Call.{recounted_to, first_blank};

use rules::{Device, Row};

// The cells other than FFh of the page that starts there.
pub fn filled_in(row: Row, start: usize, cells: &[u8]) -> usize
    requires { start + row.page ≤ length cells.now }
    ensures { result ≡ filled row.page start cells.now }
{
    let mut n: usize = 0;
    for cell in &cells[start..start + row.page] {
        let is_filled = *cell != 0xFF;
        if is_filled {
            n += 1;
        }
    }
    n
}

// Whether that page has another count than its own.
pub fn is_miscounted(device: Device, start: usize, cells: &[u8], counts: &[u16]) -> bool
    requires page_start { (start % device.row.page ≡ 0) × (start < device.row.cells) }
    requires cells_len { (length cells.now ≡ device.row.cells) × (length counts.now ≡ page_count device.row) }
    ensures { result ≡ is_miscounted device.row start cells.now counts.now }
{
    usize::from(counts[start / device.row.page]) != filled_in(device.row, start, cells)
}

// That page's count is taken afresh. A page has at most 256 cells, so that 16 bits hold it.
pub fn recount(device: Device, start: usize, cells: &[u8], counts: &mut [u16])
    requires page_start { (start % device.row.page ≡ 0) × (start < device.row.cells) }
    requires cells_len { (length cells.now ≡ device.row.cells) × (length counts.old ≡ page_count device.row) }
    ensures { counts.new ≡ recounted device.row start cells.now counts.old }
{
    let n = filled_in(device.row, start, cells);
    counts[start / device.row.page] = n as u16;
}

// So is every page's.
pub fn recount_all(device: Device, cells: &[u8], counts: &mut [u16])
    requires { (length cells.now ≡ device.row.cells) × (length counts.old ≡ page_count device.row) }
    ensures { counts.new ≡ recounted_to (page_count device.row) device.row cells.now counts.old }
{
    for page in 0..counts.len() {
        recount(device, page * device.row.page, cells, counts);
    }
}

// The lowest page whose count is 0, or none. Later counts are not read. Not `position`: the form of this search, a loop that yields the page or
// none by break, is asked for by name (docs/DECISIONS.md, "The search for a blank page").
pub fn first_blank(counts: &[u16]) -> Option<usize>
    ensures { result ≡ first_blank (length counts.now) counts.now }
{
    let mut page: usize = 0;
    loop {
        if page == counts.len() {
            break None;
        }
        if counts[page] == 0 {
            break Some(page);
        }
        page += 1;
    }
}

// Pages: counted, searched for a blank one, and viewed.

#![tactic(auto, unfolding(
// Counts.
rules::specs::Call::count_outcome, rules::specs::Call::recounted_to, rules::specs::Cycle::filled,
// The first blank page.
rules::specs::Call::blank_outcome, rules::specs::Call::lowest,
// A view.
rules::specs::Call::view_outcome, rules::specs::Call::memory_refusal, rules::specs::Call::part_of, rules::specs::Call::is_past,))]

use rules::{Region, number_of};

// The pages of an M95010 whose cells were filled by hand are counted afresh, all of them full; and those of no device are not.
pub fn counts_pages() {
    let cells = [0u8; 128];
    let mut counts = [9u16; 8];
    let good = m95::count_pages(5, &cells, &mut counts);
    check::expect(number_of(good) == 0);
    check::expect(counts[7] == 16);
    let bad = m95::count_pages(8, &cells, &mut counts);
    check::expect(number_of(bad) == 1);
}

// The first blank page of an M95010 whose first two pages are not blank is its third; counts for too few pages are refused with 14.
pub fn finds_room() {
    let counts = [16u16, 1, 0, 16, 0, 0, 0, 0];
    let third = m95::first_blank(5, &counts);
    check::expect(number_of(third) == 0);
    check::expect(third.unwrap_or(None).unwrap_or(9) == 2);
    let bad = m95::first_blank(5, &counts[..7]);
    check::expect(number_of(bad) == 14);
}

// Where every page has a cell other than FFh there is none.
pub fn finds_no_room() {
    let counts = [1u16; 8];
    let full = m95::first_blank(5, &counts);
    check::expect(number_of(full) == 0);
    check::expect(full.unwrap_or(Some(9)).is_none());
}

// A view of the cells shows the page that holds address 40, and an address past them is refused with 13.
pub fn views_cells() {
    let cells = [0u8; 512];
    let identification = [7u8; 16];
    let shown = m95::view(1, Region::Cells, &cells, &identification, 40);
    check::expect(number_of(shown) == 0);
    let page = shown.unwrap_or(&[]);
    check::expect(page.len() == 16);
    check::expect(page[15] == 0);
    let past = m95::view(1, Region::Cells, &cells, &identification, 512);
    check::expect(number_of(past) == 13);
    check::expect(past.unwrap_or(&[]).len() == 0);
}

// A view of the identification page shows that page whatever the address, and is refused with 2 for cells that nobody asked for.
pub fn views_identification() {
    let cells = [0u8; 512];
    let short = [0u8; 511];
    let identification = [7u8; 16];
    let shown = m95::view(1, Region::Identification, &cells, &identification, 512);
    check::expect(number_of(shown) == 0);
    let page = shown.unwrap_or(&[]);
    check::expect(page.len() == 16);
    check::expect(page[15] == 7);
    let none = m95::view(1, Region::Identification, &short, &identification, 0);
    check::expect(number_of(none) == 2);
    check::expect(none.unwrap_or(&[]).len() == 0);
}

// Calls each public call of the library on good and bad input, and holds its answers. Every `expect` is proved from the contracts
// alone, so a caller who knows nothing else can use them.

#![tactic(auto)]

mod preparing;
mod running;
mod viewing;

fn main() {
    preparing::prepares();
    preparing::prepares_smaller();
    preparing::refuses_a_page();
    preparing::refuses_counts();
    viewing::counts_pages();
    viewing::finds_room();
    viewing::finds_no_room();
    preparing::loads();
    preparing::judges();
    preparing::tells_status();
    viewing::views_cells();
    viewing::views_identification();
    running::replies();
    running::refuses_a_wrong_count();
    running::writes_in_hold();
    running::runs();
    running::keeps_lengths();
    running::judges_a_world();
}

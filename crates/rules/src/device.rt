// A device: its row, known to have the widths that every rule goes by. A row of the table has them, and no other is made.

ghost use Rattle.std.specs.Prelude.{◌≡◌, ◌≤◌, ◌<◌, true};
ghost use Rattle.rules.specs.Wide.{is_wide};

use crate::Row;

// The bounds of the row follow from `wide`. They stand here as plain numbers too, where a proof finds them.
#[derive(Clone, Copy)]
pub struct Device {
    pub row: Row,
    ghost wide: { is_wide row ≡ true },
    ghost pages: { row.page < row.cells },
    ghost cells_most: { row.cells ≤ 16_777_216 },
    ghost page_least: { 4 ≤ row.page },
    ghost page_most: { row.page ≤ 256 },
    ghost page_whole: { row.identification ≤ row.page },
    ghost width_most: { row.width ≤ 3 },
}

// The table of cycles: what the end of each kind changes.

ghost use Rattle.std.specs.Prelude.{◌≡◌};
ghost use Rattle.rules.specs.Instruction.{change_of, changes};

use rules::{Change, Kind};

fn change(runs: bool, cells: bool, identification: bool, status: bool, lock: bool) -> Change
    ensures { result ≡ change_of runs cells identification status lock }
{
    Change {
        runs: runs,
        cells: cells,
        identification: identification,
        status: status,
        lock: lock,
    }
}

// The table of cycles. Columns: it runs; its end changes cells; the identification page; the status; the lock.
pub fn changes(k: Kind) -> Change
    ensures { result ≡ changes k }
{
    match k {
        Kind::None => change(false, false, false, false, false),
        Kind::Array => change(true, true, false, false, false),
        Kind::Identification => change(true, false, true, false, false),
        Kind::Status => change(true, false, false, true, false),
        Kind::Lock => change(true, false, false, false, true),
    }
}

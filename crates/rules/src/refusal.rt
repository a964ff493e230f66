// Why a call is refused, in the order of its numbers.

ghost use Rattle.std.specs.Prelude.{◌≡◌};
ghost use Rattle.rules.specs.Refused.{refusal_number, number_of};

#[derive(Clone, Copy, Debug, PartialEq, Eq)]
pub enum Refusal {
    // No such device.
    Device = 1,
    // Cells, identification page or latch of a wrong length.
    Cells,
    Identification,
    Latch,
    // A state that is not sound, a mark above 1, or what the device cannot store.
    State,
    // Fewer bytes left than the record needs.
    Cut,
    // No such kind, or no such region; a length that is not the kind's; a pin byte above 9.
    Kind,
    Length,
    Pin,
    // No answer byte left.
    Answers,
    // Power during a cycle.
    Power,
    // The bench's input is too long.
    Long,
    // An address past the cells.
    Address,
    // Not a count for each page; a page with another count than its own.
    Counts,
    Count,
}

impl Refusal {
    pub fn number(self) -> usize
        ensures { result ≡ refusal_number self }
    {
        self as usize
    }
}

// The number that a call gives: 0 where it was done.
pub fn number_of<T: Drop>(given: Result<T, Refusal>) -> usize
    ensures { result ≡ number_of given }
{
    match given {
        Ok(_) => 0,
        Err(refusal) => refusal.number(),
    }
}

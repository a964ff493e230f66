// The types of the bench: a device's row, its state in groups, instructions, cycles, output levels, events.
// The rules of specs/ are functions on these, and the product's code runs on them.

#![tactic(auto)]

ghost use Rattle.std.specs.Prelude.{◌≡◌};
ghost use Rattle.rules.specs.Send.{level};
ghost use Rattle.rules.specs.Trace.{answer_byte};

mod device;
mod refusal;
mod world;

pub use device::Device;
pub use refusal::{Refusal, number_of};
pub use world::World;

// A line of the service sheet (document 02, W-203): the first protected address under each setting of BP1 and BP0. Under 00, which
// protects nothing, it is the cell count.
#[derive(Clone, Copy)]
pub struct Sheet {
    pub bp00: usize,
    pub bp01: usize,
    pub bp10: usize,
    pub bp11: usize,
}

// One row of the device table (document 01, "What the bench models"; document 02, W-202, W-203 and W-206). The identification page has a
// length of its own: a page, or 0 where the device has none. `triggers`: deselecting in hold starts a complete write.
#[derive(Clone, Copy)]
pub struct Row {
    pub cells: usize,
    pub page: usize,
    pub identification: usize,
    pub width: usize,
    pub time: usize,
    pub srwd: bool,
    pub coded: bool,
    pub triggers: bool,
    pub sheet: Sheet,
}

// The instructions of Table 6. Unknown stands for a code that is in no list, and for none received yet.
#[derive(Clone, Copy)]
pub enum Instruction {
    Wren,
    Wrdi,
    Rdsr,
    Wrsr,
    Read,
    Write,
    Rdid,
    Rdls,
    Wrid,
    Lid,
    Unknown,
}

// What a running write cycle will change.
#[derive(Clone, Copy)]
pub enum Kind {
    None,
    Array,
    Identification,
    Status,
    Lock,
}

// What an instruction sends: nothing, the status, cells, identification bytes, or the lock.
#[derive(Clone, Copy)]
pub enum Source {
    Silent,
    Status,
    Cells,
    Identification,
    Lock,
}

// One row of the instruction table: taken in a cycle too; an address follows; only its place in the page counts; it is of the
// identification page; what the lock bit makes of it; what it sends; sets WEL; resets WEL; the cycle it starts.
#[derive(Clone, Copy)]
pub struct Facts {
    pub taken: bool,
    pub addressed: bool,
    pub paged: bool,
    pub identifies: bool,
    pub lock: Instruction,
    pub sends: Source,
    pub sets: bool,
    pub resets: bool,
    pub starts: Kind,
}

// One row of the table of cycles: whether it runs, and what its end changes.
#[derive(Clone, Copy)]
pub struct Change {
    pub runs: bool,
    pub cells: bool,
    pub identification: bool,
    pub status: bool,
    pub lock: bool,
}

// How a source goes on from an address: whether it sends at all, the address after, and whether the address is past its end.
#[derive(Clone, Copy)]
pub struct Going {
    pub sends: bool,
    pub after: usize,
    pub past: bool,
}

// What can be looked at: the cells, a page at a time, or the identification page.
#[derive(Clone, Copy)]
pub enum Region {
    Cells,
    Identification,
}

// A level of the output Q.
#[derive(Clone, Copy, PartialEq, Eq)]
pub enum Level {
    Low,
    High,
    Z,
}

impl Level {
    // The answer byte of a level: 0, 1, or 2 for Z.
    pub fn byte(self) -> u8
        ensures { result ≡ answer_byte self }
    {
        self as u8
    }
}

impl From<bool> for Level {
    ghost from_gives = { λ high q. q ≡ level high };

    fn from(high: bool) -> Level {
        if high { Level::High } else { Level::Low }
    }
}

// One event at the pins, in time or of the power. No pin but these five can be written.
#[derive(Clone, Copy)]
pub enum Event {
    Clock(bool),
    Data(bool),
    Select(bool),
    Hold(bool),
    Protect(bool),
    Wait(u32),
    Power,
}

// The numbers that can be large: the address, and the running cycle's page start and microseconds left.
#[derive(Clone, Copy)]
pub struct Place {
    pub address: usize,
    pub start: usize,
    pub left: usize,
}

// The levels of C, D, S, HOLD and W; true is high.
#[derive(Clone, Copy)]
pub struct Pins {
    pub c: bool,
    pub d: bool,
    pub s: bool,
    pub hold: bool,
    pub w: bool,
}

// Selected or not, held or not, and whether W was seen low in this selection.
#[derive(Clone, Copy)]
pub struct Selection {
    pub selected: bool,
    pub held: bool,
    pub seen: bool,
}

// What came in: bits of the current byte, their value, whole bytes (to 6), and the last whole byte.
#[derive(Clone, Copy)]
pub struct Input {
    pub bits: u8,
    pub value: u8,
    pub bytes: u8,
    pub last: u8,
}

// The instruction, and whether it was turned away.
#[derive(Clone, Copy)]
pub struct Command {
    pub instruction: Instruction,
    pub away: bool,
}

// The byte being sent, and the level of Q, kept while held.
#[derive(Clone, Copy)]
pub struct Output {
    pub sending: u8,
    pub q: Level,
}

// The stored status bits, WEL, and the lock.
#[derive(Clone, Copy)]
pub struct Registers {
    pub status: u8,
    pub wel: bool,
    pub locked: bool,
}

// What a chip has stored besides its cells and its identification page: the status bits, and 1 where the page is locked.
#[derive(Clone, Copy)]
pub struct Stored {
    pub status: u8,
    pub lock: u8,
}

// The running cycle, and its new status bits.
#[derive(Clone, Copy)]
pub struct Cycle {
    pub kind: Kind,
    pub next: u8,
}

// Three bytes that mean nothing: with them the State fills whole words and has no padding.
#[derive(Clone, Copy)]
pub struct Filler {
    pub first: u8,
    pub second: u8,
    pub third: u8,
}

// The device's state: three words of numbers, then three words of small fields.
#[derive(Clone, Copy)]
pub struct State {
    pub place: Place,
    pub pins: Pins,
    pub selection: Selection,
    pub input: Input,
    pub command: Command,
    pub output: Output,
    pub registers: Registers,
    pub cycle: Cycle,
    pub filler: Filler,
}

// Time passes: what the end of a cycle changes.

ghost use Rattle.std.specs.Prelude.{◌≡◌, ◌&&◌, length, if◌then◌else◌};
ghost use Rattle.rules.specs.World.{world_of};
ghost use Rattle.rules.specs.Device.{page_count};
ghost use Rattle.rules.specs.Instruction.{changes};
ghost use Rattle.rules.specs.Cycle.{is_miscounted, ends, waited_state, waited};
ghost use Rattle.rules.specs.Sound.{SoundCycle, Lent};

use rules::{Device, Kind, Registers, State};

// The stored status bits at the end of a cycle, which may change them.
pub fn status_after(s: State, changes: bool) -> u8
    ensures { result ≡ (if changes then s.cycle.next else s.registers.status) }
{
    if changes {
        s.cycle.next
    } else {
        s.registers.status
    }
}

// The state after a wait, which takes its microseconds from those left and stops at none.
#[tactic(auto, unfolding(rules::specs::Cycle::waited_state))]
pub fn state_after(s: State, wait: usize) -> State
    ensures { result ≡ waited_state wait s }
{
    let change = tables::changes(s.cycle.kind);
    let mut t = s;
    t.place.left = s.place.left.saturating_sub(wait);
    if !(change.runs & (s.place.left <= wait)) {
        return t;
    }
    t.registers = Registers {
        status: status_after(s, change.status),
        wel: false,
        locked: s.registers.locked | change.lock,
    };
    t.cycle.kind = Kind::None;
    t
}

// Whether a wait would end an array cycle on a page whose count is wrong. Only then is a page counted.
pub fn ends_miscounted(device: Device, s: State, cells: &[u8], counts: &[u16], wait: u32) -> bool
    requires cycle { SoundCycle device.row s.cycle.kind s.cycle.next s.place.start s.place.left }
    requires cells_len { (length cells.now ≡ device.row.cells) × (length counts.now ≡ page_count device.row) }
    ensures { result ≡ (ends wait s && (changes s.cycle.kind).cells && is_miscounted device.row s.place.start cells.now counts.now) }
{
    let change = tables::changes(s.cycle.kind);
    let ends = change.runs & (s.place.left <= wait as usize);
    ends & change.cells && memory::counts::is_miscounted(device, s.place.start, cells, counts)
}

// A wait: where the cycle ends, its marked bytes go to their places, and the page that takes them is counted afresh.
#[tactic(auto, unfolding(rules::specs::Cycle::waited))]
pub fn wait(
    device: Device,
    s: State,
    cells: &mut [u8],
    identification: &mut [u8],
    latch: &[u8],
    counts: &mut [u16],
    wait: u32,
) -> State
    requires cycle { SoundCycle device.row s.cycle.kind s.cycle.next s.place.start s.place.left }
    requires lent { Lent device.row (world_of s cells.old identification.old latch.now counts.old) }
    ensures { world_of result cells.new identification.new latch.now counts.new
        ≡ waited device.row wait (world_of s cells.old identification.old latch.now counts.old) }
{
    let n = wait as usize;
    let change = tables::changes(s.cycle.kind);
    let ends = change.runs & (s.place.left <= n);
    if ends & change.cells {
        memory::write_marked(device.row, latch, s.place.start, cells);
        memory::counts::recount(device, s.place.start, cells, counts);
    } else if ends & change.identification {
        memory::write_marked(device.row, latch, 0, identification);
    }
    state_after(s, n)
}

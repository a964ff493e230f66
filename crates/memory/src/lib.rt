// What is done to lent bytes at once: preparing the identification page, clearing the latch's marks, testing them, and the marked bytes on
// their way to their places.

#![tactic(auto)]

ghost use Rattle.std.specs.Prelude.{◌≡◌, ◌++◌, ◌+◌, ◌-◌, ◌≤◌, length, replicate, drop};
ghost use Rattle.rules.specs.Device.{code};
ghost use Rattle.rules.specs.Receive.{cleared};
ghost use Rattle.rules.specs.Cycle.{written};
ghost use Rattle.rules.specs.Sound.{are_marks};

use rules::{Device, Row};

pub mod counts;

// The identification page of a prepared device: FFh, after ST's code where there is one.
pub fn prepare_identification(device: Device, page: &mut [u8])
    requires { length page.old ≡ device.row.identification }
    ensures { page.new ≡ code device.row ++ replicate (device.row.identification - length (code device.row)) 0xFF }
{
    page.fill(0xFF);
    if device.row.coded {
        page[..3].copy_from_slice(&[0x20, 0x00, 0x12]);
    }
}

// The marks, the second page of the latch, are 0 again.
pub fn clear_marks(row: Row, latch: &mut [u8])
    requires { length latch.old ≡ row.page + row.page }
    ensures { latch.new ≡ cleared row latch.old }
{
    latch[row.page..].fill(0);
}

// Each mark is 0 or 1.
pub fn are_marks(marks: &[u8]) -> bool
    ensures { result ≡ are_marks marks.now }
{
    marks.iter().all(|mark| *mark <= 1)
}

// The marks of a latch are 0 or 1.
pub fn latch_is_marked(row: Row, latch: &[u8]) -> bool
    requires { length latch.now ≡ row.page + row.page }
    ensures { result ≡ are_marks (drop row.page latch.now) }
{
    are_marks(&latch[row.page..])
}

// The marked bytes of the latch go to their places, from start on.
pub fn write_marked(row: Row, latch: &[u8], start: usize, bytes: &mut [u8])
    requires { (length latch.now ≡ row.page + row.page) × (start + row.page ≤ length bytes.old) }
    ensures { bytes.new ≡ written row.page row.page latch.now start bytes.old }
{
    let (data, marks) = latch.split_at(row.page);
    for (i, (byte, mark)) in data.iter().zip(marks).enumerate() {
        let is_marked = *mark == 1;
        if is_marked {
            bytes[start + i] = *byte;
        }
    }
}

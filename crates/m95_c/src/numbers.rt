// The numbers that a caller in C hands in: a device, a byte, an event by the kind of its record and the number in it, a region.

ghost use Rattle.std.specs.Prelude.{◌≡◌, IfOk, if◌then◌else◌};
ghost use Rattle.rules.specs.Refused.{number_of};
ghost use Rattle.m95_c.specs.Left.{device_of, byte_for, event_refusal, event_of, is_region, region_of};

use rules::{Event, Refusal, Region};
use traces::trace::{RecordKind, pin_event};

// A number above a byte's is no device's, as 0 is.
pub fn device_of(number: usize) -> u8
    ensures { result ≡ device_of number }
{
    u8::try_from(number).unwrap_or(0)
}

// A number as a byte; one above a byte's is neither stored bits nor a lock, as 255 is not.
pub fn byte_for(number: usize) -> u8
    ensures { result ≡ byte_for number }
{
    u8::try_from(number).unwrap_or(255)
}

// The event that a kind and its number are; refused where there is no such kind, and for a pin byte above 9. A wait is at most the longest of
// a record.
#[tactic(auto, unfolding(crate::specs::Left::event_refusal, crate::specs::Left::event_of))]
pub fn event_of(kind: usize, value: usize) -> Result<Event, Refusal>
    ensures number { number_of result ≡ event_refusal kind value }
    ensures event { IfOk result (λ e. e ≡ event_of kind value) }
{
    match RecordKind::try_from(kind)? {
        RecordKind::Pin if 9 < value => Err(Refusal::Pin),
        RecordKind::Pin => Ok(pin_event(value as u8)),
        RecordKind::Wait => Ok(Event::Wait(u32::try_from(value).unwrap_or(4_294_967_295))),
        RecordKind::Power => Ok(Event::Power),
    }
}

// The region that a number names.
pub fn region_of(number: usize) -> Result<Region, Refusal>
    ensures number { number_of result ≡ (if is_region number then 0 else 7) }
    ensures region { IfOk result (λ region. region ≡ region_of number) }
{
    match number {
        0 => Ok(Region::Cells),
        1 => Ok(Region::Identification),
        _ => Err(Refusal::Kind),
    }
}

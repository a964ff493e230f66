// The last line of play.

ghost use Rattle.std.specs.Prelude.{◌≡◌, ◌<◌, length, take};
ghost use Rattle.io.specs.Counts.{IsPrefixLen};
ghost use Rattle.player.specs.Summary.{summary};

// The line, at the start of a lent text, and how long it is.
#[tactic(auto, using(crate::proofs::Line::parts))]
pub fn put_summary(number: usize, status: usize, records: u64, bytes: u64, out: &mut [u8]) -> usize
    requires { (status < 256) × (length out.old ≡ 128) }
    ensures prefix_len { IsPrefixLen result out.new }
    ensures out_after { take result out.new ≡ summary number status records bytes }
{
    let shown = text::hexadecimal(status);
    let ended = text::put_ending(number as u64, &shown, out, 0);
    let counted = text::put(b" records ", out, ended);
    let done = text::put_decimal(records, out, counted);
    let measured = text::put(b" bytes ", out, done);
    let taken = text::put_decimal(bytes, out, measured);
    text::put(b"\n", out, taken)
}

// The line that play says of the room on a chip.

ghost use Rattle.std.specs.Prelude.{◌≡◌, length, take};
ghost use Rattle.io.specs.Counts.{IsPrefixLen};
ghost use Rattle.rules.specs.Call.{count_outcome};
ghost use Rattle.text.specs.Put.{Put};
ghost use Rattle.player.specs.Room.{page_text, TellsRoom};

// A page's number, or that there is none, behind the word that stands in a lent text already: six bytes, and then twenty digits and the line's
// end at most.
#[tactic(auto, using(crate::proofs::Line::parts))]
fn put_page(blank: Option<usize>, out: &mut [u8], at: usize) -> usize
    requires { (at ≡ 6) × (length out.old ≡ 32) }
    ensures { Put out.old at (page_text blank) out.new result }
{
    match blank {
        Some(page) => {
            let numbered = text::put_decimal(page as u64, out, at);
            text::put(b"\n", out, numbered)
        }
        None => text::put(b"none\n", out, at),
    }
}

// The line on the room in a device's cells, at the start of a lent text, and how long it is. No file has counts, so that the pages are counted
// here.
pub fn put_room(device: u8, cells: &[u8], counts: &mut [u16], out: &mut [u8]) -> usize
    requires { ((count_outcome device cells.now counts.old).number ≡ 0) × (length out.old ≡ 32) }
    ensures prefix_len { IsPrefixLen result out.new }
    ensures tells_room { TellsRoom device cells.now (take result out.new) }
{
    let _ = m95::count_pages(device, cells, counts);
    let blank = m95::first_blank(device, counts).unwrap_or(None);
    let named = text::put(b"blank ", out, 0);
    put_page(blank, out, named)
}

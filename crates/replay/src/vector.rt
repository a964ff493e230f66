// A stored vector: a header of 24 bytes, the trace, an answer byte for each record done, and the bytes that differ from a prepared
// device's, first of the cells and then of the identification page, each with its address. All numbers are little-endian.

ghost use Rattle.std.specs.Prelude.{◌≡◌, ◌+◌, ◌<◌, IfSome, length};
ghost use Rattle.replay.specs.Vector.{Short, size_of};

// What a header says: the device, how the run ends, and how long the parts are.
#[derive(Clone, Copy)]
pub struct Header {
    pub device: u8,
    pub number: usize,
    pub status: usize,
    pub locked: bool,
    pub trace: usize,
    pub done: usize,
    pub taken: usize,
    pub cells: usize,
    pub page: usize,
}

// A vector in its parts.
#[derive(Clone, Copy)]
pub struct Vector<'a> {
    pub header: Header,
    pub trace: &'a [u8],
    pub answers: &'a [u8],
    pub cells: &'a [u8],
    pub page: &'a [u8],
}

// Four bytes as a number, the least significant first.
pub(crate) fn number(bytes: [u8; 4]) -> usize
    ensures { result < 4294967296 }
{
    u32::from_le_bytes(bytes) as usize
}

// The header in its bytes.
fn header_of(bytes: &[u8; 24]) -> Header
    ensures { Short result }
{
    let fields = bytes.as_chunks::<4>().0;
    let [device, ended, status, locked] = fields[0];
    Header {
        device,
        number: usize::from(ended),
        status: usize::from(status),
        locked: locked == 1,
        trace: number(fields[1]),
        done: number(fields[2]),
        taken: number(fields[3]),
        cells: number(fields[4]),
        page: number(fields[5]),
    }
}

// The vector at the start of some bytes, and what is behind it, where they have a whole one.
pub(crate) fn split(bytes: &[u8]) -> Option<(Vector<'_>, &[u8])>
    ensures { IfSome result (λ found. (size_of found.0.header + length found.1.now ≡ length bytes.now) × (length found.0.trace.now ≡ found.0.header.trace)) }
{
    let (head, rest) = bytes.split_first_chunk::<24>()?;
    let header = header_of(head);
    let (trace, rest) = rest.split_at_checked(header.trace)?;
    let (answers, rest) = rest.split_at_checked(header.done)?;
    let (cells, rest) = rest.split_at_checked(header.cells * 5)?;
    let (page, rest) = rest.split_at_checked(header.page * 5)?;
    let vector = Vector {
        header,
        trace,
        answers,
        cells,
        page,
    };
    Some((vector, rest))
}

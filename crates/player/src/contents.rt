// The chip's stored contents in a file: the cells, the identification page, the status bits and the lock, one byte each.

ghost use Rattle.std.specs.Prelude.{◌≡◌, length};
ghost use Rattle.rules.specs.Call.{stored_as};
ghost use Rattle.player.specs.File.{said};

use rules::{Device, Stored};
use std::fs::OpenFile;
use std::io::{Error, ErrorKind, Write};
use std::rt::Files;

// What a prepared chip has stored beside its cells and its identification page.
pub const PREPARED: Stored = Stored { status: 0, lock: 0 };

// What is wrong with a chip's file: why it cannot be read, or its length.
#[derive(Clone, Copy)]
pub enum Fault {
    Unread(Error),
    Length,
}

// Judges a file by its length. Its last two bytes are what it has stored.
#[tactic(auto, unfolding(crate::specs::File::said))]
fn judged(device: Device, length: usize, stored: Stored) -> Result<Stored, Fault>
    ensures { result ≡ said device.row length stored }
{
    let row = device.row;
    if length == row.cells {
        Ok(PREPARED)
    } else if length == row.cells + row.identification + 2 {
        Ok(stored)
    } else {
        Err(Fault::Length)
    }
}

// Reads the cells, the identification page and the two last bytes, and looks for one byte more.
fn read_said<S: std::io::Read>(
    device: Device,
    file: &mut S,
    cells: &mut [u8],
    identification: &mut [u8],
) -> Result<Stored, Fault>
    requires { (length cells.old ≡ device.row.cells) × (length identification.old ≡ device.row.identification) }
{
    let first = files::read_up(file, cells);
    let second = files::read_up(file, identification);
    let mut tail = [0u8; 3];
    let third = files::read_up(file, &mut tail);
    if let Some(error) = third.error.or(second.error).or(first.error) {
        return Err(Fault::Unread(error));
    }
    let [status, lock, _] = tail;
    let length = first.count + second.count + third.count;
    judged(device, length, Stored { status, lock })
}

// The contents of the file at a path. Where there is none, a chip has stored what is given for that, if anything is.
pub fn load<R: Files>(
    rt: &R,
    device: Device,
    path: &[u8],
    missing: Option<Stored>,
    cells: &mut [u8],
    identification: &mut [u8],
) -> Result<Stored, Fault>
    requires { (length cells.old ≡ device.row.cells) × (length identification.old ≡ device.row.identification) }
{
    match files::open_read(rt, path) {
        Ok(mut file) => read_said(device, &mut file, cells, identification),
        Err(error) => missing
            .filter(|_| error.kind() == ErrorKind::NotFound)
            .ok_or(Fault::Unread(error)),
    }
}

// Writes the contents whole. All of it is in the file where there is no error.
pub fn store<F: Write + OpenFile>(
    file: &mut F,
    cells: &[u8],
    identification: &[u8],
    stored: Stored,
) -> std::io::Result<()> {
    file.write_all(cells)?;
    file.write_all(identification)?;
    file.write_all(&[stored.status, stored.lock])?;
    file.sync_all()
}

// Text into a lent buffer: each function puts its text at a place, and gives back the place after it.

#![tactic(auto)]

ghost use Rattle.std.specs.Prelude.{◌+◌, ◌*◌, ◌≤◌, ◌<◌, ◌≡◌, length};
ghost use Rattle.rules.specs.Program.{decimal, line, lines, ending, digit as Program·digit, hexadecimal as Program·hexadecimal, shown as Program·shown};
ghost use Rattle.text.specs.Put.{Put};

// Any text.
pub fn put(text: &[u8], out: &mut [u8], at: usize) -> usize
    requires { at + length text.now ≤ length out.old }
    ensures { Put out.old at text.now out.new result }
{
    let after = at + text.len();
    out[at..after].copy_from_slice(text);
    after
}

// A number in decimal.
pub fn put_decimal(n: u64, out: &mut [u8], at: usize) -> usize
    requires { at + 20 ≤ length out.old }
    ensures { Put out.old at (decimal n) out.new result }
{
    let mut digits = [0u8; 20];
    let count = io::decimal(n, &mut digits);
    put(&digits[..count], out, at)
}

// A digit, 0 to 9 and then A to F.
pub fn digit(value: u8) -> u8
    requires { value < 16 }
    ensures { result ≡ Program·digit value }
{
    if value < 10 { b'0' + value } else { 55 + value }
}

// A byte as two digits.
pub fn hexadecimal(byte: usize) -> [u8; 2]
    requires { byte < 256 }
    ensures { result ≡ Program·hexadecimal byte }
{
    [digit((byte / 16) as u8), digit((byte % 16) as u8)]
}

// An answer byte as it is shown: 0, 1 or Z.
fn shown(answer: u8) -> u8
    ensures { result ≡ Program·shown answer }
{
    match answer {
        0 => b'0',
        1 => b'1',
        _ => b'Z',
    }
}

// The line of one record.
#[tactic(auto, using(crate::proofs::Putting::lengths))]
pub fn put_line(number: u64, answer: u8, out: &mut [u8], at: usize) -> usize
    requires { at + 23 ≤ length out.old }
    ensures { Put out.old at (line number answer) out.new result }
{
    let after = put_decimal(number, out, at);
    put(&[b' ', shown(answer), b'\n'], out, after)
}

// A line for each answer, with numbers from 1. No line is longer than 23 bytes.
pub fn put_lines(answers: &[u8], out: &mut [u8], at: usize) -> usize
    requires { at + length answers.now * 23 ≤ length out.old }
    ensures { Put out.old at (lines 1 answers.now) out.new result }
{
    let mut place = at;
    for (i, answer) in answers.iter().enumerate() {
        place = put_line(i as u64 + 1, *answer, out, place);
    }
    place
}

// How a run ended: its number and the status, with no line end.
#[tactic(auto, using(crate::proofs::Putting::lengths))]
pub fn put_ending(number: u64, status: &[u8], out: &mut [u8], at: usize) -> usize
    requires { at + 25 + length status.now ≤ length out.old }
    ensures { Put out.old at (ending number status.now) out.new result }
{
    let named = put(b"end ", out, at);
    let numbered = put_decimal(number, out, named);
    let spaced = put(b" ", out, numbered);
    put(status, out, spaced)
}

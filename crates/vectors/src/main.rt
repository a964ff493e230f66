// Runs the stored vectors, which the second model made, through the library, and compares answers, numbers, counts, status, lock and
// every stored byte. A file of data/ for each profile; a line for each profile, and a total.

#![tactic(auto)]

use replay::compare;
use replay::compare::Tally;
use std::rt::Files;

// The profiles, by the names of their files.
const PROFILES: [&[u8]; 10] = [
    b"commands",
    b"lengths",
    b"protect",
    b"glitch",
    b"hold",
    b"waits",
    b"power",
    b"noise",
    b"mixed",
    b"malformed",
];

// Prints a line: a name, how many vectors were run, and how many differ.
fn tell<P: Print>(out: &P, name: &[u8], tally: Tally) {
    let _ = out.write_all(name);
    let _ = out.write_all(b": ");
    let _ = out.print(tally.run);
    let _ = out.write_all(b" vectors, ");
    let _ = out.print(tally.different);
    let _ = out.write_all(b" differences\n");
}

// Runs the vectors of one profile. A file that cannot be read counts as a difference.
fn profile<R: Files + Print, E: Print>(rt: &R, errors: &E, name: &[u8]) -> Tally {
    let mut bytes = [0u8; 131072];
    let mut file = match files::open_read(rt, name) {
        Ok(file) => file,
        Err(error) => {
            files::fail(errors, name, Some(error));
            return compare::UNREAD;
        }
    };
    let read = files::read_up(&mut file, &mut bytes);
    drop(file);
    let tally = compare::run_all(&bytes[..read.count]);
    tell(rt, name, tally);
    tally
}

fn main(rt: HostRuntime) {
    let errors = rt.stderr();
    let mut total = Tally::default();
    for name in PROFILES {
        total = total + profile(&rt, &errors, name);
    }
    tell(&rt, b"total", total);
}

// Document 01's bench program: it reads a first record and a trace from standard input, and prints each record's answer. What it
// prints is one function of what it reads, `program::bench_text`; here are the reading and the writing.

#![tactic(auto)]

mod program;

fn main(rt: HostRuntime) {
    let mut cells = [0xFFu8; 16384];
    let mut identification = [0u8; 64];
    let mut latch = [0u8; 128];
    let mut counts = [0u16; 256];
    let mut input = [0u8; 32769];
    let mut answers = [0u8; 32768];
    let mut out = [0u8; 196608];
    let mut source = rt.stdin();
    let read = files::read_up(&mut source, &mut input);
    if read.error.is_some() {
        let _ = rt.eprint("bench: standard input could not be read to its end; nothing was run\n");
        return;
    }
    let count = read.count;
    let n = program::bench_text(
        &input[..count],
        &mut cells,
        &mut identification,
        &mut latch,
        &mut counts,
        &mut answers,
        &mut out,
    );
    if rt.write_all(&out[..n]).is_err() {
        let _ = rt.eprint("bench: standard output could not be written to its end\n");
    }
}

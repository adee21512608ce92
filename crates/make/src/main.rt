// The program `make`: a job on standard input, its object on standard output, or the line `refused N line L`. It is thin: all that it
// decides is decided by `maker::make`. A job of over 65,535 bytes fills the room and is refused by its length. A read or a write that
// fails ends it with that error.
#![tactic(auto)]

use std::io;
use std::io::Write;

// The output that is lent, as the scope document has it.
const OUTPUT: usize = 65536;

// The room for the job: one byte more than a job may have, so that a longer one is seen to be longer.
const ROOM: usize = 65536;

// The object at the front of the output.
fn put_object<P: Print>(rt: &P, out: &[u8], len: usize) -> io::Result<()> {
    if len <= out.len() {
        io::writer(rt).write_all(&out[0..len])?;
    }
    Ok(())
}

// The job, answered: a refusal prints itself.
fn answer<P: Print>(rt: &P, job: &[u8]) -> io::Result<()> {
    let mut out = [0u8; OUTPUT];
    match maker::make(job, &mut out) {
        Ok(len) => put_object(rt, &out, len),
        Err(refusal) => println!(rt; "{refusal}"),
    }
}

fn main(rt: HostRuntime) -> io::Result<()> {
    let mut job = [0u8; ROOM];
    let mut input = rt.stdin();
    let n = input::read_full(&mut input, &mut job)?;
    answer(&rt, &job[0..n])
}

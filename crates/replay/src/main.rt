// Replays the stored answers of the Rust, data/answers.list: compares each job's answer with the stored one and prints the counts. An
// accepted job is tried with room for 65,536 bytes, with just the room that its object needs, with one byte less and with none. The last
// two are refused 8 with the length needed. After the object, and after a refusal, the output is as it was. A record is four numbers of
// four bytes (length of the job, number of the refusal or 0, its line, length of the object), then the job, then the object.
#![tactic(auto)]

use refusals::Refusal;
use std::fs::File;
use std::io;
use std::io::Read;

// What the list says of a job: it gets an object, or it is refused with a number, at a line.
#[derive(Clone, Copy, PartialEq, Eq)]
enum Stored {
    Object,
    Refused { number: u64, line: u64 },
}

impl Stored {
    // The refusal for lack of room.
    const NO_ROOM: Stored = Stored::Refused { number: 8, line: 0 };

    // A record's second and third number: 0 in place of a refusal's number is an object.
    fn read(number: u64, line: u64) -> Stored {
        if number == 0 {
            Stored::Object
        } else {
            Stored::Refused { number, line }
        }
    }
}

impl From<Refusal> for Stored {
    fn from(refusal: Refusal) -> Stored {
        Stored::Refused {
            number: u64::from(refusal.number()),
            line: refusal.line() as u64,
        }
    }
}

// What one record showed.
#[derive(Clone, Copy)]
enum Shown {
    End,
    Broken,
    Differs,
    Accepted,
    Refused,
}

// Whether lent bytes are as they were: every byte is 90 before a job is answered.
fn untouched(out: &[u8]) -> bool {
    let before = [90u8; 65536];
    before
        .get(0..out.len())
        .is_some_and(|same| octets::same(out, same))
}

// Whether `out` is the object and then the bytes that were there.
fn holds(out: &[u8], object: &[u8]) -> bool {
    out.split_at_checked(object.len()).is_some_and(|(front, rest)| octets::same(front, object)
        && untouched(rest))
}

// Whether the job gets exactly the object into `out`.
fn makes(job: &[u8], out: &mut [u8], object: &[u8]) -> bool {
    match maker::make(job, out) {
        Ok(len) => len == object.len() && holds(out, object),
        Err(_) => false,
    }
}

// Whether the job is refused for lack of room, with the length `n` that it needs, and `out` is left as it was.
fn wants(job: &[u8], out: &mut [u8], n: usize) -> bool {
    match maker::make(job, out) {
        Err(refusal) => Stored::from(refusal) == Stored::NO_ROOM
            && refusal.needed() == n
            && untouched(out),
        Ok(_) => false,
    }
}

// Whether the job gets its object with room for 65,536 bytes and with just what it needs, and is refused 8 with one byte less and with
// none.
fn makes_in_each_room(job: &[u8], object: &[u8]) -> bool {
    let n = object.len();
    if n < 1 || 65536 < n {
        return false;
    }
    let mut out = [90u8; 65536];
    let mut just = [90u8; 65536];
    let mut short = [90u8; 65536];
    makes(job, &mut out, object)
        && makes(job, &mut just[0..n], object)
        && wants(job, &mut short[0..n - 1], n)
        && wants(job, &mut short[0..0], n)
}

// Whether the job is refused as stored, and the output is left as it was.
fn refuses(job: &[u8], stored: Stored) -> bool {
    let mut out = [90u8; 65536];
    match maker::make(job, &mut out) {
        Ok(_) => false,
        Err(refusal) => Stored::from(refusal) == stored && untouched(&out),
    }
}

// The answer to a job, compared with the stored one.
fn answered(job: &[u8], object: &[u8], stored: Stored) -> Shown {
    match stored {
        Stored::Object if makes_in_each_room(job, object) => Shown::Accepted,
        Stored::Refused { .. } if refuses(job, stored) => Shown::Refused,
        _ => Shown::Differs,
    }
}

// The job of `n` bytes and the object of `m` bytes that follow a record's numbers, by way of `space`.
fn replay_job<R: Read>(
    input: &mut R,
    space: &mut [u8],
    n: usize,
    m: usize,
    stored: Stored,
) -> io::Result<Shown> {
    if 131072 < n || 65536 < m {
        return Ok(Shown::Broken);
    }
    let all = n + m;
    if space.len() < all {
        return Ok(Shown::Broken);
    }
    let read = input::read_full(input, &mut space[0..all])?;
    if read < all {
        return Ok(Shown::Broken);
    }
    Ok(answered(&space[0..n], &space[n..all], stored))
}

// The next record.
fn replay_one<R: Read>(input: &mut R) -> io::Result<Shown> {
    let mut head = [0u8; 16];
    let got = input::read_full(input, &mut head)?;
    if got == 0 {
        return Ok(Shown::End);
    }
    if got < 16 {
        return Ok(Shown::Broken);
    }
    let n = octets::get_at(&head, 0, 4) as usize;
    let stored = Stored::read(octets::get_at(&head, 4, 4), octets::get_at(&head, 8, 4));
    let m = octets::get_at(&head, 12, 4) as usize;
    let mut space = [0u8; 196608];
    replay_job(input, &mut space, n, m, stored)
}

// Each accepted job was refused for lack of room too, so their count is in two lines.
fn print_counts<P: Print>(rt: &P, accepted: u64, refused: u64, differ: u64) -> io::Result<()> {
    println!(rt; "{accepted} objects as stored, in 65536 bytes and in just their length")?;
    println!(rt; "{accepted} refused 8 with the length needed, by one byte and by all")?;
    println!(rt; "{refused} refused as stored")?;
    println!(rt; "{differ} that differ")
}

fn main(rt: HostRuntime) -> io::Result<()> {
    let mut list = File::open(&rt, "answers.list")?;
    let mut accepted: u64 = 0;
    let mut refused: u64 = 0;
    let mut differ: u64 = 0;
    for _ in 0..1000000 {
        match replay_one(&mut list)? {
            Shown::Accepted => {
                accepted = accepted.saturating_add(1);
            }
            Shown::Refused => {
                refused = refused.saturating_add(1);
            }
            Shown::Differs => {
                differ = differ.saturating_add(1);
            }
            Shown::Broken => {
                println!(rt; "broken")?;
                break;
            }
            Shown::End => {
                break;
            }
        }
    }
    print_counts(&rt, accepted, refused, differ)
}

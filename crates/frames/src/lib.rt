// Frames: what a line of the job says, read from its hexadecimal. An answer has numbers and places; texts and code stay in the line.
#![tactic(auto)]

ghost use Rattle.std.specs.Prelude.{◌≡◌, List, ℕ, ◌≤◌, length, drop};
ghost use Rattle.std.proofs.Math.Option as math;
ghost use Rattle.octets.specs.Told.{told};
ghost use Rattle.lines.specs.Bytes.{bytes};
ghost use Rattle.frames.specs.Frames as model;
ghost use Rattle.frames.specs.Frames.{program_frame, relocation_frame, instruction_frame, take_type, take_count, attr_if, map_entries, map_attrs, map_frame, frame_of};
ghost use Rattle.frames.specs.Attrs.{attr_told, Onward};
ghost use Rattle.frames.specs.Shown.{frame_told, PlacedRead};

use ast::{Attr, MapDecl, MapType, Type};
use lines::Hex;

// What a line says. Places are counted in bytes from the line's start.
#[derive(Clone, Copy)]
pub enum Frame {
    Licence,
    // The name is from `name` on.
    Map { decl: MapDecl, name: usize },
    // The section name is before `symbol`, the symbol's name from there on.
    Program { symbol: usize },
    Code,
    Relocation,
    Instruction,
}

fn read_program(line: Hex) -> Option<Frame>
    ensures result_value { frame_told (bytes line.entry) result ≡ told 3 (program_frame (drop 1 (bytes line.entry))) }
    ensures placed_read { PlacedRead (bytes line.entry) result }
{
    let len = line.len();
    if len < 2 {
        return None;
    }
    let n = usize::from(line.byte_at(1));
    if n <= len - 2 {
        return Some(Frame::Program { symbol: n + 2 });
    }
    None
}

fn read_relocation(line: Hex) -> Option<Frame>
    ensures result_value { frame_told (bytes line.entry) result ≡ told 3 (relocation_frame (drop 1 (bytes line.entry))) }
    ensures placed_read { PlacedRead (bytes line.entry) result }
{
    if line.len() < 9 {
        return None;
    }
    Some(Frame::Relocation)
}

fn read_instruction(line: Hex) -> Option<Frame>
    requires { 1 ≤ length (bytes line) }
    ensures result_value { frame_told (bytes line.entry) result ≡ told 3 (instruction_frame (drop 1 (bytes line.entry))) }
    ensures placed_read { PlacedRead (bytes line.entry) result }
{
    if line.len() == 10 {
        return Some(Frame::Instruction);
    }
    None
}

// What was read of an attribute, and the byte at which the frame goes on. If the attribute is bad, that is the byte where it would begin.
#[derive(Clone, Copy)]
struct Read<T> {
    answer: Option<Attr<T>>,
    next: usize,
}

// The value of an attribute that is there.
trait Value: Copy {
    // What it is at the front of what is left of a frame.
    ghost taken: { List ℕ → math.Option (model.Read Self) };

    // The value at byte `at`.
    fn read(line: Hex, at: usize) -> Read<Self>
        requires { at ≤ length (bytes line) }
        ensures result_value { attr_told (bytes line.entry) result ≡ told 3 (taken (drop at (bytes line.entry))) }
        ensures onward { Onward at result.next (bytes line.entry) };
}

// A key's or a value's type is one byte.
impl Value for Type {
    ghost taken = { take_type };

    fn read(line: Hex, at: usize) -> Read<Self> {
        if at == line.len() {
            return Read {
                answer: None,
                next: at,
            };
        }
        let read = Type::try_from(line.byte_at(at));
        let Ok(t) = read else {
            return Read {
                answer: None,
                next: at,
            };
        };
        Read {
            answer: Some(Attr::Present(t)),
            next: at + 1,
        }
    }
}

// A number of entries is four bytes.
impl Value for u32 {
    ghost taken = { take_count };

    fn read(line: Hex, at: usize) -> Read<Self> {
        if line.len() - at < 4 {
            return Read {
                answer: None,
                next: at,
            };
        }
        let number = line.number_at(at, 4) as u32;
        Read {
            answer: Some(Attr::Present(number)),
            next: at + 4,
        }
    }
}

// The attribute at byte `at`, if it is there.
fn read_attr<T: Value>(line: Hex, at: usize, there: bool) -> Read<T>
    requires { at ≤ length (bytes line) }
    ensures result_value { attr_told (bytes line.entry) result ≡ told 3 (attr_if T.taken there (drop at (bytes line.entry))) }
    ensures onward { Onward at result.next (bytes line.entry) }
{
    if there {
        return T::read(line, at);
    }
    Read {
        answer: Some(Attr::Absent),
        next: at,
    }
}

// The number of entries at byte `at`, if the presence byte `p` says that it is there, and then the name.
fn read_entries(
    line: Hex,
    at: usize,
    p: u8,
    map_type: MapType,
    key_type: Attr<Type>,
    value_type: Attr<Type>,
) -> Option<Frame>
    requires { (3 ≤ at) × (at ≤ length (bytes line)) }
    ensures result_value { frame_told (bytes line.entry) result ≡ told 3 (map_entries map_type key_type value_type p (drop at (bytes line.entry))) }
    ensures placed_read { PlacedRead (bytes line.entry) result }
{
    let read = read_attr(line, at, p / 4 % 2 == 1);
    let answer = read.answer;
    let Some(max_entries) = answer else {
        return None;
    };
    let decl = MapDecl {
        map_type,
        key_type,
        value_type,
        max_entries,
    };
    Some(Frame::Map {
        decl,
        name: read.next,
    })
}

// The attributes that the presence byte `p` says are there, and then the name.
fn read_attrs(line: Hex, map_type: MapType, p: u8) -> Option<Frame>
    requires { 3 ≤ length (bytes line) }
    ensures result_value { frame_told (bytes line.entry) result ≡ told 3 (map_attrs map_type p (drop 3 (bytes line.entry))) }
    ensures placed_read { PlacedRead (bytes line.entry) result }
{
    let first = read_attr(line, 3, p % 2 == 1);
    let key = first.answer;
    let Some(key_type) = key else {
        return None;
    };
    let second = read_attr(line, first.next, p / 2 % 2 == 1);
    let value = second.answer;
    let Some(value_type) = value else {
        return None;
    };
    read_entries(line, second.next, p, map_type, key_type, value_type)
}

// Apart, so that `read_frame` stays small: a program has thousands of frames, and none of them is a map.
#[inline(never)]
fn read_map(line: Hex) -> Option<Frame>
    ensures result_value { frame_told (bytes line.entry) result ≡ told 3 (map_frame (drop 1 (bytes line.entry))) }
    ensures placed_read { PlacedRead (bytes line.entry) result }
{
    if line.len() < 3 {
        return None;
    }
    let listed = MapType::try_from(line.byte_at(1));
    let Ok(map_type) = listed else {
        return None;
    };
    let p = line.byte_at(2);
    if 7 < p {
        return None;
    }
    read_attrs(line, map_type, p)
}

// The frame that a line's bytes give, if they give one. Inlined: each frame of code is read twice.
#[inline(always)]
pub fn read_frame(line: Hex) -> Option<Frame>
    requires { 1 ≤ length (bytes line) }
    ensures result_value { frame_told (bytes line.entry) result ≡ told 3 (frame_of (bytes line.entry)) }
    ensures placed_read { PlacedRead (bytes line.entry) result }
{
    let kind = line.byte_at(0);
    match kind {
        1 => Some(Frame::Licence),
        2 => read_map(line),
        3 => read_program(line),
        4 => Some(Frame::Code),
        5 => read_relocation(line),
        6 => read_instruction(line),
        _ => None,
    }
}

// The table of refusals for one frame: what the frame asks for, or why it is refused. Only numbers and places go in and out, so that no
// table is copied for a frame.
#![tactic(auto)]

ghost use Rattle.std.specs.Prelude.{◌≡◌, List, ℕ, ◌*◌, ◌+◌, ◌-◌, ◌≤◌, ◌<◌, length, drop};
ghost use Rattle.std.proofs.Math.Option.{some};
ghost use Rattle.frames.specs.Shown.{shown, Placed};
ghost use Rattle.lookup.specs.Names.{Names};
ghost use Rattle.frames.specs.Frames.{licence, code, frame_of};
ghost use Rattle.refusals.specs.Checked.{Stage};
ghost use Rattle.judge.specs.Judged.{name_at, Framed, line_bytes, Says, Judged, Agrees, Held, map_frame_of, program_frame_of, relocation_frame_of, slot_at};

use ast::{MapDecl, Name, NamedMap};
use frames::Frame;
use insn::Insn;
use lines::Hex;
use object::{BpfObject, Slot};
use refusals::Refusal;

// How much there is before a frame: lines, programs with the open one, relocations. The maps are counted by the table that is lent.
#[derive(Clone, Copy)]
pub struct Counts {
    pub lines: usize,
    pub programs: usize,
    pub relocs: usize,
}

// What a frame adds to the tables.
#[derive(Clone, Copy)]
pub enum Declaration {
    License(Name),
    Map { decl: MapDecl, name: Name },
    Program { section: Name, symbol: Name },
}

// What a frame asks for.
#[derive(Clone, Copy)]
pub enum Order {
    Declares(Declaration),
    Code(usize),
    Reloc(Slot),
}

// The name that the characters from `from` to `end` give.
fn name_at(from: usize, end: usize) -> Name
    requires from_le_end { from ≤ end }
    requires end_bound { end ≤ 65535 }
    requires end_bound_2 { end ≤ from + 128 }
    ensures { result ≡ name_at from end }
{
    Name {
        at: from as u16,
        len: ((end - from) / 2) as u16,
    }
}

// A licence: it comes first.
fn judge_license(text: &[u8], at: usize, end: usize, lines: usize) -> Result<Order, Refusal>
    requires framed { Framed text.now at end }
    requires lines_bound { lines < 65536 }
    requires says { Says text.now at end (licence (drop 1 (line_bytes text.now at end))) }
    ensures { (s : Stage) → s.lines ≡ lines → Judged text.now s (line_bytes text.now at end) result }
{
    let line = lines + 1;
    if 0 < lines {
        return Err(Refusal::Misplaced(line));
    }
    let from = at + 2;
    let hex = Hex {
        chars: &text[from..end],
    };
    let flaw = flaws::string_flaw(hex);
    let Ok(()) = flaw else {
        return Err(Refusal::BadText(line));
    };
    let limit = flaws::name_limit(hex, false);
    let Ok(()) = limit else {
        return Err(Refusal::OverLimit(line));
    };
    let name = name_at(from, end);
    Ok(Order::Declares(Declaration::License(name)))
}

// A map's declaration: maps precede programs. There are `maps` maps before it.
fn judge_map(
    text: &[u8],
    at: usize,
    end: usize,
    decl: MapDecl,
    name: usize,
    counts: Counts,
    maps: usize,
) -> Result<Order, Refusal>
    requires framed { Framed text.now at end }
    requires lines_bound { counts.lines < 65536 }
    requires le_name { (1 ≤ name) × (name ≤ length (line_bytes text.now at end)) }
    requires says { Says text.now at end (map_frame_of decl (drop name (line_bytes text.now at end))) }
    ensures { (s : Stage) → Agrees s counts → length s.job.maps ≡ maps → Judged text.now s (line_bytes text.now at end) result }
{
    let line = counts.lines + 1;
    if 0 < counts.programs {
        return Err(Refusal::Misplaced(line));
    }
    let from = at + 2 * name;
    let hex = Hex {
        chars: &text[from..end],
    };
    let flaw = flaws::name_flaw(hex);
    let Ok(()) = flaw else {
        return Err(Refusal::BadText(line));
    };
    let limit = flaws::name_limit(hex, BpfObject::MAPS <= maps);
    let Ok(()) = limit else {
        return Err(Refusal::OverLimit(line));
    };
    let name = name_at(from, end);
    Ok(Order::Declares(Declaration::Map { decl, name }))
}

// A program: the section name is before `symbol`, the symbol's name from there on.
fn judge_program(
    text: &[u8],
    at: usize,
    end: usize,
    symbol: usize,
    counts: Counts,
) -> Result<Order, Refusal>
    requires framed { Framed text.now at end }
    requires lines_bound { counts.lines < 65536 }
    requires le_symbol { (2 ≤ symbol) × (symbol ≤ length (line_bytes text.now at end)) }
    requires says { Says text.now at end (program_frame_of symbol (line_bytes text.now at end)) }
    ensures { (s : Stage) → Agrees s counts → Judged text.now s (line_bytes text.now at end) result }
{
    let line = counts.lines + 1;
    let from = at + 4;
    let middle = at + 2 * symbol;
    let first = Hex {
        chars: &text[from..middle],
    };
    let second = Hex {
        chars: &text[middle..end],
    };
    let flaw = flaws::program_flaw(first, second);
    let Ok(()) = flaw else {
        return Err(Refusal::BadText(line));
    };
    let full = BpfObject::PROGRAMS <= counts.programs;
    let limit = flaws::program_limit(first, second, full);
    let Ok(()) = limit else {
        return Err(Refusal::OverLimit(line));
    };
    let section = name_at(from, middle);
    let symbol = name_at(middle, end);
    Ok(Order::Declares(Declaration::Program { section, symbol }))
}

// Code of `n` bytes: it belongs to the open program.
fn judge_code(n: usize, counts: Counts) -> Result<Order, Refusal>
    requires { counts.lines < 65536 }
    ensures { (s : Stage) (text bs bytes : List ℕ) → Agrees s counts → frame_of bs ≡ some (code bytes) → length bytes ≡ n → n ≤ length bs → Judged text s bs result }
{
    if counts.programs == 0 {
        return Err(Refusal::Misplaced(counts.lines + 1));
    }
    Ok(Order::Code(n))
}

// The slot of a relocation whose line is from `at` to `end`, for map number `map`.
fn slot_at(at: usize, end: usize, map: usize) -> Slot
    requires at_bound { at + 18 ≤ end }
    requires end_bound { end ≤ 65535 }
    requires end_bound_2 { end ≤ at + 18 + 128 }
    requires map_bound { map < 64 }
    ensures { result ≡ slot_at at end map }
{
    Slot {
        place: (at + 2) as u16,
        len: ((end - (at + 18)) / 2) as u16,
        map: map as u8,
    }
}

// A relocation: it belongs to the open program, and its map is declared.
fn judge_relocation(
    text: &[u8],
    maps: &[NamedMap],
    at: usize,
    end: usize,
    counts: Counts,
) -> Result<Order, Refusal>
    requires framed { Framed text.now at end }
    requires lines_bound { counts.lines < 65536 }
    requires maps_bound { length maps.now ≤ 64 }
    requires in_bounds { 9 ≤ length (line_bytes text.now at end) }
    requires names { Names text.now maps.now }
    requires says { Says text.now at end (relocation_frame_of (line_bytes text.now at end)) }
    ensures { (s : Stage) → Agrees s counts → Held text.now maps.now s → Judged text.now s (line_bytes text.now at end) result }
{
    let line = counts.lines + 1;
    if counts.programs == 0 {
        return Err(Refusal::Misplaced(line));
    }
    let from = at + 18;
    let hex = Hex {
        chars: &text[from..end],
    };
    let flaw = flaws::name_flaw(hex);
    let Ok(()) = flaw else {
        return Err(Refusal::BadText(line));
    };
    let limit = flaws::name_limit(hex, BpfObject::RELOCATIONS <= counts.relocs);
    let Ok(()) = limit else {
        return Err(Refusal::OverLimit(line));
    };
    let found = lookup::find_map(text, maps, hex);
    let Some(map) = found else {
        return Err(Refusal::UnknownMap(line));
    };
    Ok(Order::Reloc(slot_at(at, end, map)))
}

// What the table does with a line's frame.
pub fn judge_frame(
    text: &[u8],
    maps: &[NamedMap],
    at: usize,
    end: usize,
    frame: Frame,
    counts: Counts,
) -> Result<Order, Refusal>
    requires framed { Framed text.now at end }
    requires lines_bound { counts.lines < 65536 }
    requires maps_bound { length maps.now ≤ 64 }
    requires names { Names text.now maps.now }
    requires says { Says text.now at end (shown (line_bytes text.now at end) frame) }
    requires placed { Placed (line_bytes text.now at end) frame }
    ensures { (s : Stage) → Agrees s counts → Held text.now maps.now s → Judged text.now s (line_bytes text.now at end) result }
{
    match frame {
        Frame::Licence => judge_license(text, at, end, counts.lines),
        Frame::Map { decl, name } => judge_map(text, at, end, decl, name, counts, maps.len()),
        Frame::Program { symbol } => judge_program(text, at, end, symbol, counts),
        Frame::Code => judge_code((end - at) / 2 - 1, counts),
        Frame::Relocation => judge_relocation(text, maps, at, end, counts),
        Frame::Instruction => judge_code(Insn::SIZE, counts),
    }
}

// The sections of an object. Each is written into its own part of the output, and the bytes between two are cleared.
#![tactic(auto)]

ghost use Rattle.std.specs.Prelude.{◌≡◌, List, ℕ, ◌+◌, ◌≤◌, length, take};
ghost use Rattle.std.specs.Fn.{FnOnceTakesAtMut};
ghost use Rattle.octets.specs.Over.{over};
ghost use Rattle.elf.specs.Elf.{align_to, padding, laid, end_of};
ghost use Rattle.elf.specs.Added.{Alignment};
ghost use Rattle.object.specs.Read.{declared_maps, job_in};
ghost use Rattle.object.specs.Kept.{Kept, ProgramKept};
ghost use Rattle.headers.specs.Names.{shstrtab_of};
ghost use Rattle.contents.specs.Slots.{AllPlaced};
ghost use Rattle.measure.specs.Measured.{SizesOf, Small};
ghost use Rattle.sections.specs.Pieces.{own_pieces, program_pieces, map_pieces, table_pieces, all_pieces, Room, Wrote};
ghost use Rattle.btf.specs.Btf.{add_types, start};
ghost use Rattle.btf.specs.Maps.{btf_types};

use elf::{FileHeader, Rel, Section, Symbol};
use measure::Sizes;
use object::{BpfObject, Program, Slot};

// Clears the bytes from `end` to the next place of that alignment; returns that place.
fn pad(out: &mut [u8], end: usize, align: u64) -> usize
    requires alignment { Alignment align }
    requires end_in_bounds { (align_to align end ≤ length out.old) × (length out.old ≤ 200000000) }
    ensures out_after { out.new ≡ over out.old end (padding align end) }
    ensures value { result ≡ align_to align end }
{
    let at = elf::align_to(end as u64, align) as usize;
    octets::clear(&mut out[end..at]);
    at
}

// A section of `size` bytes, after what ends at `end`: `write` is lent its part of the output, and no other. Returns where it ends.
fn lay<F: FnOnce(&mut [u8])>(out: &mut [u8], end: usize, align: u64, size: usize, write: F) -> usize
    requires room { Room out.old end align size }
    requires writes { (part : List ℕ) → length part ≡ size → FnOnceTakesAtMut F.FnOnce write part }
    ensures out_after { Wrote F.FnOnce write out.old end align size out.new }
    ensures value { result ≡ align_to align end + size }
{
    let at = pad(out, end, align);
    let behind = at + size;
    write(&mut out[at..behind]);
    behind
}

// `.maps` and `.BTF`, if there are maps, after what ends at `end`; returns where they end.
fn write_maps(
    out: &mut [u8],
    end: usize,
    text: &[u8],
    object: &BpfObject,
    types: usize,
    sizes: Sizes,
) -> usize
    requires kept { Kept text.now object.now }
    requires types_value { types ≡ length (add_types (btf_types (declared_maps text.now object.now)) start).types }
    requires sizes_of { SizesOf (job_in text.now object.now) sizes }
    requires object_in_bounds { (end_of end (map_pieces object.now.map_count (declared_maps text.now object.now)) ≤ length out.old) × (length out.old ≤ 200000000) }
    ensures out_after { out.new ≡ over out.old end (laid end (map_pieces object.now.map_count (declared_maps text.now object.now))) }
    ensures value { result ≡ end_of end (map_pieces object.now.map_count (declared_maps text.now object.now)) }
{
    if object.map_count == 0 {
        return end;
    }
    let maps = object.maps();
    let middle = lay(out, end, Section::ALIGN_DOUBLE, sizes.maps, octets::clear);
    lay(
        out,
        middle,
        Section::ALIGN_WORD,
        sizes.btf,
        |part| types::build_btf(part, text, maps, types),
    )
}

// A program's section, and its REL section if it has relocations, after what ends at `start`; returns where they end. `slots` are the
// program's own.
fn write_program(
    out: &mut [u8],
    start: usize,
    text: &[u8],
    slots: &[Option<Slot>],
    program: Program,
) -> usize
    requires kept { ProgramKept text.now 256 program }
    requires all_placed { AllPlaced text.now slots.now }
    requires slots_len { length slots.now ≡ program.relocs }
    requires program_in_bounds { (end_of start (own_pieces text.now slots.now program) ≤ length out.old) × (length out.old ≤ 200000000) }
    ensures out_after { out.new ≡ over out.old start (laid start (own_pieces text.now slots.now program)) }
    ensures value { result ≡ end_of start (own_pieces text.now slots.now program) }
{
    let code = program.code_len as usize;
    let coded = lay(out, start, Section::ALIGN_DOUBLE, code, |part| {
        bodies::put_code(part, text, program.from as usize, program.lines as usize)
    });
    if program.relocs == 0 {
        return coded;
    }
    let rels = Rel::SIZE * program.relocs as usize;
    lay(
        out,
        coded,
        Section::ALIGN_DOUBLE,
        rels,
        |part| contents::put_rels(part, text, slots),
    )
}

// The sections of the object's programs, after what ends at `start`; returns where they end.
fn write_programs(out: &mut [u8], start: usize, text: &[u8], object: &BpfObject) -> usize
    requires kept { Kept text.now object.now }
    requires programs_in_bounds { (end_of start (program_pieces text.now object.now.slots (take object.now.program_count object.now.programs)) ≤ length out.old) × (length out.old ≤ 200000000) }
    ensures out_after { out.new ≡ over out.old start (laid start (program_pieces text.now object.now.slots (take object.now.program_count object.now.programs))) }
    ensures value { result ≡ end_of start (program_pieces text.now object.now.slots (take object.now.program_count object.now.programs)) }
{
    let programs = object.programs();
    let mut end = start;
    for program in programs {
        let first = program.first as usize;
        let slots = &object.slots[first..first + program.relocs as usize];
        end = write_program(out, end, text, slots, *program);
    }
    end
}

// The three tables, after what ends at `end`; returns where they end. The sections' names take `names` bytes.
fn write_tables(
    out: &mut [u8],
    end: usize,
    text: &[u8],
    object: &BpfObject,
    sizes: Sizes,
    names: usize,
) -> usize
    requires kept { Kept text.now object.now }
    requires sizes_of { SizesOf (job_in text.now object.now) sizes }
    requires small { Small sizes }
    requires names_value { names ≡ length (shstrtab_of (job_in text.now object.now)) }
    requires object_in_bounds { (end_of end (table_pieces (job_in text.now object.now)) ≤ length out.old) × (length out.old ≤ 200000000) }
    ensures out_after { out.new ≡ over out.old end (laid end (table_pieces (job_in text.now object.now))) }
    ensures value { result ≡ end_of end (table_pieces (job_in text.now object.now)) }
{
    let license = sizes.license;
    let symbols = Symbol::SIZE * (Symbol::FIRST_MAP + object.map_count + object.program_count);
    let first = lay(out, end, Section::ALIGN_DOUBLE, symbols, |part| {
        symbols::build_symtab(part, text, object, license)
    });
    let second = lay(out, first, Section::ALIGN_BYTE, sizes.strtab, |part| {
        strtab::put_strtab(part, text, object)
    });
    lay(
        out,
        second,
        Section::ALIGN_BYTE,
        names,
        |part| headers::build_shstrtab(part, text, object),
    )
}

// All sections, from the end of the file header on; returns where they end. Their names take `names` bytes, and the types in `.BTF` take
// `types`.
pub fn write_sections(
    out: &mut [u8],
    text: &[u8],
    object: &BpfObject,
    sizes: Sizes,
    names: usize,
    types: usize,
) -> usize
    requires kept { Kept text.now object.now }
    requires sizes_of { SizesOf (job_in text.now object.now) sizes }
    requires small { Small sizes }
    requires names_value { names ≡ length (shstrtab_of (job_in text.now object.now)) }
    requires types_value { types ≡ length (add_types (btf_types (declared_maps text.now object.now)) start).types }
    requires object_in_bounds { (end_of 64 (all_pieces text.now object.now) ≤ length out.old) × (length out.old ≤ 200000000) }
    ensures out_after { out.new ≡ over out.old 64 (laid 64 (all_pieces text.now object.now)) }
    ensures value { result ≡ end_of 64 (all_pieces text.now object.now) }
{
    let start = FileHeader::SIZE;
    let size = sizes.license + 1;
    let licensed = lay(out, start, Section::ALIGN_BYTE, size, |part| {
        contents::put_license(part, text, object.license)
    });
    let mapped = write_maps(out, licensed, text, object, types, sizes);
    let programmed = write_programs(out, mapped, text, object);
    write_tables(out, programmed, text, object, sizes, names)
}

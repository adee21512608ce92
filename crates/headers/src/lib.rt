// `.shstrtab`, the names of the object's sections in their order.
#![tactic(auto)]

ghost use Rattle.std.specs.Prelude.{◌≡◌, [], ◌∷◌, ◌++◌, ◌+◌, ◌*◌, ◌≤◌, length};
ghost use Rattle.octets.specs.Octets.{ascii};
ghost use Rattle.octets.specs.Over.{over};
ghost use Rattle.elf.specs.Row.{joined};
ghost use Rattle.object.specs.Read.{name_in, job_in};
ghost use Rattle.object.specs.Kept.{Named, Kept};
ghost use Rattle.strtab.specs.Rows.{ProgramsThere};
ghost use Rattle.headers.specs.Names.{map_section_names, program_section_names, table_names, shstrtab_of};

use ast::Name;
use elf::Section;
use object::{BpfObject, Program};

// A section's name as it is in the text, with its zero byte, over what is at `at`; returns the place after it.
fn put_section(out: &mut [u8], at: usize, text: &[u8], name: Name) -> usize
    requires named { Named text.now name }
    requires name_in_bounds { at + length (name_in text.now name) + 1 ≤ length out.old }
    ensures out_after { out.new ≡ over out.old at (name_in text.now name ++ (0 ∷ [])) }
    ensures value { result ≡ at + length (name_in text.now name ++ (0 ∷ [])) }
{
    let end = named::put_name(out, at, text, name);
    octets::clear(&mut out[end..end + 1]);
    end + 1
}

// The name of a program's REL section, which is `.rel` and the name of the program's section.
fn put_rel_name(out: &mut [u8], at: usize, text: &[u8], name: Name) -> usize
    requires named { Named text.now name }
    requires name_in_bounds { at + length (ascii ".rel" ++ name_in text.now name) + 1 ≤ length out.old }
    ensures out_after { out.new ≡ over out.old at ((ascii ".rel" ++ name_in text.now name) ++ (0 ∷ [])) }
    ensures value { result ≡ at + length ((ascii ".rel" ++ name_in text.now name) ++ (0 ∷ [])) }
{
    octets::copy(&mut out[at..at + Section::REL_NAME_LEN], b".rel");
    put_section(out, at + Section::REL_NAME_LEN, text, name)
}

// The names of `.maps` and `.BTF`, if there are maps; returns the place after them.
fn put_map_sections(out: &mut [u8], at: usize, maps: usize) -> usize
    requires { at + length (joined (map_section_names maps)) ≤ length out.old }
    ensures out_after { out.new ≡ over out.old at (joined (map_section_names maps)) }
    ensures value { result ≡ at + length (joined (map_section_names maps)) }
{
    if maps == 0 {
        return at;
    }
    let next = named::put_string_at(out, at, b".maps");
    named::put_string_at(out, next, b".BTF")
}

// The names of the programs' sections from `start` on, each followed by that of its REL section if it has one; returns the place after
// them.
fn put_program_sections(out: &mut [u8], start: usize, text: &[u8], programs: &[Program]) -> usize
    requires programs_there { ProgramsThere text.now programs.now }
    requires programs_in_bounds { start + length (joined (program_section_names text.now programs.now)) ≤ length out.old }
    ensures out_after { out.new ≡ over out.old start (joined (program_section_names text.now programs.now)) }
    ensures value { result ≡ start + length (joined (program_section_names text.now programs.now)) }
{
    let mut at = start;
    for program in programs {
        at = put_section(out, at, text, program.section);
        if program.relocs != 0 {
            at = put_rel_name(out, at, text, program.section);
        }
    }
    at
}

// The names of the three tables, which are the last sections.
fn put_table_names(out: &mut [u8], at: usize)
    requires { at + length (joined table_names) ≤ length out.old }
    ensures { out.new ≡ over out.old at (joined table_names) }
{
    let strtab = named::put_string_at(out, at, b".symtab");
    let shstrtab = named::put_string_at(out, strtab, b".strtab");
    named::put_string_at(out, shstrtab, b".shstrtab");
}

// `.shstrtab`, into a part of exactly its length.
pub fn build_shstrtab(out: &mut [u8], text: &[u8], object: &BpfObject)
    requires kept { Kept text.now object.now }
    requires out_len { length out.old ≡ length (shstrtab_of (job_in text.now object.now)) }
    ensures { out.new ≡ shstrtab_of (job_in text.now object.now) }
{
    octets::clear(&mut out[0..Section::LICENSE_NAME_AT]);
    named::put_string_at(out, Section::LICENSE_NAME_AT, b"license");
    let at = put_map_sections(out, Section::NEXT_NAME_AT, object.map_count);
    let behind = put_program_sections(out, at, text, object.programs());
    put_table_names(out, behind);
}

// `.symtab`: the null symbol, LICENSE, the maps and the programs. Crate strtab writes their names, in the same order.
#![tactic(auto)]

ghost use Rattle.std.specs.Prelude.{◌≡◌, ◌+◌, ◌*◌, ◌≤◌, length};
ghost use Rattle.octets.specs.Over.{over};
ghost use Rattle.object.specs.Read.{licence_in, job_in};
ghost use Rattle.object.specs.Kept.{Kept};
ghost use Rattle.named.specs.There.{MapsThere};
ghost use Rattle.strtab.specs.Rows.{row_at, row_size, map_row, program_row, symtab_of, ProgramsThere};

use ast::NamedMap;
use elf::{Section, Symbol};
use object::{BpfObject, Program};

// The maps' symbols, from the third entry on; returns the place of the next name.
fn put_map_symbols(out: &mut [u8], text: &[u8], maps: &[NamedMap]) -> usize
    requires maps_there { MapsThere text.now maps.now }
    requires maps_in_bounds { 48 + 24 * length maps.now ≤ length out.old }
    ensures out_after { out.new ≡ over out.old 48 (row_at 10 (map_row text.now maps.now)) }
    ensures value { result ≡ 10 + row_size (map_row text.now maps.now) }
    ensures upper_bound { result ≤ 10 + 65 * length maps.now }
{
    let mut at = Symbol::MAPS_AT;
    let mut place = Symbol::NEXT_NAME_AT;
    let mut value: u64 = 0;
    for map in maps {
        let size = btf::btf_map_size(map.decl) as u64;
        let symbol = Symbol {
            name: place as u32,
            info: Symbol::GLOBAL_OBJECT,
            section: Section::MAPS,
            value,
            size,
        };
        symbol.put(&mut out[at..at + Symbol::SIZE]);
        place += named::written_size(text, map.name) + 1;
        value += size;
        at += Symbol::SIZE;
    }
    place
}

// The programs' symbols, from `start` on. The first one's name is at `names`, and its section is number `first`.
fn put_program_symbols(
    out: &mut [u8],
    start: usize,
    names: usize,
    text: &[u8],
    programs: &[Program],
    first: usize,
)
    requires programs_there { ProgramsThere text.now programs.now }
    requires programs_in_bounds { start + 24 * length programs.now ≤ length out.old }
    requires names_bound { (names ≤ 5000) × (first ≤ 4) }
    ensures { out.new ≡ over out.old start (row_at names (program_row text.now first programs.now)) }
{
    let mut at = start;
    let mut place = names;
    let mut section = first;
    for program in programs {
        let symbol = Symbol {
            name: place as u32,
            info: Symbol::GLOBAL_FUNC,
            section: section as u16,
            value: 0,
            size: program.code_len as u64,
        };
        symbol.put(&mut out[at..at + Symbol::SIZE]);
        place += named::written_size(text, program.symbol) + 1;
        section = strtab::section_behind(section, program.relocs);
        at += Symbol::SIZE;
    }
}

// `.symtab`, into a part of exactly its length. The licence has `license` bytes.
pub fn build_symtab(out: &mut [u8], text: &[u8], object: &BpfObject, license: usize)
    requires kept { Kept text.now object.now }
    requires license_value { license ≡ length (licence_in text.now object.now.license) }
    requires license_bound { license ≤ 64 }
    requires out_len { length out.old ≡ 24 * (2 + object.now.map_count + object.now.program_count) }
    ensures { out.new ≡ symtab_of (job_in text.now object.now) }
{
    Symbol::null().put(&mut out[0..Symbol::SIZE]);
    let symbol = Symbol {
        name: Symbol::LICENSE_NAME_AT as u32,
        info: Symbol::GLOBAL_OBJECT,
        section: Section::LICENSE,
        value: 0,
        size: (license + 1) as u64,
    };
    symbol.put(&mut out[Symbol::SIZE..Symbol::MAPS_AT]);
    let names = put_map_symbols(out, text, object.maps());
    put_program_symbols(
        out,
        Symbol::MAPS_AT + Symbol::SIZE * object.map_count,
        names,
        text,
        object.programs(),
        strtab::first_program(object.map_count),
    );
}

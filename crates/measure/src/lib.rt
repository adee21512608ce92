// Measuring: puts the headers of the object's sections into a lent table, counts them, and finds how long the object is. It does not need
// the output. The sections are in the order of the writers.
#![tactic(auto)]

ghost use Rattle.std.specs.Prelude.{◌≡◌, [], ◌∷◌, ℕ, suc, ◌+◌, ◌*◌, ◌≤◌, ◌<◌, ◌^◌, length, take};
ghost use Rattle.octets.specs.Over.{over};
ghost use Rattle.elf.specs.Entries.{null_section};
ghost use Rattle.elf.specs.Added.{Alignment};
ghost use Rattle.object.specs.Read.{job_in};
ghost use Rattle.object.specs.Kept.{Kept};
ghost use Rattle.elf.specs.Headers.{headers_bytes};
ghost use Rattle.measure.specs.Measured.{with_section, plain_at, plain_on, rel_at, behind_all, begun, Low, ShortNames, front, front_rows, programmed, program_row, after_programs, program_rows, after_declared, declared_rows, tabled, table_rows, rows_of, measured_of, SizesOf, Small};

use elf::{FileHeader, Rel, Section, Symbol};
use object::{BpfObject, Program};

// How many bytes the sections take whose lengths are not in the tables.
#[derive(Clone, Copy)]
pub struct Sizes {
    pub license: usize,
    pub maps: usize,
    pub btf: usize,
    pub strtab: usize,
}

// How many headers there are, header 0 counted; where the header table is; how long the sections' names are; and the object's length.
#[derive(Clone, Copy)]
pub struct Measured {
    pub count: usize,
    pub at: u64,
    pub names: usize,
    pub len: usize,
}

impl Measured {
    // How many bytes the headers of the most sections take: header 0, licence, `.maps`, `.BTF`, two for each program, and the three tables.
    pub const TABLE: usize = (Section::AFTER_BTF + 2 * BpfObject::PROGRAMS + 3) * Section::SIZE;
}

// The sections so far: their number, header 0 counted, where they end, and how long their names are. The table of their headers goes beside
// it: each method of a struct that holds the table would have to say that it is still the one that was lent, and how long it is.
#[derive(Clone, Copy)]
struct Measuring {
    count: usize,
    end: u64,
    names: usize,
}

impl Measuring {
    // What `.shstrtab` takes for its own name, with the zero byte.
    const OWN_NAME: usize = Section::SHSTRTAB_NAME_LEN + 1;
}

// One section more, whose name has `name` bytes: its header goes after those that are there.
fn add_section(
    table: &mut [u8; Measured::TABLE],
    m: Measuring,
    section: Section,
    name: usize,
) -> Measuring
    requires count_bound { m.count < 71 }
    requires size_bound { section.at + section.size < 2 ^ 64 }
    requires name_bound { m.names + name + 1 < 2 ^ 64 }
    ensures table_after { table.new ≡ over table.old (64 * m.count) (headers_bytes (section ∷ [])) }
    ensures value { result ≡ with_section m section name }
{
    let row = Section::SIZE * m.count;
    section.put(&mut table[row..row + Section::SIZE]);
    Measuring {
        count: m.count + 1,
        end: section.at + section.size,
        names: m.names + name + 1,
    }
}

// A section without link, info and entry size, after those that end at `end`.
fn plain(name: usize, sh_type: u32, flags: u64, end: u64, align: u64, size: usize) -> Section
    requires name_bound { name < 2 ^ 32 }
    requires alignment { Alignment align }
    requires align_bound { end + align < 2 ^ 64 }
    ensures { result ≡ plain_at name sh_type flags end align size }
{
    let at = elf::align_to(end, align);
    Section {
        name: name as u32,
        sh_type,
        flags,
        at,
        size: size as u64,
        link: 0,
        info: 0,
        align,
        entsize: 0,
    }
}

// The REL section of the program of section `number`, after those that end at `end`.
fn rel(name: usize, end: u64, relocs: u16, symtab: usize, number: usize) -> Section
    requires name_bound { name < 2 ^ 32 }
    requires end_bound { end + 8 < 2 ^ 64 }
    requires symtab_bound { (symtab < 2 ^ 32) × (number < 2 ^ 32) }
    ensures { result ≡ rel_at name end relocs symtab number }
{
    let at = elf::align_to(end, Section::ALIGN_DOUBLE);
    Section {
        name: name as u32,
        sh_type: Section::SHT_REL,
        flags: 0,
        at,
        size: Rel::SIZE as u64 * (relocs as u64),
        link: symtab as u32,
        info: number as u32,
        align: Section::ALIGN_DOUBLE,
        entsize: Rel::SIZE as u64,
    }
}

// The number of the section after all programs' sections.
fn number_behind(first: usize, programs: &[Program]) -> usize
    requires { (first ≤ 4) × (length programs.now ≤ 32) }
    ensures value { result ≡ behind_all programs.now first }
    ensures upper_bound { result ≤ 68 }
{
    let mut number = first;
    for program in programs {
        number = strtab::section_behind(number, program.relocs);
    }
    number
}

// Header 0 alone.
fn begin(table: &mut [u8; Measured::TABLE]) -> Measuring
    ensures table_after { table.new ≡ over table.old 0 (headers_bytes (null_section ∷ [])) }
    ensures value { result ≡ begun }
{
    Section::null().put(&mut table[0..Section::SIZE]);
    Measuring {
        count: 1,
        end: FileHeader::SIZE as u64,
        names: Section::LICENSE_NAME_AT,
    }
}

// A program's section, and its REL section if it has relocations; `symtab` is the number of the symbol table's section.
fn measure_program(
    table: &mut [u8; Measured::TABLE],
    m: Measuring,
    program: Program,
    symtab: usize,
) -> Measuring
    requires low { Low 68 m }
    requires symtab_bound { (symtab ≤ 68) × (program.section.len ≤ 64) }
    ensures table_after { table.new ≡ over table.old (64 * m.count) (headers_bytes (program_row m symtab program)) }
    ensures value { result ≡ programmed m symtab program }
    ensures by_index { (n : ℕ) → Low n m → Low (suc (suc n)) result }
{
    let len = program.section.len as usize;
    let relocs = program.relocs;
    let code = plain(
        m.names,
        Section::SHT_PROGBITS,
        Section::EXECUTABLE,
        m.end,
        Section::ALIGN_DOUBLE,
        program.code_len as usize,
    );
    let coded = add_section(table, m, code, len);
    if relocs == 0 {
        return coded;
    }
    let entries = rel(coded.names, coded.end, relocs, symtab, m.count);
    add_section(table, coded, entries, len + Section::REL_NAME_LEN)
}

// The programs' sections.
fn measure_programs(
    table: &mut [u8; Measured::TABLE],
    start: Measuring,
    programs: &[Program],
    symtab: usize,
) -> Measuring
    requires low { Low 4 start }
    requires few { length programs.now ≤ 32 }
    requires symtab_bound { (symtab ≤ 68) × ShortNames programs.now }
    ensures table_after { table.new ≡ over table.old (64 * start.count) (headers_bytes (program_rows start symtab programs.now)) }
    ensures value { result ≡ after_programs start symtab programs.now }
    ensures low_2 { Low (4 + 2 * length programs.now) result }
{
    let mut m = start;
    for program in programs {
        m = measure_program(table, m, *program, symtab);
    }
    m
}

// The sections of the object's programs, the first of which has the number `first`.
fn measure_declared(
    table: &mut [u8; Measured::TABLE],
    start: Measuring,
    object: &BpfObject,
    first: usize,
) -> Measuring
    requires low { Low 4 start }
    requires program_count_bound { (object.now.program_count ≤ 32) × (length object.now.programs ≡ 32) }
    requires first_bound { (first ≤ 4) × ShortNames (take object.now.program_count object.now.programs) }
    ensures table_after { table.new ≡ over table.old (64 * start.count) (headers_bytes (declared_rows start first (take object.now.program_count object.now.programs))) }
    ensures value { result ≡ after_declared start first (take object.now.program_count object.now.programs) }
    ensures low_2 { Low (4 + 2 * object.now.program_count) result }
{
    let programs = object.programs();
    let symtab = number_behind(first, programs);
    measure_programs(table, start, programs, symtab)
}

// One more section without link, info and entry size, whose name has `name` bytes.
fn add_plain(
    table: &mut [u8; Measured::TABLE],
    m: Measuring,
    name: usize,
    sh_type: u32,
    flags: u64,
    align: u64,
    size: usize,
) -> Measuring
    requires low { Low 70 m }
    requires alignment { Alignment align }
    requires size_bound { (size ≤ 2000000) × (name ≤ 260) }
    ensures table_after { table.new ≡ over table.old (64 * m.count) (headers_bytes (plain_on m sh_type flags align size ∷ [])) }
    ensures value { result ≡ with_section m (plain_on m sh_type flags align size) name }
{
    let section = plain(m.names, sh_type, flags, m.end, align, size);
    add_section(table, m, section, name)
}

// What is before the programs' sections: the licence, and `.maps` and `.BTF` if there are maps.
fn measure_front(table: &mut [u8; Measured::TABLE], sizes: Sizes, maps: usize) -> Measuring
    requires small { Small sizes }
    ensures table_after { table.new ≡ over table.old 0 (headers_bytes (front_rows sizes maps)) }
    ensures value { result ≡ front sizes maps }
{
    let null = begin(table);
    let licensed = add_plain(
        table,
        null,
        Section::LICENSE_NAME_LEN,
        Section::SHT_PROGBITS,
        Section::WRITABLE,
        Section::ALIGN_BYTE,
        sizes.license + 1,
    );
    if maps == 0 {
        return licensed;
    }
    let with_maps = add_plain(
        table,
        licensed,
        Section::MAPS_NAME_LEN,
        Section::SHT_PROGBITS,
        Section::WRITABLE,
        Section::ALIGN_DOUBLE,
        sizes.maps,
    );
    add_plain(
        table,
        with_maps,
        Section::BTF_NAME_LEN,
        Section::SHT_PROGBITS,
        0,
        Section::ALIGN_WORD,
        sizes.btf,
    )
}

// The three tables after the programs' sections: `.symtab`, `.strtab` and `.shstrtab`, which holds its own name too.
fn measure_tables(
    table: &mut [u8; Measured::TABLE],
    m: Measuring,
    symbols: usize,
    strtab: usize,
) -> Measuring
    requires low { Low 68 m }
    requires symbols_bound { symbols ≤ 98 }
    requires strtab_bound { strtab ≤ 10000 }
    ensures table_after { table.new ≡ over table.old (64 * m.count) (headers_bytes (table_rows m symbols strtab)) }
    ensures value { result ≡ tabled m symbols strtab }
{
    let at = elf::align_to(m.end, Section::ALIGN_DOUBLE);
    let symtab = Section {
        name: m.names as u32,
        sh_type: Section::SHT_SYMTAB,
        flags: 0,
        at,
        size: Symbol::SIZE as u64 * (symbols as u64),
        link: (m.count + 1) as u32,
        info: Symbol::LICENSE,
        align: Section::ALIGN_DOUBLE,
        entsize: Symbol::SIZE as u64,
    };
    let with_symbols = add_section(table, m, symtab, Section::SYMTAB_NAME_LEN);
    let kind = Section::SHT_STRTAB;
    let align = Section::ALIGN_BYTE;
    let name = Section::STRTAB_NAME_LEN;
    let with_strings = add_plain(table, with_symbols, name, kind, 0, align, strtab);
    let own = Section::SHSTRTAB_NAME_LEN;
    let size = with_strings.names + Measuring::OWN_NAME;
    add_plain(table, with_strings, own, kind, 0, align, size)
}

// Measures the object, and puts the headers of its sections at the front of `table`. `object` has the tables of `text`, and `sizes` the
// sizes of its sections.
pub fn measure(text: &[u8], table: &mut [u8], object: &BpfObject, sizes: Sizes) -> Measured
    requires kept { Kept text.now object.now }
    requires sizes_of { SizesOf (job_in text.now object.now) sizes }
    requires small { Small sizes }
    requires table_len { length table.old ≡ 4544 }
    ensures table_after { table.new ≡ over table.old 0 (headers_bytes (rows_of (job_in text.now object.now))) }
    ensures value { result ≡ measured_of (job_in text.now object.now) }
    ensures len_bound { result.len ≤ 200000000 }
{
    let rows = table.as_mut_array().unwrap();
    let maps = object.map_count;
    let count = object.program_count;
    let first = strtab::first_program(maps);
    let before = measure_front(rows, sizes, maps);
    let declared = measure_declared(rows, before, object, first);
    let whole = measure_tables(
        rows,
        declared,
        Symbol::FIRST_MAP + maps + count,
        sizes.strtab,
    );
    let at = elf::align_to(whole.end, Section::ALIGN_DOUBLE);
    Measured {
        count: whole.count,
        at,
        names: whole.names,
        len: at as usize + Section::SIZE * whole.count,
    }
}

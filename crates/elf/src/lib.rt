// The ELF container: places, string tables, sections, symbols and relocations, as elf.rs of the original has them.
#![tactic(auto)]

ghost use Rattle.std.specs.Prelude.{◌≡◌, [], ◌∷◌, ◌++◌, ◌+◌, ◌<◌, ◌^◌, length, take, drop};
ghost use Rattle.elf.specs.Elf.{align_to, file_header, header_bytes, entry_bytes, rel_bytes};
ghost use Rattle.elf.specs.Added.{Alignment, added};
ghost use Rattle.elf.specs.Entries.{null_section, header_of, null_symbol, entry_of};

// The next multiple of `align` at or after `value`.
pub fn align_to(value: u64, align: u64) -> u64
    requires alignment { Alignment align }
    requires align_bound { value + align < 2 ^ 64 }
    ensures { result ≡ align_to align value }
{
    if align <= 1 {
        value
    } else {
        (value + align - 1) & !(align - 1)
    }
}

// Where a string is in its table, and how long the table then is.
#[derive(Clone, Copy)]
pub struct Added {
    pub place: usize,
    pub len: usize,
}

// A string of `n` bytes is added at the end of a table of `len` bytes, and a zero byte after it.
pub fn add_string(len: usize, n: usize) -> Added
    requires { len + n + 1 < 2 ^ 64 }
    ensures { result ≡ added len n }
{
    Added {
        place: len,
        len: len + n + 1,
    }
}

// A string of a table, with its zero byte, into a part of exactly that length.
pub fn put_string(out: &mut [u8], s: &[u8])
    requires { length out.old ≡ length s.now + 1 }
    ensures { out.new ≡ s.now ++ (0 ∷ []) }
{
    let n = s.len();
    octets::copy(&mut out[0..n], s);
    octets::clear(&mut out[n..n + 1]);
}

// A section, by the numbers of its header. `name` is the place of its name in `.shstrtab`, `at` its own place in the file.
#[derive(Clone, Copy)]
pub struct Section {
    pub name: u32,
    pub sh_type: u32,
    pub flags: u64,
    pub at: u64,
    pub size: u64,
    pub link: u32,
    pub info: u32,
    pub align: u64,
    pub entsize: u64,
}

impl Section {
    pub const SHT_NULL: u32 = 0;

    pub const SHT_PROGBITS: u32 = 1;

    pub const SHT_SYMTAB: u32 = 2;

    pub const SHT_STRTAB: u32 = 3;

    pub const SHT_REL: u32 = 9;

    pub const SHF_WRITE: u64 = 1;

    pub const SHF_ALLOC: u64 = 2;

    pub const SHF_EXECINSTR: u64 = 4;

    // The flags of a section that a loader makes writable, and of one that it runs.
    pub const WRITABLE: u64 = Section::SHF_ALLOC | Section::SHF_WRITE;

    pub const EXECUTABLE: u64 = Section::SHF_ALLOC | Section::SHF_EXECINSTR;

    // A section may begin at any byte, at each fourth or at each eighth.
    pub const ALIGN_BYTE: u64 = 1;

    pub const ALIGN_WORD: u64 = 4;

    pub const ALIGN_DOUBLE: u64 = 8;

    // How many bytes a section's header has.
    pub const SIZE: usize = 64;

    pub const WIDTHS: [u8; 10] = [4, 4, 8, 8, 8, 8, 4, 4, 8, 8];

    // The numbers of the sections before the programs'; `.maps` and `.BTF` are there only if there are maps.
    pub const LICENSE: u16 = 1;

    pub const MAPS: u16 = 2;

    pub const BTF: u16 = 3;

    // The number of the first program's section, without maps and with them.
    pub const AFTER_LICENSE: usize = Section::LICENSE as usize + 1;

    pub const AFTER_BTF: usize = Section::BTF as usize + 1;

    // How long the sections' names are. That of a REL section begins with `.rel`.
    pub const LICENSE_NAME_LEN: usize = 7;

    pub const MAPS_NAME_LEN: usize = 5;

    pub const BTF_NAME_LEN: usize = 4;

    pub const REL_NAME_LEN: usize = 4;

    pub const SYMTAB_NAME_LEN: usize = 7;

    pub const STRTAB_NAME_LEN: usize = 7;

    pub const SHSTRTAB_NAME_LEN: usize = 9;

    // Places in `.shstrtab`: of `license`, after the zero byte that a table begins with, and of the name after it.
    pub const LICENSE_NAME_AT: usize = 1;

    pub const NEXT_NAME_AT: usize = Section::LICENSE_NAME_AT + Section::LICENSE_NAME_LEN + 1;

    // Section 0, whose header has alignment 1, as the original writes it.
    pub fn null() -> Self
        ensures { result ≡ null_section }
    {
        Section {
            name: 0,
            sh_type: Section::SHT_NULL,
            flags: 0,
            at: 0,
            size: 0,
            link: 0,
            info: 0,
            align: Section::ALIGN_BYTE,
            entsize: 0,
        }
    }

    // The section's header, into a part of exactly its size.
    pub fn put(self, out: &mut [u8])
        requires { length out.old ≡ 64 }
        ensures { out.new ≡ header_bytes (header_of self) }
    {
        let values = [
            self.name as u64,
            self.sh_type as u64,
            self.flags,
            0,
            self.at,
            self.size,
            self.link as u64,
            self.info as u64,
            self.align,
            self.entsize,
        ];
        octets::put_fields(out, &Section::WIDTHS, &values);
    }
}

// A symbol, by the numbers of its entry.
#[derive(Clone, Copy)]
pub struct Symbol {
    pub name: u32,
    pub info: u8,
    pub section: u16,
    pub value: u64,
    pub size: u64,
}

impl Symbol {
    pub const STB_LOCAL: u8 = 0;

    pub const STB_GLOBAL: u8 = 1;

    pub const STT_NOTYPE: u8 = 0;

    pub const STT_OBJECT: u8 = 1;

    pub const STT_FUNC: u8 = 2;

    // A symbol's info: its binding in the upper four bits, its type in the lower.
    pub const LOCAL_NOTYPE: u8 = Symbol::STB_LOCAL << 4 | Symbol::STT_NOTYPE;

    pub const GLOBAL_OBJECT: u8 = Symbol::STB_GLOBAL << 4 | Symbol::STT_OBJECT;

    pub const GLOBAL_FUNC: u8 = Symbol::STB_GLOBAL << 4 | Symbol::STT_FUNC;

    // How many bytes a symbol's entry has.
    pub const SIZE: usize = 24;

    pub const WIDTHS: [u8; 6] = [4, 1, 1, 2, 8, 8];

    // The number of LICENSE, the first global symbol, and of the first map's symbol.
    pub const LICENSE: u32 = 1;

    pub const FIRST_MAP: usize = Symbol::LICENSE as usize + 1;

    // Where the entries of the maps' symbols begin in `.symtab`.
    pub const MAPS_AT: usize = Symbol::FIRST_MAP * Symbol::SIZE;

    pub const LICENSE_NAME_LEN: usize = 7;

    // Places in `.strtab`: of the null symbol's empty name, of LICENSE, and of the name after it.
    pub const NULL_NAME_AT: u32 = 1;

    pub const LICENSE_NAME_AT: usize = Symbol::NULL_NAME_AT as usize + 1;

    pub const NEXT_NAME_AT: usize = Symbol::LICENSE_NAME_AT + Symbol::LICENSE_NAME_LEN + 1;

    // Symbol 0: its empty name is appended to the table too, after the zero byte that a table begins with.
    pub fn null() -> Self
        ensures { result ≡ null_symbol }
    {
        Symbol {
            name: Symbol::NULL_NAME_AT,
            info: Symbol::LOCAL_NOTYPE,
            section: 0,
            value: 0,
            size: 0,
        }
    }

    // The symbol's entry, into a part of exactly its size.
    pub fn put(self, out: &mut [u8])
        requires { length out.old ≡ 24 }
        ensures { out.new ≡ entry_bytes (entry_of self) }
    {
        let values = [
            self.name as u64,
            self.info as u64,
            0,
            self.section as u64,
            self.value,
            self.size,
        ];
        octets::put_fields(out, &Symbol::WIDTHS, &values);
    }
}

// The numbers of a relocation's entry.
#[derive(Clone, Copy)]
pub struct Rel {}

impl Rel {
    pub const R_BPF_64_64: u64 = 1;

    // How many bytes an entry has.
    pub const SIZE: usize = 16;
}

// A relocation of type R_BPF_64_64 at `offset` to symbol number `symbol`, into a part of exactly its size.
pub fn put_rel(out: &mut [u8], offset: u64, symbol: u32)
    requires { length out.old ≡ 16 }
    ensures { out.new ≡ rel_bytes offset symbol }
{
    let info = ((symbol as u64) << 32) | Rel::R_BPF_64_64;
    octets::put_fields(out, &[8u8, 8], &[offset, info]);
}

// The numbers of the file header.
#[derive(Clone, Copy)]
pub struct FileHeader {}

impl FileHeader {
    pub const ELFMAG0: u64 = 0x7f;

    pub const ELFMAG1: u64 = 0x45;

    pub const ELFMAG2: u64 = 0x4c;

    pub const ELFMAG3: u64 = 0x46;

    pub const ELFCLASS64: u64 = 2;

    pub const ELFDATA2LSB: u64 = 1;

    pub const EV_CURRENT: u64 = 1;

    // How many bytes the identification has. The header begins with it.
    pub const EI_NIDENT: usize = 16;

    pub const ET_REL: u64 = 1;

    pub const EM_BPF: u64 = 247;

    // How many bytes the header has.
    pub const SIZE: usize = 64;
}

// The first 16 bytes of the file header. They say that the file is ELF, for 64 bits, with the lowest byte first, and are always the same.
fn put_identification(out: &mut [u8])
    requires { length out.old ≡ 16 }
    ensures { out.new ≡ take 16 (file_header 0 0 0) }
{
    let values = [
        FileHeader::ELFMAG0,
        FileHeader::ELFMAG1,
        FileHeader::ELFMAG2,
        FileHeader::ELFMAG3,
        FileHeader::ELFCLASS64,
        FileHeader::ELFDATA2LSB,
        FileHeader::EV_CURRENT,
        0,
        0,
    ];
    octets::put_fields(out, &[1u8, 1, 1, 1, 1, 1, 1, 1, 8], &values);
}

// The numbers of the file header, which come after its identification.
fn put_header_numbers(out: &mut [u8], table: u64, count: u16, names: u16)
    requires { length out.old ≡ 48 }
    ensures { out.new ≡ drop 16 (file_header table count names) }
{
    let values = [
        FileHeader::ET_REL,
        FileHeader::EM_BPF,
        FileHeader::EV_CURRENT,
        0,
        0,
        table,
        0,
        FileHeader::SIZE as u64,
        0,
        0,
        Section::SIZE as u64,
        count as u64,
        names as u64,
    ];
    octets::put_fields(out, &[2u8, 2, 4, 8, 8, 8, 4, 2, 2, 2, 2, 2, 2], &values);
}

// The file header. The `count` section headers are at `table`, and the number of `.shstrtab` is `names`.
pub fn put_file_header(out: &mut [u8], table: u64, count: u16, names: u16)
    requires { length out.old ≡ 64 }
    ensures { out.new ≡ file_header table count names }
{
    put_identification(&mut out[0..FileHeader::EI_NIDENT]);
    put_header_numbers(
        &mut out[FileHeader::EI_NIDENT..FileHeader::SIZE],
        table,
        count,
        names,
    );
}

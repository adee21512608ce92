// `BpfObject`: the tables of a job. Names, code and offsets stay in the job's text, and the tables hold their places. A full table says so
// and stays as it is.
#![tactic(auto)]

ghost use Rattle.std.specs.Prelude.{◌≡◌, ◌≤◌, leb, length, take};
ghost use Rattle.octets.specs.Told.{gives, told_if};
ghost use Rattle.object.specs.Tables.{no_program, empty_object, Sound, adding_told, with_license, added_map, added_program};

use ast::{Attr, MapDecl, MapType, Name, NamedMap};

#[derive(Clone, Copy)]
pub enum License {
    Gpl,
    Text(Name),
}

// A relocation: the number of its map, the place of its offset in the text, and how many bytes the map's name has, which follows the
// offset.
#[derive(Clone, Copy)]
pub struct Slot {
    pub map: u8,
    pub place: u16,
    pub len: u16,
}

// A program: its body is the `lines` lines of the text from `from` on, its code has `code_len` bytes, and its relocations are `relocs`
// slots from `first` on.
#[derive(Clone, Copy)]
pub struct Program {
    pub section: Name,
    pub symbol: Name,
    pub from: u16,
    pub lines: u16,
    pub code_len: u16,
    pub first: u16,
    pub relocs: u16,
}

impl Program {
    // No program: what is in the table before one is added.
    pub fn none() -> Self
        ensures { result ≡ no_program }
    {
        let name = Name { at: 0, len: 0 };
        Program {
            section: name,
            symbol: name,
            from: 0,
            lines: 0,
            code_len: 0,
            first: 0,
            relocs: 0,
        }
    }
}

// A count is before its table, and no table is next to the licence: then the compiler copies each table by itself.
#[derive(Clone, Copy)]
pub struct BpfObject {
    pub license: License,
    pub map_count: usize,
    pub maps: [NamedMap; BpfObject::MAPS],
    pub program_count: usize,
    pub programs: [Program; BpfObject::PROGRAMS],
    pub reloc_count: usize,
    pub slots: [Option<Slot>; BpfObject::RELOCATIONS],
}

// A table that has no room left.
#[derive(Clone, Copy)]
pub struct Full;

// The object as it is after a step, and whether there was room for what the step adds.
#[derive(Clone, Copy)]
pub struct Added {
    pub answer: Result<(), Full>,
    pub object: BpfObject,
}

impl BpfObject {
    pub const MAPS: usize = 64;

    pub const PROGRAMS: usize = 32;

    pub const RELOCATIONS: usize = 256;

    pub fn new() -> Self
        ensures { result ≡ empty_object }
    {
        let decl = MapDecl {
            map_type: MapType::Hash,
            key_type: Attr::Absent,
            value_type: Attr::Absent,
            max_entries: Attr::Absent,
        };
        let name = Name { at: 0, len: 0 };
        let map = NamedMap { decl, name };
        let program = Program::none();
        BpfObject {
            license: License::Gpl,
            maps: [map; BpfObject::MAPS],
            map_count: 0,
            programs: [program; BpfObject::PROGRAMS],
            program_count: 0,
            slots: [None; BpfObject::RELOCATIONS],
            reloc_count: 0,
        }
    }

    pub fn add_license(mut self, name: Name) -> Added
        requires { Sound self }
        ensures value { result ≡ with_license self name }
        ensures answer_value { adding_told result.answer ≡ gives tt }
    {
        self.license = License::Text(name);
        Added {
            answer: Ok(()),
            object: self,
        }
    }

    // One return serves both answers: the object goes by value, and each return would copy it.
    pub fn add_map(mut self, decl: MapDecl, name: Name) -> Added
        requires { Sound self }
        ensures value { result ≡ added_map self decl name }
        ensures answer_value { adding_told result.answer ≡ told_if 6 (leb 64 self.map_count) }
    {
        let n = self.map_count;
        let mut answer = Err(Full);
        if n < BpfObject::MAPS {
            self.maps[n] = NamedMap { decl, name };
            self.map_count = n + 1;
            answer = Ok(());
        }
        Added {
            answer,
            object: self,
        }
    }

    // One return here too, for the same reason.
    pub fn add_program(mut self, program: Program) -> Added
        requires { Sound self }
        ensures value { result ≡ added_program self program }
        ensures answer_value { adding_told result.answer ≡ told_if 6 (leb 32 self.program_count) }
    {
        let n = self.program_count;
        let mut answer = Err(Full);
        if n < BpfObject::PROGRAMS {
            self.programs[n] = program;
            self.program_count = n + 1;
            answer = Ok(());
        }
        Added {
            answer,
            object: self,
        }
    }

    // The maps that are declared.
    pub fn maps(&self) -> &[NamedMap]
        requires { self.now.map_count ≤ length self.now.maps }
        ensures { result.now ≡ take self.now.map_count self.now.maps }
    {
        &self.maps[..self.map_count]
    }

    // The programs that are closed.
    pub fn programs(&self) -> &[Program]
        requires { self.now.program_count ≤ length self.now.programs }
        ensures { result.now ≡ take self.now.program_count self.now.programs }
    {
        &self.programs[..self.program_count]
    }
}

// BTF tells a loader what the maps are. Its numbers are those of elf.rs of the original.
#![tactic(auto)]

ghost use Rattle.std.specs.Prelude.{◌≡◌, [], ◌∷◌, ◌+◌, ◌*◌, ◌≤◌, ◌<◌, ◌^◌, length};
ghost use Rattle.octets.specs.Over.{over};
ghost use Rattle.btf.specs.Btf.{info, type_bytes, int, ptr, array, var};
ghost use Rattle.ast.specs.Numbers.{map_type_number};
ghost use Rattle.btf.specs.Maps.{map_room, attr_count};
ghost use Rattle.btf.specs.Builder.{words, new_builder, moved, passed, membered, entered, Within};

use ast::{Attr, MapDecl, MapType};

// A type's info word: its kind, and how many parts follow.
pub fn btf_info(kind: u32, vlen: u32) -> u32
    requires kind_bound { kind < 256 }
    requires vlen_bound { vlen < 2 ^ 24 }
    ensures { result ≡ info kind vlen }
{
    (kind << 24) | vlen
}

// The kernel's number of a map type.
pub fn map_type_num(map_type: MapType) -> u32
    ensures { result ≡ map_type_number map_type }
{
    match map_type {
        MapType::Hash => 1,
        MapType::Array => 2,
        MapType::ProgArray => 3,
        MapType::LruHash => 9,
        MapType::Ringbuf => 27,
    }
}

// 1 for an attribute that is declared, 0 for one that is not.
fn attr_count<T: Copy>(attr: Attr<T>) -> u32
    ensures value { result ≡ attr_count attr }
    ensures upper_bound { result ≤ 1 }
{
    match attr {
        Attr::Absent => 0,
        Attr::Present(_) => 1,
    }
}

// A map's room in `.maps`: 8 bytes for each attribute, the type included.
pub fn btf_map_size(map: MapDecl) -> u32
    ensures { result ≡ map_room map.key_type map.value_type map.max_entries }
{
    let mut fields = 1;
    fields += attr_count(map.key_type);
    fields += attr_count(map.value_type);
    fields += attr_count(map.max_entries);
    fields * BtfBuilder::ROOM
}

// Numbers of four bytes each, over what is at `at`.
fn put_words(out: &mut [u8], at: usize, values: &[u64])
    requires { at + 4 * length values.now ≤ length out.old }
    ensures { out.new ≡ over out.old at (words values.now) }
{
    let mut place = at;
    for value in values {
        octets::put_at(out, place, BtfBuilder::WORD, *value);
        place += BtfBuilder::WORD;
    }
}

// A type, over what is at `at`: the place of its name, its info word, and the other words of its kind.
fn put_type(out: &mut [u8], at: usize, name: usize, kind: u32, vlen: u32, rest: &[u64])
    requires kind_bound { kind < 256 }
    requires vlen_bound { vlen < 2 ^ 24 }
    requires rest_in_bounds { at + 8 + 4 * length rest.now ≤ length out.old }
    ensures { out.new ≡ over out.old at (words (name ∷ info kind vlen ∷ rest.now)) }
{
    let info = btf_info(kind, vlen) as u64;
    put_words(out, at, &[name as u64, info]);
    put_words(out, at + BtfBuilder::HEAD, rest);
}

// The ints, which are the first types: `int`, which arrays are made of, and those of keys and values. Ids begin at 1.
#[derive(Clone, Copy)]
pub struct BtfIntIds {}

impl BtfIntIds {
    pub const INT: u32 = 1;

    pub const U32: u32 = 2;

    pub const U64: u32 = 3;

    pub const I32: u32 = 4;

    pub const I64: u32 = 5;

    // The first id after them.
    pub const NEXT: u32 = BtfIntIds::I64 + 1;

    // How many bytes an int of 32 bits has, and one of 64.
    pub const BYTES_32: u32 = 4;

    pub const BYTES_64: u32 = 8;

    // How long the name of each is.
    pub const NAME_LEN: usize = 3;

    // How many bytes their types take, and the strings up to the last of their names, with the zero byte that a table begins with.
    pub const TYPES: usize = BtfIntIds::I64 as usize * BtfBuilder::INT_SIZE;

    pub const STRINGS: usize = 1 + BtfIntIds::I64 as usize * (BtfIntIds::NAME_LEN + 1);
}

// Where the next type goes in lent memory, how long the strings are so far, and the id of the next type. The strings themselves are written
// separately: a type names a string by its place, which follows from the lengths of those before it.
#[derive(Clone, Copy)]
pub struct BtfBuilder {
    pub at: usize,
    pub strings: usize,
    pub next_type_id: u32,
}

impl BtfBuilder {
    pub const KIND_INT: u32 = 1;

    pub const KIND_PTR: u32 = 2;

    pub const KIND_ARRAY: u32 = 3;

    pub const KIND_STRUCT: u32 = 4;

    pub const KIND_VAR: u32 = 14;

    pub const KIND_DATASEC: u32 = 15;

    pub const INT_SIGNED: u32 = 1;

    pub const VAR_GLOBAL_ALLOCATED: u64 = 1;

    pub const MAGIC: u64 = 0xeb9f;

    pub const VERSION: u64 = 1;

    // How many bytes the section's header has.
    pub const HEADER: usize = 24;

    // A type is written in words. The first two are its name's place and its info.
    pub const WORD: usize = 4;

    pub const HEAD: usize = 2 * BtfBuilder::WORD;

    // How many bytes a type takes. The first is for a pointer, and for a struct or a section without what follows it.
    pub const TYPE_SIZE: usize = 12;

    pub const INT_SIZE: usize = 16;

    pub const ARRAY_SIZE: usize = 24;

    pub const VAR_SIZE: usize = 16;

    // How many bytes a struct's member takes, and a section's entry.
    pub const MEMBER_SIZE: usize = 12;

    pub const ENTRY_SIZE: usize = 12;

    // A map's room in `.maps` for each attribute, in bytes, and the bits of a member.
    pub const ROOM: u32 = 8;

    pub const BYTE_BITS: u64 = 8;

    pub const MEMBER_BITS: u64 = BtfBuilder::ROOM as u64 * BtfBuilder::BYTE_BITS;

    // A number is two types: an array and a pointer to it.
    pub const NUMBER_IDS: u32 = 2;

    // How long the members' names are.
    pub const TYPE_NAME_LEN: usize = 4;

    pub const KEY_NAME_LEN: usize = 3;

    pub const VALUE_NAME_LEN: usize = 5;

    pub const MAX_ENTRIES_NAME_LEN: usize = 11;

    // No type yet, and only the zero byte that a string table begins with.
    pub fn new() -> Self
        ensures { result ≡ new_builder }
    {
        BtfBuilder {
            at: 0,
            strings: 1,
            next_type_id: BtfIntIds::INT,
        }
    }

    // The builder behind a type of `size` bytes that has no name.
    fn past_type(self, size: usize) -> Self
        requires at_bound { self.at + size < 2 ^ 64 }
        requires next_bound { self.next_type_id + 1 < 2 ^ 32 }
        ensures { result ≡ passed self size 1 }
    {
        BtfBuilder {
            at: self.at + size,
            next_type_id: self.next_type_id + 1,
            ..self
        }
    }

    // The same behind a type whose name has `name` bytes.
    fn past_named(self, size: usize, name: usize) -> Self
        requires at_bound { self.at + size < 2 ^ 64 }
        requires strings_bound { self.strings + (name + 1) < 2 ^ 64 }
        requires next_bound { self.next_type_id + 1 < 2 ^ 32 }
        ensures { result ≡ moved self size (name + 1) 1 }
    {
        BtfBuilder {
            at: self.at + size,
            strings: self.strings + (name + 1),
            next_type_id: self.next_type_id + 1,
        }
    }

    // An integer type of `size` bytes, whose name has `name` bytes.
    pub fn add_int(self, out: &mut [u8], name: usize, size: u32, encoding: u32) -> Self
        requires { Within (moved self 16 (name + 1) 1) (length out.old) }
        ensures out_after { out.new ≡ over out.old self.at (type_bytes (self.strings ∷ []) (int [] size encoding)) }
        ensures value { result ≡ moved self 16 (name + 1) 1 }
    {
        let data = encoding as u64 * 0x1000000 + BtfBuilder::BYTE_BITS * (size as u64);
        put_type(
            out,
            self.at,
            self.strings,
            BtfBuilder::KIND_INT,
            0,
            &[size as u64, data],
        );
        self.past_named(BtfBuilder::INT_SIZE, name)
    }

    // A pointer to the type `pointee_type`.
    pub fn add_ptr(self, out: &mut [u8], pointee_type: u32) -> Self
        requires { Within (passed self 12 1) (length out.old) }
        ensures out_after { out.new ≡ over out.old self.at (type_bytes [] (ptr pointee_type)) }
        ensures value { result ≡ passed self 12 1 }
    {
        put_type(
            out,
            self.at,
            0,
            BtfBuilder::KIND_PTR,
            0,
            &[pointee_type as u64],
        );
        self.past_type(BtfBuilder::TYPE_SIZE)
    }

    // An array of `nelems` elements.
    pub fn add_array(self, out: &mut [u8], elem_type: u32, index_type: u32, nelems: u32) -> Self
        requires { Within (passed self 24 1) (length out.old) }
        ensures out_after { out.new ≡ over out.old self.at (type_bytes [] (array elem_type index_type nelems)) }
        ensures value { result ≡ passed self 24 1 }
    {
        let rest = [0u64, elem_type as u64, index_type as u64, nelems as u64];
        put_type(out, self.at, 0, BtfBuilder::KIND_ARRAY, 0, &rest);
        self.past_type(BtfBuilder::ARRAY_SIZE)
    }

    // A struct of `vlen` members, each of 8 bytes; the members follow, each by `add_member`.
    pub fn add_struct(self, out: &mut [u8], vlen: u32) -> Self
        requires vlen_bound { vlen < 2 ^ 24 }
        requires within { Within (passed self 12 1) (length out.old) }
        ensures out_after { out.new ≡ over out.old self.at (words (0 ∷ info 4 vlen ∷ 8 * vlen ∷ [])) }
        ensures value { result ≡ passed self 12 1 }
    {
        put_type(
            out,
            self.at,
            0,
            BtfBuilder::KIND_STRUCT,
            vlen,
            &[(BtfBuilder::ROOM * vlen) as u64],
        );
        self.past_type(BtfBuilder::TYPE_SIZE)
    }

    // The struct's member at `position`, whose name has `name` bytes. Each member before it takes 64 bits.
    pub fn add_member(self, out: &mut [u8], name: usize, typ: u32, position: u32) -> Self
        requires { Within (membered self (name + 1)) (length out.old) }
        ensures out_after { out.new ≡ over out.old self.at (words (self.strings ∷ typ ∷ 64 * position ∷ [])) }
        ensures value { result ≡ membered self (name + 1) }
    {
        put_words(
            out,
            self.at,
            &[
                self.strings as u64,
                typ as u64,
                BtfBuilder::MEMBER_BITS * position as u64,
            ],
        );
        BtfBuilder {
            at: self.at + BtfBuilder::MEMBER_SIZE,
            strings: self.strings + (name + 1),
            ..self
        }
    }

    // A variable of the type `typ`, whose name has `name` bytes.
    pub fn add_var(self, out: &mut [u8], name: usize, typ: u32) -> Self
        requires { Within (moved self 16 (name + 1) 1) (length out.old) }
        ensures out_after { out.new ≡ over out.old self.at (type_bytes (self.strings ∷ []) (var [] typ)) }
        ensures value { result ≡ moved self 16 (name + 1) 1 }
    {
        let rest = [typ as u64, BtfBuilder::VAR_GLOBAL_ALLOCATED];
        put_type(out, self.at, self.strings, BtfBuilder::KIND_VAR, 0, &rest);
        self.past_named(BtfBuilder::VAR_SIZE, name)
    }

    // A section of `size` bytes with `vlen` variables, whose name has `name` bytes; the entries follow, each by `add_entry`.
    pub fn add_datasec(self, out: &mut [u8], name: usize, size: u32, vlen: u32) -> Self
        requires vlen_bound { vlen < 2 ^ 24 }
        requires within { Within (moved self 12 (name + 1) 1) (length out.old) }
        ensures out_after { out.new ≡ over out.old self.at (words (self.strings ∷ info 15 vlen ∷ size ∷ [])) }
        ensures value { result ≡ moved self 12 (name + 1) 1 }
    {
        put_type(
            out,
            self.at,
            self.strings,
            BtfBuilder::KIND_DATASEC,
            vlen,
            &[size as u64],
        );
        self.past_named(BtfBuilder::TYPE_SIZE, name)
    }

    // The section's entry for a variable: its id, and the place and the size of what it names.
    pub fn add_entry(self, out: &mut [u8], typ: u32, offset: u32, size: u32) -> Self
        requires { Within (entered self) (length out.old) }
        ensures out_after { out.new ≡ over out.old self.at (words (typ ∷ offset ∷ size ∷ [])) }
        ensures value { result ≡ entered self }
    {
        put_words(out, self.at, &[typ as u64, offset as u64, size as u64]);
        BtfBuilder {
            at: self.at + BtfBuilder::ENTRY_SIZE,
            ..self
        }
    }
}

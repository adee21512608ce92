// How much room maps take: in `.maps`, and in the types and the strings of `.BTF`.
#![tactic(auto)]

ghost use Rattle.std.specs.Prelude.{◌≡◌, ◌+◌, ◌*◌, ◌≤◌, ◌<◌, length};
ghost use Rattle.btf.specs.Maps.{btf_types};
ghost use Rattle.btf.specs.Btf.{start, add_types};
ghost use Rattle.members.specs.Section.{rooms_of, attr_ids, span_of};
ghost use Rattle.object.specs.Read.{maps_in};
ghost use Rattle.named.specs.There.{MapsThere};
ghost use Rattle.members.specs.Strings.{attr_names};

use ast::{Attr, MapDecl, NamedMap};
use btf::{BtfBuilder, BtfIntIds};
use elf::Section;
use members::InBtf;

// The size of `.maps`: the room of the maps one after the other.
pub fn maps_size(maps: &[NamedMap]) -> usize
    requires { length maps.now ≤ 64 }
    ensures value { result ≡ rooms_of maps.now }
    ensures upper_bound { result ≤ 32 * length maps.now }
{
    let mut size: usize = 0;
    for map in maps {
        size += btf::btf_map_size(map.decl) as usize;
    }
    size
}

// How many types an attribute has: none if it is absent.
pub fn attr_ids<T: InBtf>(attr: Attr<T>) -> u32
    ensures value { result ≡ attr_ids T.IDS attr }
    ensures upper_bound { result ≤ T.IDS }
{
    match attr {
        Attr::Absent => 0,
        Attr::Present(_) => T::IDS,
    }
}

// How many bytes the types and the strings of `.BTF` take.
#[derive(Clone, Copy)]
pub struct BtfSize {
    pub types: usize,
    pub strings: usize,
}

impl BtfSize {
    // Without any map: the ints, and the section's type and name.
    pub const TYPES: usize = BtfIntIds::TYPES + BtfBuilder::TYPE_SIZE;

    pub const STRINGS: usize = BtfIntIds::STRINGS + Section::MAPS_NAME_LEN + 1;

    // A map's types besides its attributes' pointers and members: the array of its kind, the struct, the variable and the entry.
    const MAP: usize = BtfBuilder::ARRAY_SIZE
        + BtfBuilder::TYPE_SIZE
        + BtfBuilder::VAR_SIZE
        + BtfBuilder::ENTRY_SIZE;

    // The pointer and the member of an attribute, for each byte of its room in `.maps`.
    const ATTRIBUTE: usize = (BtfBuilder::TYPE_SIZE + BtfBuilder::MEMBER_SIZE)
        / BtfBuilder::ROOM as usize;

    // The array of a number of entries, for each of the number's types.
    const ENTRIES: usize = BtfBuilder::ARRAY_SIZE / BtfBuilder::NUMBER_IDS as usize;

    // The names of the members with their zero bytes; `max_entries` for each of the number's types.
    const TYPE_NAME: usize = BtfBuilder::TYPE_NAME_LEN + 1;

    const KEY_NAME: usize = BtfBuilder::KEY_NAME_LEN + 1;

    const VALUE_NAME: usize = BtfBuilder::VALUE_NAME_LEN + 1;

    const ENTRIES_NAME: usize = (BtfBuilder::MAX_ENTRIES_NAME_LEN + 1)
        / BtfBuilder::NUMBER_IDS as usize;
}

// How many bytes a map's types take, with its entry in `.maps`.
fn map_span(map: MapDecl) -> usize
    ensures value { result ≡ span_of map }
    ensures upper_bound { result ≤ 184 }
{
    let room = btf::btf_map_size(map) as usize;
    BtfSize::ATTRIBUTE * room
        + BtfSize::MAP
        + BtfSize::ENTRIES * (attr_ids(map.max_entries) as usize)
}

// How many bytes the names of a map's members take.
fn names_span(map: MapDecl) -> usize
    ensures value { result ≡ length (attr_names map.key_type map.value_type map.max_entries) }
    ensures upper_bound { result ≤ 27 }
{
    let mut span = BtfSize::TYPE_NAME;
    span += BtfSize::KEY_NAME * (attr_ids(map.key_type) as usize);
    span += BtfSize::VALUE_NAME * (attr_ids(map.value_type) as usize);
    span += BtfSize::ENTRIES_NAME * (attr_ids(map.max_entries) as usize);
    span
}

// The same for a job's maps: 92 and 27 without any map.
pub fn btf_size(text: &[u8], maps: &[NamedMap]) -> BtfSize
    requires { MapsThere text.now maps.now }
    ensures types_value { result.types ≡ length (add_types (btf_types (maps_in text.now maps.now)) start).types }
    ensures strings_value { result.strings ≡ length (add_types (btf_types (maps_in text.now maps.now)) start).strings }
    ensures strings_bound { result.types + result.strings ≤ 65535 }
{
    let mut types = BtfSize::TYPES;
    let mut strings = BtfSize::STRINGS;
    for map in maps {
        types += map_span(map.decl);
        strings += names_span(map.decl) + (named::written_size(text, map.name) + 1);
    }
    BtfSize { types, strings }
}

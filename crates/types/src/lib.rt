// The `.BTF` section of a job: the types of its maps and their strings, as `build_btf` of the original puts them. Types and strings are
// written in two passes over the maps, since a type names a string by its place alone.
#![tactic(auto)]

ghost use Rattle.std.specs.Prelude.{◌≡◌, ◌+◌, ◌*◌, ◌^◌, ◌≤◌, ◌<◌, length};
ghost use Rattle.octets.specs.Over.{over};
ghost use Rattle.btf.specs.Maps.{int_types, btf_types};
ghost use Rattle.btf.specs.Btf.{start, add_types, btf_bytes};
ghost use Rattle.btf.specs.Builder.{moved, passed, bytes_at, Within};
ghost use Rattle.object.specs.Read.{map_in, maps_in};
ghost use Rattle.object.specs.Kept.{Named};
ghost use Rattle.members.specs.Section.{one_map, map_built, types_of, maps_built, ints_built, struct_id, entries_bytes, section_bytes, header_bytes};
ghost use Rattle.named.specs.There.{MapsThere};

use ast::{MapDecl, NamedMap};
use btf::{BtfBuilder, BtfIntIds};
use elf::Section;

// All types of a map: its attributes, its struct, and the variable with its name.
fn add_map(b: BtfBuilder, out: &mut [u8], text: &[u8], map: NamedMap) -> BtfBuilder
    requires named { Named text.now map.name }
    requires within { Within (moved b (length (bytes_at b.strings (one_map b.next_type_id (map_in text.now map)))) 92 8) (length out.old) }
    ensures out_after { out.new ≡ over out.old b.at (bytes_at b.strings (one_map b.next_type_id (map_in text.now map))) }
    ensures value { result ≡ map_built b (map_in text.now map) }
{
    let done = members::add_btf_map_struct(b, out, map.decl);
    let len = named::written_size(text, map.name);
    let struct_id = done.next_type_id - 1;
    done.add_var(out, len, struct_id)
}

// The types of all maps.
fn add_maps(b: BtfBuilder, out: &mut [u8], text: &[u8], maps: &[NamedMap]) -> BtfBuilder
    requires maps_there { MapsThere text.now maps.now }
    requires within { Within (moved b (length (bytes_at b.strings (types_of b.next_type_id (maps_in text.now maps.now)))) (92 * length maps.now) (8 * length maps.now)) (length out.old) }
    ensures out_after { out.new ≡ over out.old b.at (bytes_at b.strings (types_of b.next_type_id (maps_in text.now maps.now))) }
    ensures value { result ≡ maps_built b (maps_in text.now maps.now) }
    ensures strings_bound { (result.strings ≤ b.strings + 92 * length maps.now) × (result.next_type_id ≤ b.next_type_id + 8 * length maps.now) }
{
    let mut next = b;
    for map in maps {
        next = add_map(next, out, text, *map);
    }
    next
}

// The five ints: `int`, which arrays are made of, and those of keys and values.
fn add_ints(out: &mut [u8]) -> BtfBuilder
    requires { 80 ≤ length out.old }
    ensures out_after { out.new ≡ over out.old 0 (bytes_at 1 int_types) }
    ensures value { result ≡ ints_built }
{
    let none = BtfBuilder::new();
    let int = none.add_int(
        out,
        BtfIntIds::NAME_LEN,
        BtfIntIds::BYTES_32,
        BtfBuilder::INT_SIGNED,
    );
    let u32_int = int.add_int(out, BtfIntIds::NAME_LEN, BtfIntIds::BYTES_32, 0);
    let u64_int = u32_int.add_int(out, BtfIntIds::NAME_LEN, BtfIntIds::BYTES_64, 0);
    let i32_int = u64_int.add_int(
        out,
        BtfIntIds::NAME_LEN,
        BtfIntIds::BYTES_32,
        BtfBuilder::INT_SIGNED,
    );
    i32_int.add_int(
        out,
        BtfIntIds::NAME_LEN,
        BtfIntIds::BYTES_64,
        BtfBuilder::INT_SIGNED,
    )
}

// The id of the variable of a map whose types begin at the id `next`.
fn var_id(next: u32, map: MapDecl) -> u32
    requires { next + 8 < 2 ^ 32 }
    ensures value { result ≡ struct_id next map + 1 }
    ensures upper_bound { result ≤ next + 7 }
{
    let mut id = next + BtfBuilder::NUMBER_IDS + 1;
    id += spans::attr_ids(map.key_type);
    id += spans::attr_ids(map.value_type);
    id += spans::attr_ids(map.max_entries);
    id
}

// The entries of `.maps`, one for each map.
fn add_entries(b: BtfBuilder, out: &mut [u8], maps: &[NamedMap])
    requires few { length maps.now ≤ 64 }
    requires within { Within (passed b (12 * length maps.now) 0) (length out.old) }
    ensures { out.new ≡ over out.old b.at (entries_bytes 6 0 maps.now) }
{
    let mut done = b;
    let mut next = BtfIntIds::NEXT;
    let mut offset: u32 = 0;
    for map in maps {
        let size = btf::btf_map_size(map.decl);
        let id = var_id(next, map.decl);
        done = done.add_entry(out, id, offset, size);
        next = id + 1;
        offset += size;
    }
}

// The section `.maps`: its size, and an entry for each map.
fn add_maps_section(b: BtfBuilder, out: &mut [u8], maps: &[NamedMap])
    requires few { length maps.now ≤ 64 }
    requires within { Within (moved b (12 + 12 * length maps.now) 6 1) (length out.old) }
    ensures { out.new ≡ over out.old b.at (section_bytes b.strings maps.now) }
{
    let size = spans::maps_size(maps);
    let begun = b.add_datasec(out, Section::MAPS_NAME_LEN, size as u32, maps.len() as u32);
    add_entries(begun, out, maps);
}

// All types: the ints, those of the maps, and the section `.maps`; into a part of exactly their length.
fn put_types(out: &mut [u8], text: &[u8], maps: &[NamedMap])
    requires maps_there { MapsThere text.now maps.now }
    requires out_len { length out.old ≡ length (bytes_at 1 (btf_types (maps_in text.now maps.now))) }
    ensures { out.new ≡ bytes_at 1 (btf_types (maps_in text.now maps.now)) }
{
    let ints = add_ints(out);
    let done = add_maps(ints, out, text, maps);
    add_maps_section(done, out, maps);
}

// The section's header: the types begin after it, and the strings after the types.
fn put_header(out: &mut [u8], types: usize, strings: usize)
    requires { length out.old ≡ 24 }
    ensures { out.new ≡ header_bytes types strings }
{
    let values = [
        BtfBuilder::MAGIC,
        BtfBuilder::VERSION,
        0,
        BtfBuilder::HEADER as u64,
        0,
        types as u64,
        types as u64,
        strings as u64,
    ];
    octets::put_fields(out, &[2u8, 1, 1, 4, 4, 4, 4, 4], &values);
}

// The whole section: header, types and strings, into a part of exactly its length. `types` is how many bytes the types take.
pub fn build_btf(out: &mut [u8], text: &[u8], maps: &[NamedMap], types: usize)
    requires maps_there { MapsThere text.now maps.now }
    requires types_value { types ≡ length (add_types (btf_types (maps_in text.now maps.now)) start).types }
    requires out_len { length out.old ≡ length (btf_bytes (btf_types (maps_in text.now maps.now))) }
    ensures { out.new ≡ btf_bytes (btf_types (maps_in text.now maps.now)) }
{
    let n = out.len();
    let at = BtfBuilder::HEADER + types;
    put_header(&mut out[0..BtfBuilder::HEADER], types, n - at);
    put_types(&mut out[BtfBuilder::HEADER..at], text, maps);
    strings::put_strings(&mut out[at..n], text, maps);
}

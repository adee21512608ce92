// The string table of `.BTF`: the names of the ints, then for each map those of its members and its own, and the section's name.
#![tactic(auto)]

ghost use Rattle.std.specs.Prelude.{◌≡◌, ◌+◌, ◌≤◌, ◌<◌, length};
ghost use Rattle.octets.specs.Over.{over};
ghost use Rattle.object.specs.Read.{map_in, maps_in};
ghost use Rattle.object.specs.Kept.{Named};
ghost use Rattle.named.specs.There.{MapsThere};
ghost use Rattle.members.specs.Strings.{attr_name, attr_names, map_strings, maps_strings, all_strings};

use ast::{Attr, MapDecl, NamedMap};
use btf::BtfIntIds;

// The name of an attribute's member, over what is at `at`, or nothing if it is absent; returns the place after it.
#[tactic(auto, using(octets::proofs::Going::over_nothing))]
fn put_attr_name<T: Copy>(out: &mut [u8], at: usize, attr: Attr<T>, s: &[u8]) -> usize
    requires { at + length (attr_name attr s.now) ≤ length out.old }
    ensures out_after { out.new ≡ over out.old at (attr_name attr s.now) }
    ensures value { result ≡ at + length (attr_name attr s.now) }
{
    match attr {
        Attr::Absent => at,
        Attr::Present(_) => named::put_string_at(out, at, s),
    }
}

// The names of a map's members.
fn put_attribute_names(out: &mut [u8], at: usize, map: MapDecl) -> usize
    requires { at + length (attr_names map.key_type map.value_type map.max_entries) ≤ length out.old }
    ensures out_after { out.new ≡ over out.old at (attr_names map.key_type map.value_type map.max_entries) }
    ensures value { result ≡ at + length (attr_names map.key_type map.value_type map.max_entries) }
{
    let with_type = named::put_string_at(out, at, b"type");
    let with_key = put_attr_name(out, with_type, map.key_type, b"key");
    let with_value = put_attr_name(out, with_key, map.value_type, b"value");
    put_attr_name(out, with_value, map.max_entries, b"max_entries")
}

// The strings of a map: the names of its members, and its own as it is written.
fn put_map_strings(out: &mut [u8], at: usize, text: &[u8], map: NamedMap) -> usize
    requires named { Named text.now map.name }
    requires len_in_bounds { at + length (map_strings (map_in text.now map)) ≤ length out.old }
    ensures out_after { out.new ≡ over out.old at (map_strings (map_in text.now map)) }
    ensures value { result ≡ at + length (map_strings (map_in text.now map)) }
{
    let end = put_attribute_names(out, at, map.decl);
    named::put_written(out, end, text, map.name)
}

// The strings of all maps.
fn put_maps_strings(out: &mut [u8], at: usize, text: &[u8], maps: &[NamedMap]) -> usize
    requires maps_there { MapsThere text.now maps.now }
    requires maps_in_bounds { at + length (maps_strings (maps_in text.now maps.now)) ≤ length out.old }
    ensures out_after { out.new ≡ over out.old at (maps_strings (maps_in text.now maps.now)) }
    ensures value { result ≡ at + length (maps_strings (maps_in text.now maps.now)) }
{
    let mut place = at;
    for map in maps {
        place = put_map_strings(out, place, text, *map);
    }
    place
}

// The string table, into a part of exactly its length: a zero byte, the names of the ints, the strings of the maps, and the section's name.
pub fn put_strings(out: &mut [u8], text: &[u8], maps: &[NamedMap])
    requires maps_there { MapsThere text.now maps.now }
    requires out_len { length out.old ≡ length (all_strings (maps_in text.now maps.now)) }
    ensures { out.new ≡ all_strings (maps_in text.now maps.now) }
{
    octets::copy(
        &mut out[0..BtfIntIds::STRINGS],
        b"\0int\0u32\0u64\0i32\0i64\0",
    );
    let end = put_maps_strings(out, BtfIntIds::STRINGS, text, maps);
    named::put_string_at(out, end, b".maps");
}

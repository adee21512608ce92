// The types of one map: those of its declared attributes, and the struct that names them.
#![tactic(auto)]

ghost use Rattle.std.specs.Prelude.{◌≡◌, ◌+◌, ◌^◌, ◌≤◌, ◌<◌, ℕ, List, length};
ghost use Rattle.std.proofs.Common.{lit≤};
ghost use Rattle.octets.specs.Over.{over};
ghost use Rattle.btf.specs.Builder.{moved, passed, Within};
ghost use Rattle.members.specs.Attributes.{pointer_bytes, number_bytes, attr_bytes, attr_passed, attrs_bytes, attrs_passed};
ghost use Rattle.members.specs.Members.{Ahead, value_member, members_on, attr_member, attr_membered, members_bytes, members_done, struct_bytes, struct_done, map_pieces, struct_end};

use ast::{Attr, MapDecl, Type};
use btf::{BtfBuilder, BtfIntIds};

// An attribute's value as BTF has it: a row of types, the last of which is a pointer. That is what a struct's member names.
pub trait InBtf: Copy {
    // How many types, and so ids, a value takes.
    const IDS: u32;

    ghost IDS: { ℕ };

    // The bytes of its types, the first of which has the id that is given.
    ghost bytes_from: { ℕ → Self → List ℕ };

    // The types of the value.
    fn add_types(self, b: BtfBuilder, out: &mut [u8]) -> BtfBuilder
        requires { Within (passed b (length (bytes_from b.next_type_id self)) IDS) (length out.old) }
        ensures out_after { out.new ≡ over out.old b.at (bytes_from b.next_type_id self) }
        ensures value { result ≡ passed b (length (bytes_from b.next_type_id self)) IDS };

    // One type or two, which keeps a struct's ids small.
    ghost few: { (1 ≤ IDS) × (IDS ≤ 2) };
}

// A key's or a value's type is a pointer to its int.
impl InBtf for Type {
    const IDS: u32 = 1;

    ghost IDS = { 1 };

    ghost bytes_from = { pointer_bytes };

    ghost few = { (lit≤ tt, lit≤ tt) };

    fn add_types(self, b: BtfBuilder, out: &mut [u8]) -> BtfBuilder {
        let int = match self {
            Type::U32 => BtfIntIds::U32,
            Type::U64 => BtfIntIds::U64,
            Type::I32 => BtfIntIds::I32,
            Type::I64 => BtfIntIds::I64,
        };
        b.add_ptr(out, int)
    }
}

// A number is an array of that many ints and a pointer to it.
impl InBtf for u32 {
    const IDS: u32 = BtfBuilder::NUMBER_IDS;

    ghost IDS = { 2 };

    ghost bytes_from = { number_bytes };

    ghost few = { (lit≤ tt, lit≤ tt) };

    fn add_types(self, b: BtfBuilder, out: &mut [u8]) -> BtfBuilder {
        let id = b.next_type_id;
        let next = b.add_array(out, BtfIntIds::INT, BtfIntIds::INT, self);
        next.add_ptr(out, id)
    }
}

// The types of an attribute; nothing if it is absent.
#[tactic(auto, using(octets::proofs::Going::over_nothing))]
fn add_attr<T: InBtf>(b: BtfBuilder, out: &mut [u8], attr: Attr<T>) -> BtfBuilder
    requires { Within (passed b (length (attr_bytes T.bytes_from b.next_type_id attr)) T.IDS) (length out.old) }
    ensures out_after { out.new ≡ over out.old b.at (attr_bytes T.bytes_from b.next_type_id attr) }
    ensures value { result ≡ attr_passed T.bytes_from T.IDS attr b }
{
    match attr {
        Attr::Absent => b,
        Attr::Present(x) => x.add_types(b, out),
    }
}

// The types of a map's attributes.
fn add_attributes(b: BtfBuilder, out: &mut [u8], map: MapDecl) -> BtfBuilder
    requires { Within (passed b (length (attrs_bytes b map)) 6) (length out.old) }
    ensures out_after { out.new ≡ over out.old b.at (attrs_bytes b map) }
    ensures value { result ≡ attrs_passed b map }
{
    let with_type = btf::map_type_num(map.map_type).add_types(b, out);
    let with_key = add_attr(with_type, out, map.key_type);
    let with_value = add_attr(with_key, out, map.value_type);
    add_attr(with_value, out, map.max_entries)
}

// Where a struct's next member goes: the builder, the member's position, and the id of the next attribute's first type.
#[derive(Clone, Copy)]
struct Members {
    builder: BtfBuilder,
    position: u32,
    id: u32,
}

impl Members {
    // The member of an attribute that has `ids` types, whose name has `name` bytes. It names the last of them.
    fn add_member(self, out: &mut [u8], name: usize, ids: u32) -> Self
        requires ids_bound { (1 ≤ ids) × (ids ≤ 2) }
        requires ahead { Ahead self 12 (name + 1) 1 (length out.old) }
        ensures out_after { out.new ≡ over out.old self.builder.at (value_member ids self) }
        ensures value { result ≡ members_on self (name + 1) ids }
    {
        let id = self.id + (ids - 1);
        Members {
            builder: self.builder.add_member(out, name, id, self.position),
            position: self.position + 1,
            id: self.id + ids,
        }
    }

    // The member of an attribute; nothing if it is absent.
    #[tactic(auto, using(octets::proofs::Going::over_nothing))]
    fn add_attr<T: InBtf>(self, out: &mut [u8], attr: Attr<T>, name: usize) -> Self
        requires { Ahead self (length (attr_member T.IDS attr self)) (name + 1) 1 (length out.old) }
        ensures out_after { out.new ≡ over out.old self.builder.at (attr_member T.IDS attr self) }
        ensures value { result ≡ attr_membered (name + 1) T.IDS attr self }
    {
        match attr {
            Attr::Absent => self,
            Attr::Present(_) => self.add_member(out, name, T::IDS),
        }
    }

    // The members `type`, `key`, `value` and `max_entries`, as far as they are declared.
    fn add_all(self, out: &mut [u8], map: MapDecl) -> Self
        requires { Ahead self (length (members_bytes self map)) 27 4 (length out.old) }
        ensures out_after { out.new ≡ over out.old self.builder.at (members_bytes self map) }
        ensures value { result ≡ members_done self map }
    {
        let with_type = self.add_member(out, BtfBuilder::TYPE_NAME_LEN, u32::IDS);
        let with_key = with_type.add_attr(out, map.key_type, BtfBuilder::KEY_NAME_LEN);
        let with_value = with_key.add_attr(out, map.value_type, BtfBuilder::VALUE_NAME_LEN);
        with_value.add_attr(out, map.max_entries, BtfBuilder::MAX_ENTRIES_NAME_LEN)
    }
}

// A map's struct, whose attributes' types begin at the id `first`.
fn add_map_struct(b: BtfBuilder, out: &mut [u8], map: MapDecl, first: u32) -> BtfBuilder
    requires within { Within (moved b (length (struct_bytes b first map)) 27 1) (length out.old) }
    requires first_bound { first + 8 < 2 ^ 32 }
    ensures out_after { out.new ≡ over out.old b.at (struct_bytes b first map) }
    ensures value { result ≡ struct_done b first map }
{
    let size = btf::btf_map_size(map);
    let begun = Members {
        builder: b.add_struct(out, size / BtfBuilder::ROOM),
        position: 0,
        id: first,
    };
    let done = begun.add_all(out, map);
    done.builder
}

// The types of a map's attributes, and the struct that names them.
pub fn add_btf_map_struct(b: BtfBuilder, out: &mut [u8], map: MapDecl) -> BtfBuilder
    requires { Within (moved b (length (map_pieces b map)) 27 8) (length out.old) }
    ensures out_after { out.new ≡ over out.old b.at (map_pieces b map) }
    ensures value { result ≡ struct_end b map }
{
    let first = b.next_type_id;
    let with_types = add_attributes(b, out, map);
    add_map_struct(with_types, out, map, first)
}

// What a job declares: the types of map.rs of the original. An attribute that a declaration leaves out is absent, which is not the same as
// present with 0.
#![tactic(auto)]

ghost use Rattle.std.specs.Prelude.{◌≡◌};
ghost use Rattle.octets.specs.Told.{told};
ghost use Rattle.ast.specs.Numbers.{map_type_numbered, member_type_numbered};
ghost use Rattle.ast.specs.Listed.{listed_told};

// A number that no type has.
#[derive(Clone, Copy)]
pub struct Unlisted {}

// A key's or a value's type.
#[derive(Clone, Copy)]
pub enum Type {
    U32,
    U64,
    I32,
    I64,
}

impl TryFrom<u8> for Type {
    type Error = Unlisted;

    ghost try_from_gives = { λ n r. listed_told r ≡ told 3 (member_type_numbered n) };

    fn try_from(n: u8) -> Result<Self, Unlisted> {
        match n {
            1 => Ok(Type::U32),
            2 => Ok(Type::U64),
            3 => Ok(Type::I32),
            4 => Ok(Type::I64),
            _ => Err(Unlisted {}),
        }
    }
}

#[derive(Clone, Copy)]
pub enum MapType {
    Hash,
    Array,
    ProgArray,
    LruHash,
    Ringbuf,
}

impl TryFrom<u8> for MapType {
    type Error = Unlisted;

    ghost try_from_gives = { λ n r. listed_told r ≡ told 3 (map_type_numbered n) };

    fn try_from(n: u8) -> Result<Self, Unlisted> {
        match n {
            1 => Ok(MapType::Hash),
            2 => Ok(MapType::Array),
            3 => Ok(MapType::ProgArray),
            9 => Ok(MapType::LruHash),
            27 => Ok(MapType::Ringbuf),
            _ => Err(Unlisted {}),
        }
    }
}

// An attribute that a declaration may leave out: a key's or a value's type, or a number of entries.
#[derive(Clone, Copy)]
pub enum Attr<T> {
    Absent,
    Present(T),
}

// A name: the place of its first character in the job's text, and how many bytes it has. A text has at most 65,535 characters, a name at
// most 64 bytes. Both numbers have one width, so that a table of names has no gaps and is cleared in one piece.
#[derive(Clone, Copy)]
pub struct Name {
    pub at: u16,
    pub len: u16,
}

impl Name {
    // How many bytes a name may have.
    pub const LONGEST: usize = 64;
}

// A map's declaration.
#[derive(Clone, Copy)]
pub struct MapDecl {
    pub map_type: MapType,
    pub key_type: Attr<Type>,
    pub value_type: Attr<Type>,
    pub max_entries: Attr<u32>,
}

// A map's declaration under its name.
#[derive(Clone, Copy)]
pub struct NamedMap {
    pub decl: MapDecl,
    pub name: Name,
}

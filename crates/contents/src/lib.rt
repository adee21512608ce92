// The licence, and the relocations of a program. Each writer fills the part that it is lent, from the job's text and the places that the
// tables keep.
#![tactic(auto)]

ghost use Rattle.std.specs.Prelude.{◌≡◌, true, [], ◌∷◌, ◌++◌, ◌+◌, ◌*◌, ◌≤◌, length, take, drop};
ghost use Rattle.octets.specs.Octets.{value};
ghost use Rattle.lines.specs.Hex.{is_hex};
ghost use Rattle.elf.specs.Elf.{rel_bytes};
ghost use Rattle.object.specs.Read.{bytes_at, name_in, licence_in};
ghost use Rattle.object.specs.Kept.{Named, LicenceNamed};
ghost use Rattle.contents.specs.Slots.{licence_len, slots_bytes, AllPlaced};

use ast::Name;
use elf::{Rel, Symbol};
use lines::Hex;
use object::{License, Slot};

// The licence of a job that names none, `GPL`.
#[derive(Clone, Copy)]
pub struct Gpl {}

impl Gpl {
    pub const LEN: usize = 3;
}

// How many bytes the licence has, without its zero byte.
pub fn license_len(license: License) -> usize
    ensures { result ≡ licence_len license }
{
    match license {
        License::Gpl => Gpl::LEN,
        License::Text(name) => name.len as usize,
    }
}

// A name of the text and a zero byte, into a part of exactly their length.
fn put_text(out: &mut [u8], text: &[u8], name: Name)
    requires named { Named text.now name }
    requires out_len { length out.old ≡ name.len + 1 }
    ensures { out.new ≡ name_in text.now name ++ (0 ∷ []) }
{
    let from = name.at as usize;
    let n = name.len as usize;
    let hex = Hex {
        chars: &text[from..from + 2 * n],
    };
    hex.put_unhex(&mut out[0..n]);
    octets::clear(&mut out[n..n + 1]);
}

// The licence and its zero byte, into a part of exactly their length.
pub fn put_license(out: &mut [u8], text: &[u8], license: License)
    requires licence_named { LicenceNamed text.now license }
    requires out_len { length out.old ≡ length (licence_in text.now license) + 1 }
    ensures { out.new ≡ licence_in text.now license ++ (0 ∷ []) }
{
    match license {
        License::Gpl => elf::put_string(out, b"GPL"),
        License::Text(name) => put_text(out, text, name),
    }
}

// The entry of a relocation whose offset is at `place` and whose map has the number `map`, into a part of exactly its size. The symbols of
// the maps follow the null symbol and LICENSE.
fn put_slot(out: &mut [u8], text: &[u8], place: usize, map: u8)
    requires place_in_bounds { place + 16 ≤ length text.now }
    requires text_value { is_hex (take 16 (drop place text.now)) ≡ true }
    requires out_len { length out.old ≡ 16 }
    ensures { out.new ≡ rel_bytes (value (bytes_at text.now place 8)) (2 + map) }
{
    let hex = Hex {
        chars: &text[place..place + 16],
    };
    let offset = hex.number_at(0, 8);
    elf::put_rel(out, offset, Symbol::FIRST_MAP as u32 + map as u32);
}

// A program's relocations, into a part of exactly their size. None of its slots is empty.
pub fn put_rels(out: &mut [u8], text: &[u8], slots: &[Option<Slot>])
    requires all_placed { AllPlaced text.now slots.now }
    requires out_len { length out.old ≡ 16 * length slots.now }
    ensures { out.new ≡ slots_bytes text.now slots.now }
{
    let mut at: usize = 0;
    for slot in slots {
        let entry = *slot;
        let Some(taken) = entry else {
            return;
        };
        put_slot(
            &mut out[at..at + Rel::SIZE],
            text,
            taken.place as usize,
            taken.map,
        );
        at += Rel::SIZE;
    }
}

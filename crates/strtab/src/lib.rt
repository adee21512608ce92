// `.strtab`, the names of the symbols: its size and its bytes. Beside it are the numbers of the programs' sections, which the symbols and
// the section headers need.
#![tactic(auto)]

ghost use Rattle.std.specs.Prelude.{◌≡◌, ◌+◌, ◌*◌, ◌≤◌, length};
ghost use Rattle.std.specs.List.{All};
ghost use Rattle.octets.specs.Over.{over};
ghost use Rattle.elf.specs.Row.{joined, size_of};
ghost use Rattle.ast.specs.declared.Name.{Name};
ghost use Rattle.object.specs.Read.{job_in};
ghost use Rattle.object.specs.Kept.{Named, Kept};
ghost use Rattle.strtab.specs.Rows.{behind, first_of, names_in, strtab_of};

use ast::{Name, NamedMap};
use elf::{Section, Symbol};
use object::{BpfObject, Program};

// What has a symbol, and the name of that symbol.
trait Symbolled {
    ghost symbol: { Self → Name };

    fn symbol(&self) -> Name
        ensures { result ≡ symbol self.now };
}

// A map's symbol has the map's name.
impl Symbolled for NamedMap {
    ghost symbol = { λ m. m.name };

    fn symbol(&self) -> Name {
        self.name
    }
}

// A program says its symbol's name itself.
impl Symbolled for Program {
    ghost symbol = { λ p. p.symbol };

    fn symbol(&self) -> Name {
        self.symbol
    }
}

// The written names of the symbols of `row`, each with its zero byte, from `start` on; returns the place after them.
fn put_names<T: Symbolled>(out: &mut [u8], start: usize, text: &[u8], row: &[T]) -> usize
    requires named { All (λ x. Named text.now (T.symbol x)) row.now }
    requires names_in_bounds { start + length (joined (names_in T.symbol text.now row.now)) ≤ length out.old }
    ensures out_after { out.new ≡ over out.old start (joined (names_in T.symbol text.now row.now)) }
    ensures value { result ≡ start + length (joined (names_in T.symbol text.now row.now)) }
{
    let mut at = start;
    for item in row {
        at = named::put_written(out, at, text, item.symbol());
    }
    at
}

// How many bytes the written names of the symbols of `row` take, each with its zero byte.
fn names_size<T: Symbolled>(text: &[u8], row: &[T]) -> usize
    requires named { All (λ x. Named text.now (T.symbol x)) row.now }
    requires few { length row.now ≤ 64 }
    ensures value { result ≡ size_of (names_in T.symbol text.now row.now) }
    ensures upper_bound { result ≤ 65 * length row.now }
{
    let mut n: usize = 0;
    for item in row {
        n += named::written_size(text, item.symbol()) + 1;
    }
    n
}

// How long `.strtab` is.
pub fn strtab_size(text: &[u8], object: &BpfObject) -> usize
    requires { Kept text.now object.now }
    ensures value { result ≡ length (strtab_of (job_in text.now object.now)) }
    ensures upper_bound { result ≤ 10000 }
{
    let maps_size = names_size(text, object.maps());
    let programs_size = names_size(text, object.programs());
    Symbol::NEXT_NAME_AT + maps_size + programs_size
}

// `.strtab`, into a part of exactly its length.
pub fn put_strtab(out: &mut [u8], text: &[u8], object: &BpfObject)
    requires kept { Kept text.now object.now }
    requires out_len { length out.old ≡ length (strtab_of (job_in text.now object.now)) }
    ensures { out.new ≡ strtab_of (job_in text.now object.now) }
{
    octets::clear(&mut out[0..Symbol::LICENSE_NAME_AT]);
    named::put_string_at(out, Symbol::LICENSE_NAME_AT, b"LICENSE");
    let at = put_names(out, Symbol::NEXT_NAME_AT, text, object.maps());
    put_names(out, at, text, object.programs());
}

// The section number of the first program: `.maps` and `.BTF` are before it if there are maps.
pub fn first_program(maps: usize) -> usize
    ensures value { result ≡ first_of maps }
    ensures upper_bound { result ≤ 4 }
{
    if maps == 0 {
        return Section::AFTER_LICENSE;
    }
    Section::AFTER_BTF
}

// The number of the section after a program's sections: a program with relocations has a REL section too.
pub fn section_behind(section: usize, relocs: u16) -> usize
    requires { section ≤ 1000 }
    ensures value { result ≡ behind relocs section }
    ensures upper_bound { result ≤ section + 2 }
{
    if relocs == 0 {
        return section + 1;
    }
    section + 2
}

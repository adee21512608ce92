// The lookup of a map: the last one that is declared under a raw name.
#![tactic(auto)]

ghost use Rattle.std.specs.Prelude.{◌≡◌, length};
ghost use Rattle.lines.specs.Bytes.{bytes};
ghost use Rattle.lookup.specs.Names.{Names, Finds, FoundIn};

use ast::NamedMap;
use lines::Hex;

// The last of the maps whose raw name is `name`. Equal names have equal text, since only lower-case digits pass.
pub fn find_map(text: &[u8], maps: &[NamedMap], name: Hex) -> Option<usize>
    requires { Names text.now maps.now }
    ensures finds { Finds text.now maps.now (bytes name.entry) result }
    ensures found_in { FoundIn (length maps.now) result }
{
    for i in (0..maps.len()).rev() {
        let own = maps[i].name;
        let at = own.at as usize;
        let end = at + 2 * (own.len as usize);
        if octets::same(name.chars, &text[at..end]) {
            return Some(i);
        }
    }
    None
}

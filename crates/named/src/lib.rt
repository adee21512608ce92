// Puts names, which are hexadecimal in the job's text, into lent memory: raw, or as they are written. Each function returns the place after
// the name, so that a row of names is a row of calls.
#![tactic(auto)]

ghost use Rattle.std.specs.Prelude.{◌≡◌, [], ◌∷◌, ◌++◌, ◌+◌, ◌≤◌, length};
ghost use Rattle.octets.specs.Over.{over};
ghost use Rattle.lines.specs.Bytes.{bytes};
ghost use Rattle.written.specs.Written.{written};
ghost use Rattle.object.specs.Read.{name_in};
ghost use Rattle.object.specs.Kept.{Named};

use ast::Name;
use lines::Hex;
use written::Unnamed;

// The hexadecimal of a name.
fn hex_of<'a>(text: &'a [u8], name: Name) -> Hex<'a>
    requires { Named text.now name }
    ensures { bytes result ≡ name_in text.now name }
{
    let from = name.at as usize;
    let n = name.len as usize;
    Hex {
        chars: &text[from..from + 2 * n],
    }
}

// The bytes of a name, over what is at `at`.
pub fn put_name(out: &mut [u8], at: usize, text: &[u8], name: Name) -> usize
    requires named { Named text.now name }
    requires len_in_bounds { at + name.len ≤ length out.old }
    ensures out_after { out.new ≡ over out.old at (name_in text.now name) }
    ensures value { result ≡ at + name.len }
{
    let n = name.len as usize;
    let hex = hex_of(text, name);
    hex.put_unhex(&mut out[at..at + n]);
    at + n
}

// How long the written name is, by its bytes. Only a name that is not all ASCII needs this.
fn decoded_size(text: &[u8], name: Name) -> usize
    requires { Named text.now name }
    ensures value { result ≡ length (written (name_in text.now name)) }
    ensures upper_bound { result ≤ 64 }
{
    let mut raw = [0u8; Name::LONGEST];
    let n = name.len as usize;
    put_name(&mut raw, 0, text, name);
    written::written_len(&raw[0..n])
}

// How long the written name is. A name of ASCII alone has as many characters as bytes, and its digits tell that it is ASCII.
pub fn written_size(text: &[u8], name: Name) -> usize
    requires { Named text.now name }
    ensures value { result ≡ length (written (name_in text.now name)) }
    ensures upper_bound { result ≤ 64 }
{
    let bytes = name.len as usize;
    let hex = hex_of(text, name);
    if utf8::is_ascii(hex) {
        if bytes == 0 {
            return Unnamed::LEN;
        }
        return bytes;
    }
    decoded_size(text, name)
}

// The written name with its zero byte, over what is at `at`.
pub fn put_written(out: &mut [u8], at: usize, text: &[u8], name: Name) -> usize
    requires named { Named text.now name }
    requires name_in_bounds { at + length (written (name_in text.now name)) + 1 ≤ length out.old }
    ensures out_after { out.new ≡ over out.old at (written (name_in text.now name) ++ (0 ∷ [])) }
    ensures value { result ≡ at + length (written (name_in text.now name) ++ (0 ∷ [])) }
{
    let mut bytes = [0u8; Name::LONGEST];
    let len = name.len as usize;
    put_name(&mut bytes, 0, text, name);
    let m = written::written_len(&bytes[0..len]);
    let end = at + m;
    written::sanitize_ident(&mut out[at..end], &bytes[0..len]);
    octets::clear(&mut out[end..end + 1]);
    end + 1
}

// A string of the format's own with its zero byte, over what is at `at`.
pub fn put_string_at(out: &mut [u8], at: usize, s: &[u8]) -> usize
    requires { at + length s.now + 1 ≤ length out.old }
    ensures out_after { out.new ≡ over out.old at (s.now ++ (0 ∷ [])) }
    ensures value { result ≡ at + length (s.now ++ (0 ∷ [])) }
{
    let behind = at + s.len() + 1;
    elf::put_string(&mut out[at..behind], s);
    behind
}

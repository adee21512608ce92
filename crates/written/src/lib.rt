// The names under which maps and programs are written.
#![tactic(auto)]

ghost use Rattle.std.specs.Prelude.{◌≡◌, true, ◌<◌, length};
ghost use Rattle.utf8.specs.Utf8.{is_text};
ghost use Rattle.written.specs.Written.{letter, letter_or_digit, written, written_points, unnamed};
ghost use Rattle.written.specs.Name.{char_at};

use utf8::{Next, Wait};

// An ASCII letter or `_`. The tests are joined with no branch, here and below, so that the compiler takes many at a time in `put_later`.
fn is_letter(c: u8) -> bool
    ensures { result ≡ letter c }
{
    (b'A'..=b'Z').contains(&c) | (b'a'..=b'z').contains(&c) | (c == b'_')
}

// The same, or a digit.
fn is_letter_or_digit(c: u8) -> bool
    ensures { result ≡ letter_or_digit c }
{
    is_letter(c) | (b'0'..=b'9').contains(&c)
}

// What an ASCII character is written as before all others.
fn first_char(c: u8) -> u8
    ensures { result ≡ char_at 0 c }
{
    if is_letter(c) { c } else { b'_' }
}

// What an ASCII character is written as after others.
fn later_char(c: u8) -> u8
    ensures { result ≡ char_at 1 c }
{
    if is_letter_or_digit(c) { c } else { b'_' }
}

// What a code point is written as, after `n` others.
pub fn written_char(c: u32, n: usize) -> u8
    ensures { result ≡ char_at n c }
{
    let Ok(b) = u8::try_from(c) else {
        return b'_';
    };
    if n == 0 { first_char(b) } else { later_char(b) }
}

// What an empty name is written as, `_solnix_symbol`.
#[derive(Clone, Copy)]
pub struct Unnamed {}

impl Unnamed {
    pub const LEN: usize = 14;
}

// What an empty name is written as.
fn put_unnamed(out: &mut [u8])
    requires { length out.old ≡ 14 }
    ensures { out.new ≡ unnamed }
{
    octets::copy(out, b"_solnix_symbol");
}

// How long the written name of the text `s` is, by its code points.
fn points_len(s: &[u8]) -> usize
    requires { is_text s.now ≡ true }
    ensures { result ≡ length (written s.now) }
{
    let mut w = Wait::idle();
    let mut n: usize = 0;
    for b in s {
        let stepped = utf8::step(w, *b);
        let answer = stepped.answer;
        let Some(next) = answer else {
            return n;
        };
        w = stepped.wait;
        match next {
            Next::Point(_) => n += 1,
            Next::More => {}
        }
    }
    if n == 0 {
        return Unnamed::LEN;
    }
    n
}

// How long the written name of the text `s` is. Most names are ASCII, and the written name is then as long as the name, but for the empty
// one.
pub fn written_len(s: &[u8]) -> usize
    requires { is_text s.now ≡ true }
    ensures { result ≡ length (written s.now) }
{
    if s.is_ascii() {
        if s.len() == 0 {
            return Unnamed::LEN;
        }
        return s.len();
    }
    points_len(s)
}

// The written name of ASCII characters, of which there is at least one. All are written as later ones are, so that the compiler takes many
// at a time; then the first is written again.
fn put_later(out: &mut [u8], s: &[u8])
    requires { (length out.old ≡ length s.now) × (0 < length s.now) }
    ensures { out.new ≡ written_points s.now }
{
    for (i, b) in out.iter_mut().enumerate() {
        *b = later_char(s[i]);
    }
    out[0] = first_char(s[0]);
}

// The written name of ASCII characters.
fn put_ascii(out: &mut [u8], s: &[u8])
    requires { length out.old ≡ length (written_points s.now) }
    ensures { out.new ≡ written_points s.now }
{
    if s.len() == 0 {
        put_unnamed(out);
    } else {
        put_later(out, s);
    }
}

// The written name of the text `s`, code point by code point.
fn put_points(out: &mut [u8], s: &[u8])
    requires s_value { is_text s.now ≡ true }
    requires out_len { length out.old ≡ length (written s.now) }
    ensures { out.new ≡ written s.now }
{
    let mut w = Wait::idle();
    let mut n: usize = 0;
    for b in s {
        let stepped = utf8::step(w, *b);
        let answer = stepped.answer;
        let Some(next) = answer else {
            return;
        };
        w = stepped.wait;
        match next {
            Next::Point(c) => {
                out[n] = written_char(c, n);
                n += 1;
            }
            Next::More => {}
        }
    }
    if n == 0 {
        put_unnamed(out);
    }
}

// The written name of the text `s`, into a part of exactly its length.
pub fn sanitize_ident(out: &mut [u8], s: &[u8])
    requires s_value { is_text s.now ≡ true }
    requires out_len { length out.old ≡ length (written s.now) }
    ensures { out.new ≡ written s.now }
{
    if s.is_ascii() {
        put_ascii(out, s);
    } else {
        put_points(out, s);
    }
}

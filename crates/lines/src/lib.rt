// The job's text: where its lines end, and the hexadecimal in them. A byte is two characters, so byte `i` of a line is its characters 2 i
// and 2 i + 1.
#![tactic(auto)]

ghost use Rattle.std.specs.Prelude.{◌≡◌, true, ◌*◌, ◌+◌, ◌^◌, ◌≤◌, ◌<◌, length, take, drop, get_or};
ghost use Rattle.std.proofs.Math.Option.{some};
ghost use Rattle.octets.specs.Octets.{value};
ghost use Rattle.lines.specs.Lines.{digit, unhex};
ghost use Rattle.lines.specs.Ends.{holds_end, line_end, end_told};
ghost use Rattle.lines.specs.Hex.{there, is_hex, is_frame};

// Whether `s` has an LF. All characters are looked at, with no early end, so that the compiler takes many at a time.
fn has_end(s: &[u8]) -> bool
    ensures { result ≡ holds_end s.now }
{
    let mut found = false;
    for c in s {
        found |= *c == b'\n';
    }
    found
}

// A place from which the line that starts at `at` has the same end: its LF, or a place at most 32 characters on.
fn near_end(s: &[u8], at: usize) -> usize
    ensures { line_end s.now result ≡ line_end s.now at }
{
    let stop = s.len().min(at.saturating_add(32));
    for i in at..stop {
        if s[i] == b'\n' {
            return i;
        }
    }
    stop
}

// The same, past all blocks of 64 characters that hold no LF. The place is counted beside the blocks: `take_while` and `count` were tried,
// and what the closure answers was not known to the proof.
fn skip_blocks(s: &[u8], at: usize) -> usize
    ensures { line_end s.now result ≡ line_end s.now at }
{
    if s.len() < at {
        return at;
    }
    let mut i = at;
    for block in s[at..].chunks_exact(64) {
        if has_end(block) {
            return i;
        }
        i += 64;
    }
    i
}

// The end of a line whose characters before `at` were looked at. Apart, so that `line_end`, which is inlined, stays small.
#[inline(never)]
fn far_end(s: &[u8], at: usize) -> Option<usize>
    ensures { end_told result ≡ line_end s.now at }
{
    let from = skip_blocks(s, at);
    for i in from..s.len() {
        if s[i] == b'\n' {
            return Some(i);
        }
    }
    None
}

// The end of the line that starts at `at`: the place of its LF, or none if no LF ends it. Most lines are short; the others are looked at in
// blocks.
#[inline(always)]
pub fn line_end(s: &[u8], at: usize) -> Option<usize>
    ensures { end_told result ≡ line_end s.now at }
{
    let near = near_end(s, at);
    if near < s.len() && s[near] == b'\n' {
        return Some(near);
    }
    far_end(s, near)
}

// A lower-case hexadecimal digit. The two ranges are joined with no branch, which is the faster form in `is_hex`.
fn is_digit(c: u8) -> bool
    ensures { result ≡ there (digit c) }
{
    (b'0'..=b'9').contains(&c) | (b'a'..=b'f').contains(&c)
}

// Whether `s` is hexadecimal of even length. All characters are looked at, with no early end, so that the compiler takes many at a time.
#[tactic(auto, using(crate::proofs::Walks::hex_digits))]
fn is_hex(s: &[u8]) -> bool
    ensures { result ≡ is_hex s.now }
{
    let mut all = s.len() % 2 == 0;
    for c in s {
        all &= is_digit(*c);
    }
    all
}

// Whether the text of a line that LF ends is a frame's: not empty, and hexadecimal of even length.
pub fn is_frame(s: &[u8]) -> bool
    ensures { result ≡ is_frame s.now }
{
    s.len() != 0 && is_hex(s)
}

// The number of a character that is a digit: the low four bits of `0` to `9`, and nine more than those of `a` to `f`.
fn nibble(c: u8) -> u8
    requires { there (digit c) ≡ true }
    ensures { (some result ≡ digit c) × (result ≤ 15) }
{
    (c & 15) + 9 * (c >> 6)
}

// The hexadecimal of some bytes: two lower-case digits for each.
#[derive(Clone, Copy)]
pub struct Hex<'a> {
    pub chars: &'a [u8],
    pub ghost hex: { is_hex chars.now ≡ true },
}

impl<'a> Hex<'a> {
    ghost use Rattle.lines.specs.Bytes.{bytes};

    // How many bytes there are.
    #[tactic(auto, using(crate::proofs::Bytes::chars_twice))]
    pub fn len(self) -> usize
        ensures { result ≡ length (bytes self.entry) }
    {
        self.chars.len() / 2
    }

    // Byte `i`.
    #[tactic(auto, using(crate::proofs::Bytes::chars_twice, crate::proofs::Bytes::digit_in))]
    pub fn byte_at(self, i: usize) -> u8
        requires { i < length (bytes self) }
        ensures { result ≡ get_or (bytes self.entry) i 0 }
    {
        let at = 2 * i;
        let h = nibble(self.chars[at]);
        let l = nibble(self.chars[at + 1]);
        h * 16 + l
    }

    // The number that `n` bytes give from byte `i` on, at most eight of them.
    #[tactic(auto, using(crate::proofs::Bytes::chars_twice))]
    pub fn number_at(self, i: usize, n: usize) -> u64
        requires { (n ≤ 8) × (i + n ≤ length (bytes self)) }
        ensures value { result ≡ value (take n (drop i (bytes self.entry))) }
        ensures upper_bound { result < 256 ^ n }
    {
        let mut v: u64 = 0;
        for k in (0..n).rev() {
            v = v * 256 + u64::from(self.byte_at(i + k));
        }
        v
    }

    // The bytes, into a part of exactly their number. Each byte's digits are found by its number alone, so that the compiler takes many at
    // a time.
    #[tactic(auto, using(crate::proofs::Bytes::chars_twice, crate::proofs::Bytes::digit_in))]
    pub fn put_unhex(self, out: &mut [u8])
        requires { length out.old ≡ length (bytes self) }
        ensures { out.new ≡ bytes self.entry }
    {
        for (i, b) in out.iter_mut().enumerate() {
            let h = nibble(self.chars[2 * i]);
            let l = nibble(self.chars[2 * i + 1]);
            *b = h * 16 + l;
        }
    }
}

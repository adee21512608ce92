// UTF-8 as RFC 3629 gives it, of texts in hexadecimal.
#![tactic(auto)]

ghost use Rattle.std.specs.Prelude.{◌≡◌, ◌≤◌};
ghost use Rattle.lines.specs.Bytes.{bytes};
ghost use Rattle.utf8.specs.Utf8.{allowed, leads, continues, next, is_text, all_ascii, has_zero};
ghost use Rattle.utf8.specs.Wait.{idle_wait, wait_of, Fine, step_told, next_told, wait_after, stepped_point, stepped_more, stepped_bad};

use lines::Hex;

// The state between two bytes of a text: a code point of which `left` bytes are still to come.
#[derive(Clone, Copy)]
pub struct Wait {
    pub left: u32,
    pub bits: u32,
    pub least: u32,
}

// What a byte that may come there gives: the code point that it ends, or that more bytes of one are to come. Neither case is an absence,
// since the byte is taken in both: so it is no `Option`.
#[derive(Clone, Copy)]
pub enum Next {
    Point(u32),
    More,
}

// What a byte gives there, none if it may not come there, and what is awaited after it. A byte that may not come there changes nothing.
#[derive(Clone, Copy)]
pub struct Stepped {
    pub answer: Option<Next>,
    pub wait: Wait,
}

impl Wait {
    // Nothing is awaited.
    pub fn idle() -> Self
        ensures { result ≡ idle_wait }
    {
        Wait {
            left: 0,
            bits: 0,
            least: 0,
        }
    }
}

impl Stepped {
    // The byte ends the code point `c`.
    fn point(c: u32) -> Self
        ensures { result ≡ stepped_point c }
    {
        Stepped {
            answer: Some(Next::Point(c)),
            wait: Wait::idle(),
        }
    }

    // The byte leaves a code point unfinished.
    fn more(wait: Wait) -> Self
        ensures { result ≡ stepped_more wait }
    {
        Stepped {
            answer: Some(Next::More),
            wait,
        }
    }

    // The byte may not come where `wait` is awaited.
    fn bad(wait: Wait) -> Self
        ensures { result ≡ stepped_bad wait }
    {
        Stepped { answer: None, wait }
    }
}

// A code point that is not overlong, no surrogate, and at most 10FFFF hex.
fn is_allowed(least: u32, c: u32) -> bool
    ensures { result ≡ allowed least c }
{
    least <= c && matches!(c, 0..=0xd7ff | 0xe000..=0x10ffff)
}

// A byte when no continuation is awaited.
fn lead(w: Wait, b: u8) -> Stepped
    requires { Fine w }
    ensures result_value { step_told result ≡ next_told (leads b) }
    ensures wait_value { wait_of result.wait ≡ wait_after (wait_of w) (leads b) }
    ensures fine { Fine result.wait }
{
    let v = u32::from(b);
    match v {
        0..=0x7f => Stepped::point(v),
        0xc0..=0xdf => Stepped::more(Wait {
            left: 1,
            bits: v & 0x1f,
            least: 0x80,
        }),
        0xe0..=0xef => Stepped::more(Wait {
            left: 2,
            bits: v & 0x0f,
            least: 0x800,
        }),
        0xf0..=0xf7 => Stepped::more(Wait {
            left: 3,
            bits: v & 0x07,
            least: 0x1_0000,
        }),
        _ => Stepped::bad(w),
    }
}

// A byte when a continuation is awaited.
fn proceed(w: Wait, b: u8) -> Stepped
    requires { (1 ≤ w.left) × Fine w }
    ensures result_value { step_told result ≡ next_told (continues (wait_of w) b) }
    ensures wait_value { wait_of result.wait ≡ wait_after (wait_of w) (continues (wait_of w) b) }
    ensures fine { Fine result.wait }
{
    let v = u32::from(b);
    if !(0x80..=0xbf).contains(&v) {
        return Stepped::bad(w);
    }
    let c = (w.bits << 6) | (v & 0x3f);
    if w.left == 1 {
        if is_allowed(w.least, c) {
            return Stepped::point(c);
        }
        return Stepped::bad(w);
    }
    Stepped::more(Wait {
        left: w.left - 1,
        bits: c,
        least: w.least,
    })
}

// What a byte does in any state.
pub fn step(w: Wait, b: u8) -> Stepped
    requires { Fine w }
    ensures result_value { step_told result ≡ next_told (next (wait_of w) b) }
    ensures wait_value { wait_of result.wait ≡ wait_after (wait_of w) (next (wait_of w) b) }
    ensures fine { Fine result.wait }
{
    if w.left == 0 {
        return lead(w, b);
    }
    proceed(w, b)
}

// Whether every byte of `s` is ASCII: its first digit is then `0` to `7`. All are looked at, with no early end, so that the compiler takes
// many at a time.
#[tactic(auto, using(lines::proofs::Bytes::chars_twice))]
pub fn is_ascii(s: Hex) -> bool
    ensures { result ≡ all_ascii (bytes s.entry) }
{
    let mut all = true;
    for i in 0..s.len() {
        all &= s.chars[2 * i] <= b'7';
    }
    all
}

// Whether the bytes of `s` are UTF-8, byte by byte.
fn is_utf8(s: Hex) -> bool
    ensures { result ≡ is_text (bytes s.entry) }
{
    let mut w = Wait::idle();
    for i in 0..s.len() {
        let stepped = step(w, s.byte_at(i));
        let answer = stepped.answer;
        let Some(_) = answer else {
            return false;
        };
        w = stepped.wait;
    }
    w.left == 0
}

// Whether the bytes of `s` are UTF-8. Most texts are ASCII, which is seen without a look at each byte by itself.
pub fn is_text(s: Hex) -> bool
    ensures { result ≡ is_text (bytes s.entry) }
{
    is_ascii(s) || is_utf8(s)
}

// Whether `s` has a zero byte.
pub fn has_zero(s: Hex) -> bool
    ensures { result ≡ has_zero (bytes s.entry) }
{
    for i in 0..s.len() {
        if s.byte_at(i) == 0 {
            return true;
        }
    }
    false
}

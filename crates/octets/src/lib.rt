// Numbers and bytes in lent memory, for every writer and reader. All writers but `put_at` fill the whole part that they are lent, so that a
// caller says by the part's bounds which bytes change.
#![tactic(auto)]

ghost use Rattle.std.specs.Prelude.{◌≡◌, ◌+◌, ◌^◌, ◌≤◌, ◌<◌, length, take, drop};
ghost use Rattle.octets.specs.Octets.{le, value, zeros, equal};
ghost use Rattle.octets.specs.Over.{over};
ghost use Rattle.octets.specs.Fields.{fields, total};

// All of `out` becomes `v`, the lowest byte first; what does not fit is dropped.
pub fn put_le(out: &mut [u8], v: u64)
    ensures { out.new ≡ le (length out.old) v }
{
    let mut left = v;
    for b in out.iter_mut() {
        *b = (left % 256) as u8;
        left /= 256;
    }
}

// The number that at most eight bytes give, the lowest first.
pub fn get_le(s: &[u8]) -> u64
    requires { length s.now ≤ 8 }
    ensures value { result ≡ value s.now }
    ensures upper_bound { result < 256 ^ length s.now }
{
    let mut v: u64 = 0;
    for b in s.iter().rev() {
        v = v * 256 + *b as u64;
    }
    v
}

// The number in the `n` bytes from `at` on.
pub fn get_at(s: &[u8], at: usize, n: usize) -> u64
    requires { (n ≤ 8) × (at + n ≤ length s.now) }
    ensures value { result ≡ value (take n (drop at s.now)) }
    ensures upper_bound { result < 256 ^ n }
{
    get_le(&s[at..at + n])
}

// `out` becomes `s`, of the same length. This and `same` are the library's methods, and functions of their own since `copy_single` and
// `same_single` are theorems of them.
pub fn copy(out: &mut [u8], s: &[u8])
    requires { length out.old ≡ length s.now }
    ensures { out.new ≡ s.now }
{
    out.copy_from_slice(s);
}

// All of `out` becomes zeros.
pub fn clear(out: &mut [u8])
    ensures { out.new ≡ zeros (length out.old) }
{
    // `fill` writes the last byte apart, and with it the empty job took 4 in 100 longer.
    for b in out.iter_mut() {
        *b = 0;
    }
}

// Whether two strings are the same bytes.
pub fn same(a: &[u8], b: &[u8]) -> bool
    ensures { result ≡ equal a.now b.now }
{
    a == b
}

// `n` bytes of `v`, over what is at `at`.
pub fn put_at(out: &mut [u8], at: usize, n: usize, v: u64)
    requires { at + n ≤ length out.old }
    ensures { out.new ≡ over out.old at (le n v) }
{
    put_le(&mut out[at..at + n], v);
}

// Fields one after the other, as wide as `widths` says, into a part of exactly their size. A record of fixed fields is written by one call
// of this; its promise then holds by computing.
pub fn put_fields(out: &mut [u8], widths: &[u8], values: &[u64])
    requires widths_len { length widths.now ≡ length values.now }
    requires out_len { length out.old ≡ total widths.now }
    ensures { out.new ≡ fields widths.now values.now }
{
    let mut at = 0;
    for (width, value) in widths.iter().zip(values) {
        let n = *width as usize;
        put_at(out, at, n, *value);
        at += n;
    }
}

// Bytes of lent buffers: big-endian numbers in them, copies, fills and comparisons.
#![tactic(auto)]

pub mod refusal;

ghost use Rattle.std.specs.Prelude.{◌≡◌, ◌+◌, ◌*◌, ◌%◌, ◌≤◌, ◌<◌, eqb, length, get_or, replicate};
ghost use Rattle.lent.specs.Bytes.{be_value, be_bytes, part, splice, same_bytes};
ghost use Rattle.lent.specs.inner.Words.{le_value, four, eight};

// Limits of tree files, programs and values alike: texts, the items of an array and of a table.
pub const TEXTS: usize = 64;

pub const ARRAY_ITEMS: usize = 24;

pub const TABLE_ITEMS: usize = 16;

pub fn wide(x: u8) -> u64
    ensures { (result ≡ x) × (result < 256) }
{
    x as u64
}

pub fn low(x: u64) -> u8
    ensures { result ≡ x % 256 }
{
    (x % 256) as u8
}

// The number in the bytes from at on: one, two, four, eight of them.
pub fn get_u8(s: &[u8], at: usize) -> u64
    requires { at + 1 ≤ length s.now }
    ensures { (result ≡ be_value (part s.now at 1)) × (result < 256) }
{
    wide(s[at])
}

pub fn get_u16(s: &[u8], at: usize) -> u64
    requires { at + 2 ≤ length s.now }
    ensures { (result ≡ be_value (part s.now at 2)) × (result < 65536) }
{
    get_u8(s, at) * 256 + get_u8(s, at + 1)
}

pub fn get_u32(s: &[u8], at: usize) -> u64
    requires { at + 4 ≤ length s.now }
    ensures { (result ≡ be_value (part s.now at 4)) × (result < 4294967296) }
{
    let a = get_u16(s, at) * 256 + get_u8(s, at + 2);
    a * 256 + get_u8(s, at + 3)
}

pub fn get_u64(s: &[u8], at: usize) -> u64
    requires { at + 8 ≤ length s.now }
    ensures { result ≡ be_value (part s.now at 8) }
{
    let a = get_u32(s, at) * 256 + get_u8(s, at + 4);
    let b = a * 256 + get_u8(s, at + 5);
    let c = b * 256 + get_u8(s, at + 6);
    c * 256 + get_u8(s, at + 7)
}

// Two, four, eight bytes as one number, the first the lowest: read at once.
fn low2(s: &[u8], at: usize) -> u64
    requires { at + 2 ≤ length s.now }
    ensures { (result ≡ get_or s.now at 0 + 256 * get_or s.now (at + 1) 0) × (result < 65536) }
{
    wide(s[at]) + 256 * wide(s[at + 1])
}

fn low4(s: &[u8], at: usize) -> u64
    requires { at + 4 ≤ length s.now }
    ensures { (result ≡ le_value (four s.now at)) × (result < 4294967296) }
{
    low2(s, at) + 65536 * low2(s, at + 2)
}

pub fn low8(s: &[u8], at: usize) -> u64
    requires { at + 8 ≤ length s.now }
    ensures { result ≡ le_value (eight s.now at) }
{
    low4(s, at) + 4294967296 * low4(s, at + 4)
}

// The low bytes of v, written from at on: one, two, four, eight of them.
pub fn put_u8(d: &mut [u8], at: usize, v: u64)
    requires { at + 1 ≤ length d.old }
    ensures { d.new ≡ splice d.old at (be_bytes 1 v) }
{
    d[at] = low(v);
}

pub fn put_u16(d: &mut [u8], at: usize, v: u64)
    requires { at + 2 ≤ length d.old }
    ensures { d.new ≡ splice d.old at (be_bytes 2 v) }
{
    put_u8(d, at, v / 256);
    put_u8(d, at + 1, v);
}

pub fn put_u32(d: &mut [u8], at: usize, v: u64)
    requires { at + 4 ≤ length d.old }
    ensures { d.new ≡ splice d.old at (be_bytes 4 v) }
{
    put_u16(d, at, v / 65536);
    put_u16(d, at + 2, v);
}

pub fn put_u64(d: &mut [u8], at: usize, v: u64)
    requires { at + 8 ≤ length d.old }
    ensures { d.new ≡ splice d.old at (be_bytes 8 v) }
{
    put_u32(d, at, v / 4294967296);
    put_u32(d, at + 4, v);
}

// All of s, written from at on.
pub fn copy(d: &mut [u8], at: usize, s: &[u8])
    requires { at + length s.now ≤ length d.old }
    ensures { d.new ≡ splice d.old at s.now }
{
    for i in 0..s.len() {
        d[at + i] = s[i];
    }
}

// The n bytes from at on become 0.
pub fn zero(d: &mut [u8], at: usize, n: usize)
    requires { at + n ≤ length d.old }
    ensures { d.new ≡ splice d.old at (replicate n 0) }
{
    for i in 0..n {
        d[at + i] = 0;
    }
}

// The first n bytes become 0, by steps that meet: no step is long, and they do not merge into one.
pub fn clear(d: &mut [u8], n: usize)
    requires { (136 ≤ n) × (n ≤ length d.old) }
    ensures { d.new ≡ splice d.old 0 (replicate n 0) }
{
    let last = n - 136;
    for i in (0..last).step_by(128) {
        zero(d, i, 136);
    }
    zero(d, last, 136);
}

// Whether the n bytes of a from at on are those of b from bt on. All are compared.
pub fn same(a: &[u8], at: usize, b: &[u8], bt: usize, n: usize) -> bool
    requires { (at + n ≤ length a.now) × (bt + n ≤ length b.now) }
    ensures { result ≡ same_bytes (part a.now at n) (part b.now bt n) }
{
    let mut ok = true;
    for i in 0..n {
        ok = ok & (a[at + i] == b[bt + i]);
    }
    ok
}

// The bits that any of the n times eight bytes from at on has: 0 where all of them are.
fn bits(s: &[u8], at: usize, n: usize) -> u64
    requires { at + n * 8 ≤ length s.now }
    ensures { eqb result 0 ≡ same_bytes (part s.now at (n * 8)) (replicate (n * 8) 0) }
{
    let mut seen: u64 = 0;
    for i in 0..n {
        seen = seen | low8(s, at + i * 8);
    }
    seen
}

// Whether the n bytes from at on are 0, one by one.
fn each_zero(s: &[u8], at: usize, n: usize) -> bool
    requires { at + n ≤ length s.now }
    ensures { result ≡ same_bytes (part s.now at n) (replicate n 0) }
{
    let mut ok = true;
    for i in 0..n {
        ok = ok & (s[at + i] == 0);
    }
    ok
}

// Whether the n bytes from at on are 0: eight at a time, then those that are left. All are looked at.
pub fn all_zero(s: &[u8], at: usize, n: usize) -> bool
    requires { at + n ≤ length s.now }
    ensures { result ≡ same_bytes (part s.now at n) (replicate n 0) }
{
    let words = n / 8;
    (bits(s, at, words) == 0) & each_zero(s, at + words * 8, n % 8)
}

// The eight bytes from `from` on, written from `to` on. All are read before any is written.
pub fn move_u64(d: &mut [u8], from: usize, to: usize)
    requires { (from + 8 ≤ length d.old) × (to + 8 ≤ length d.old) }
    ensures { d.new ≡ splice d.old to (part d.old from 8) }
{
    put_u64(d, to, get_u64(d, from));
}

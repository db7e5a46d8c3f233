// Numbers: an index from a number, the bit pattern of a number and back, and the remainder.
#![tactic(auto)]

ghost use Rattle.std.specs.Prelude.{◌≡◌, ◌*◌, ◌%◌, ◌^◌, ◌<◌, ◌≤◌};
ghost use Rattle.std.specs.Float.Ieee as Ieee;
ghost use Rattle.std.specs.Float.{binary64};
ghost use Rattle.std.specs.Float.Ieee.Scale as Scale;
ghost use Rattle.numeric.specs.inner.Fields.{leading, infinity, significand, exponent, units};
ghost use Rattle.numeric.specs.inner.Reciprocal.{Reciprocal};
ghost use Rattle.numeric.specs.Remainder as Rule;
ghost use Rattle.numeric.specs.Index.{index_of, index_told};
ghost use Rattle.numeric.specs.inner.OrMax.{or_max};
ghost use Rattle.numeric.specs.inner.Patterns.{bits_of};

// The weights of a pattern's leading digit and of its sign, and the pattern of an infinity.
const LEADING: u64 = 0x10_0000_0000_0000;

const SIGN: u64 = 0x8000_0000_0000_0000;

const INFINITY: u64 = 0x7ff0_0000_0000_0000;

const NAN: u64 = 0x7ff8_0000_0000_0000;

// 2^27: a factor is cut into digits below and above it.
const HALF: u64 = 134217728;

// No number has this index.
const NO_INDEX: u64 = 18446744073709551615;

// The index from a number, or `NO_INDEX`. Below 2^53 a number is whole where cutting its fraction
// changes nothing; from there on every number is. The end is found by comparing: converted back,
// 2^64 - 1 would be 2^64.
fn exact(x: f64) -> u64
    ensures { result ≡ or_max (index_of x) }
{
    if x > -1.0 {
        if x < 9007199254740992.0 {
            let whole = std::num::truncating_f64_to_u64(x);
            if whole as f64 == x {
                return whole;
            }
            return NO_INDEX;
        }
        if x < 18446744073709551616.0 {
            return std::num::truncating_f64_to_u64(x);
        }
        return NO_INDEX;
    }
    NO_INDEX
}

// The same. A whole number below 2^32 stands in the last digits of its sum with 2^52, and most
// indexes are such. The 0 is added for the compiler: x itself is then not taken apart, and is
// loaded as one.
pub fn index_or_max(x: f64) -> u64
    ensures { result ≡ or_max (index_of x) }
{
    let n = bits_of(x + 4503599627370496.0) % 4294967296;
    if n as f64 == x {
        return n;
    }
    exact(x + 0.0)
}

// The index from a number: a whole number from 0 up to below 2^64, or none.
pub fn index_of(x: f64) -> Option<u64>
    ensures { result ≡ index_told (index_of x) }
{
    let n = index_or_max(x);
    if n == NO_INDEX {
        return None;
    }
    Some(n)
}

// The bit pattern of a number, with one pattern for every NaN. That the
// pattern reads back as x follows from the first equation only for an x that fits its format: it is
// said here so that no caller has to show that.
pub fn bits_of(x: f64) -> u64
    ensures { (result ≡ bits_of x) × (Ieee.of_bits binary64 result ≡ x) }
{
    if x != x {
        return 0x7ff8_0000_0000_0000;
    }
    f64::to_bits(x)
}

// The number of a bit pattern; every NaN's pattern gives the NaN.
pub fn from_bits(n: u64) -> f64
    ensures { result ≡ Ieee.of_bits binary64 n }
{
    if n % SIGN > INFINITY {
        return 0.0 / 0.0;
    }
    f64::from_bits(n)
}

// Whether a bit pattern is a finite number's: neither a NaN's nor an infinity's.
pub fn finite(n: u64) -> bool
    ensures { result ≡ Scale.finite (Ieee.of_bits binary64 n) }
{
    n % SIGN < INFINITY
}

// The significand of a finite number's pattern without its sign.
fn significand_of(p: u64) -> u64
    ensures { result ≡ significand p }
{
    if p < LEADING {
        return p;
    }
    LEADING + p % LEADING
}

// Its exponent.
fn exponent_of(p: u64) -> u64
    ensures { result ≡ exponent p }
{
    if p < LEADING {
        return 0;
    }
    p / LEADING - 1
}

// The remainder of m * 2^s by n, 11 digits of s a turn. The loop counts down what is left, which the last shift
// needs: a `for` over s / 11 turns was tried, and each remainder takes a twentieth longer.
fn reduced(m: u64, n: u64, s: u64) -> u64
    requires { (m < 2 ^ 53) × (0 < n) × (n < 2 ^ 53) }
    ensures { result ≡ m * 2 ^ s % n }
{
    let mut r = m;
    let mut left = s;
    while left > 11 {
        r = r * 2048 % n;
        left -= 11;
    }
    (r << left) % n
}

// 2^84 / n, or a little less, from the first 32 digits of n.
fn reciprocal_of(n: u64) -> u64
    requires { (leading ≤ n) × (n < 2 ^ 53) }
    ensures { Reciprocal n result }
{
    SIGN / (n / 2097152 + 1)
}

// A number with the remainder of r * 2^27 by n: r * 2^27 less a multiple of n. The quotient is
// r / 2^26 * v / 2^31, the exact one or a little less.
fn shifted(r: u64, n: u64, v: u64) -> u64
    requires { (r < 2 ^ 58) × Reciprocal n v }
    ensures { (result % n ≡ r * 2 ^ 27 % n) × (result < 3 * 2 ^ 54) }
{
    let q = r / 67108864 * v / 2147483648;
    (r - q * (n / HALF)) * HALF - q * (n % HALF)
}

// A number with the remainder of a * b by n, below the same end as a and b: their digits above and
// below 2^27 are multiplied, and two shifts put the products to their places.
fn product(a: u64, b: u64, n: u64, v: u64) -> u64
    requires { (a < 2 ^ 56) × (b < 2 ^ 56) × Reciprocal n v }
    ensures { (result % n ≡ a * b % n) × (result < 2 ^ 56) }
{
    let high = shifted(a / HALF * (b / HALF), n, v);
    let middle = a / HALF * (b % HALF) + a % HALF * (b / HALF);
    shifted(high + middle, n, v) + a % HALF * (b % HALF)
}

// A number with the remainder of 2^(c * 2^k) by n: 2^c squared k times.
fn power(c: u64, k: u64, n: u64, v: u64) -> u64
    requires { (c < 56) × Reciprocal n v }
    ensures { (result % n ≡ 2 ^ (c * 2 ^ k) % n) × (result < 2 ^ 56) }
{
    let mut x: u64 = 1 << c;
    for _ in 0..k {
        x = product(x, x, n, v);
    }
    x
}

// The remainder of m * 2^s by n, for a large s and an n with a leading digit. s - 8 is halved k times,
// to a c below 56; `reduced` takes the 8 and the digits that the halving loses. It is called from two
// places, and so the compiler leaves it out of the common case.
fn far(m: u64, n: u64, s: u64) -> u64
    requires { (m < 2 ^ 53) × (leading ≤ n) × (n < 2 ^ 53) × (36 ≤ s) }
    ensures { result ≡ m * 2 ^ s % n }
{
    let v = reciprocal_of(n);
    let k = 61 - u64::leading_zeros((s - 8) / 7) as u64;
    let c = (s - 8) >> k;
    let x = power(c, k, n, v);
    let y = reduced(m, n, s - (c << k));
    product(x, y, n, v) % n
}

// The remainder of m * 2^s by n.
fn remainder_of(m: u64, n: u64, s: u64) -> u64
    requires { (m < 2 ^ 53) × (0 < n) × (n < 2 ^ 53) × (s ≤ 2045) }
    ensures { result ≡ m * 2 ^ s % n }
{
    if s <= 44 {
        return reduced(m, n, s);
    }
    if n >= LEADING {
        return far(m, n, s);
    }
    let z = u64::leading_zeros(n) as u64 - 11;
    far(m, n << z, s + z) >> z
}

// The pattern of q * 2^k smallest numbers. The digits of q are moved up to where a significand
// starts, as far as the exponent allows.
fn pattern_of(q: u64, k: u64) -> u64
    requires { (q < 2 ^ 53) × (k ≤ 2045) }
    ensures { (units result ≡ q * 2 ^ k) × (result < infinity) }
{
    if q == 0 {
        return 0;
    }
    let z = u64::leading_zeros(q) as u64 - 11;
    if z <= k {
        return (k - z) * LEADING + (q << z);
    }
    q << k
}

// The pattern of the remainder of two positive finite numbers' patterns.
fn rest_of(p: u64, q: u64) -> u64
    requires { (0 < q) × (q ≤ p) × (p < infinity) }
    ensures { (units result ≡ units p % units q) × (result < infinity) }
{
    let k = exponent_of(q);
    let s = exponent_of(p) - k;
    let r = remainder_of(significand_of(p), significand_of(q), s);
    pattern_of(r, k)
}

// The remainder of a division cut toward zero, exactly.
pub fn modu(a: f64, b: f64) -> f64
    ensures { (result ≡ Rule.modu a b) × Rule.Remainder a b result }
{
    let x = bits_of(a);
    let y = bits_of(b);
    let p = x % SIGN;
    let q = y % SIGN;
    // a NaN or an infinity as the dividend, a NaN or a zero as the divisor
    if p >= INFINITY {
        return 0.0 / 0.0;
    }
    if q > INFINITY {
        return 0.0 / 0.0;
    }
    if q == 0 {
        return 0.0 / 0.0;
    }
    // a smaller dividend, also by an infinity
    if p < q {
        return a;
    }
    from_bits(x - p + rest_of(p, q))
}

// The number of a stored pattern: no NaN's but the one. Both answers have the same bits.
pub fn from_stored(n: u64) -> f64
    requires { bits_of (Ieee.of_bits binary64 n) ≡ n }
    ensures { result ≡ Ieee.of_bits binary64 n }
{
    if n == 0x7ff8_0000_0000_0000 {
        return 0.0 / 0.0;
    }
    f64::from_bits(n)
}

// The stored pattern of a pattern: one for every NaN.
pub fn canonical(p: u64) -> u64
    ensures { result ≡ bits_of (Ieee.of_bits binary64 p) }
{
    if p % SIGN > INFINITY {
        return NAN;
    }
    p
}

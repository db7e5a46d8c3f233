// 3: a text with a byte outside 32 to 126, out of order, text 0 not `fortmp`, or a later text equal to it.
ghost use Rattle.std.specs.Prelude.{◌≡◌, not, ◌&&◌, ◌≤◌, length};
ghost use Rattle.lent.specs.Bytes.{same_bytes};
ghost use Rattle.ast.specs.File.{between, cut, fortmp, precedes, ascending, ordered};
ghost use Rattle.lent.specs.Lists.{sum, all};

pub fn printable(texts: &[u8]) -> bool
    ensures { result ≡ all (between 32 126) texts.now }
{
    let mut ok = true;
    for &byte in texts {
        ok = ok & crate::contents::within(32, 126, lent::wide(byte));
    }
    ok
}

pub fn is_fortmp(text: &[u8]) -> bool
    ensures { result ≡ same_bytes text.now fortmp }
{
    matches!(text, [b'f', b'o', b'r', b't', b'm', b'p'])
}

// Whether a stands before b by bytes.
pub fn precedes(a: &[u8], b: &[u8]) -> bool
    ensures { result ≡ precedes a.now b.now }
{
    for (i, &x) in a.iter().enumerate() {
        if b.len() <= i {
            return false;
        }
        let y = b[i];
        if x < y {
            return true;
        }
        if y < x {
            return false;
        }
    }
    a.len() < b.len()
}

// A later text equal to `fortmp`: none is.
pub fn none_fortmp(lengths: &[u8], texts: &[u8]) -> bool
    requires { (length lengths.now ≤ 64) × (sum lengths.now ≤ length texts.now) }
    ensures { result ≡ all (λ s. not (same_bytes s fortmp)) (cut lengths.now texts.now) }
{
    let mut ok = true;
    let mut at = 0;
    for &n in lengths {
        let end = at + n as usize;
        ok = ok & !is_fortmp(&texts[at..end]);
        at = end;
    }
    ok
}

// Each text stands before the next.
pub fn in_order(lengths: &[u8], texts: &[u8]) -> bool
    requires { (length lengths.now ≤ 64) × (sum lengths.now ≤ length texts.now) }
    ensures { result ≡ ascending (cut lengths.now texts.now) }
{
    let [first, later @ ..] = lengths else {
        return true;
    };
    let mut ok = true;
    let mut from = 0;
    let mut at = *first as usize;
    for &n in later {
        let end = at + n as usize;
        ok = ok & precedes(&texts[from..at], &texts[at..end]);
        from = at;
        at = end;
    }
    ok
}

// The texts' bytes and their order; texts starts at the bodies.
pub fn texts_ok(lengths: &[u8], total: usize, texts: &[u8]) -> bool
    requires { (1 ≤ length lengths.now) × (length lengths.now ≤ 64) × (total ≡ sum lengths.now) × (total ≤ length texts.now) }
    ensures { result ≡ (all (all (between 32 126)) (cut lengths.now texts.now) && ordered (cut lengths.now texts.now)) }
{
    let n = lengths[0] as usize;
    let first = is_fortmp(&texts[0..n]);
    let later = none_fortmp(&lengths[1..], &texts[n..]);
    let order = in_order(&lengths[1..], &texts[n..]);
    printable(&texts[0..total]) & (first & (later & order))
}

// The bodies: the sizes that the contents give them, and the nodes' text numbers, operators and numbers.
ghost use Rattle.std.specs.Prelude.{◌≡◌, map, ◌≤◌, ◌<◌, length, take};
ghost use Rattle.ast.specs.Node.{kind_of, body, body_size};
ghost use Rattle.ast.specs.File.{firsts, field_ok, body_finite, nodes_from};
ghost use Rattle.ast.specs.inner.Answer.{fault_or};
ghost use Rattle.ast.specs.inner.Room.{Room};
ghost use Rattle.lent.specs.Lists.{sum};
ghost use Rattle.lent.specs.inner.Answers.{answer_number};

use lent::refusal::Refusal;

// Bytes of a node's body, by kind.
const SIZES: [u8; 24] = [
    0, 0, 0, 1, 0, 2, 0, 0, 1, 1, 0, 1, 1, 1, 1, 1, 1, 1, 1, 8, 1, 1, 0, 0,
];

pub fn size(kind: u8) -> usize
    ensures { (result ≡ body_size (body (kind_of kind))) × (result < 9) }
{
    let k = kind as usize;
    if 24 <= k {
        return 0;
    }
    SIZES[k] as usize
}

pub fn text_bytes(lengths: &[u8]) -> usize
    requires { length lengths.now ≤ 64 }
    ensures { (result ≡ sum lengths.now) × (result ≤ 16320) }
{
    let mut total: usize = 0;
    for &n in lengths {
        total += n as usize;
    }
    total
}

pub fn node_bytes(entries: &[u8]) -> usize
    requires { length entries.now ≤ 2048 }
    ensures { (result ≡ sum (map (λ k. body_size (body (kind_of k))) (firsts entries.now))) × (result ≤ 20000) }
{
    let mut total: usize = 0;
    for i in (0..entries.len()).step_by(crate::NODE_SIZE) {
        total += size(entries[i]);
    }
    total
}

// 5: a text number not below the text count, or an unknown operator. bodies starts at the node's own.
pub fn field_ok(texts: u64, kind: u8, bodies: &[u8]) -> bool
    requires { (kind < 24) × (body_size (body (kind_of kind)) ≤ length bodies.now) }
    ensures { result ≡ field_ok texts (body (kind_of kind)) (take (body_size (body (kind_of kind))) bodies.now) }
{
    if kind == 17 {
        return crate::contents::within(1, 13, lent::wide(bodies[0]));
    }
    if kind == 18 {
        return crate::contents::within(1, 2, lent::wide(bodies[0]));
    }
    if kind == 5 {
        return (lent::wide(bodies[0]) < texts) & (lent::wide(bodies[1]) < texts);
    }
    if kind == 3 {
        return true;
    }
    let n = size(kind);
    if n == 1 {
        return lent::wide(bodies[0]) < texts;
    }
    true
}

// 39: a number that is a NaN or infinite. bodies starts at the node's own.
pub fn finite(kind: u8, bodies: &[u8]) -> bool
    requires { (kind < 24) × (body_size (body (kind_of kind)) ≤ length bodies.now) }
    ensures { result ≡ body_finite (body (kind_of kind)) (take (body_size (body (kind_of kind))) bodies.now) }
{
    if kind == 19 {
        return numeric::finite(lent::get_u64(bodies, 0));
    }
    true
}

// 5 and 39, in node order: the first fault, or none.
pub fn first_fault(texts: u64, entries: &[u8], bodies: &[u8]) -> Result<(), Refusal>
    requires { (length entries.now ≤ 2048) × Room entries.now bodies.now }
    ensures { answer_number result ≡ fault_or texts (nodes_from entries.now bodies.now) 0 }
{
    let mut at = 0;
    for i in (0..entries.len()).step_by(crate::NODE_SIZE) {
        let kind = entries[i];
        if !field_ok(texts, kind, &bodies[at..]) {
            return Err(Refusal::FileNumbers);
        }
        if !finite(kind, &bodies[at..]) {
            return Err(Refusal::NumberNotFinite);
        }
        at += size(kind);
    }
    Ok(())
}

// Demand 3's bound of a plain script, from its tree file: one pass over the entries for the longest
// array literal, one for the sum over the instructions that the nodes are lowered to.
#![tactic(auto)]

ghost use Rattle.std.specs.Prelude.{◌≡◌, cond, ◌%◌, ◌≤◌, ◌<◌, eqb, length};
ghost use Rattle.ast.specs.File.{read_tree};
ghost use Rattle.bound.specs.inner.Weights as Rule;
ghost use Rattle.bound.specs.inner.Weights.{Counts, limit};
ghost use Rattle.bound.specs.inner.BoundOf.{bound_of};

// What the instructions of subtrees come to, modulo LIMIT, and the entries behind theirs.
#[derive(Clone, Copy)]
pub struct Part<'a> {
    pub rest: &'a [u8],
    pub cost: u64,
}

// 2 to the power of 48. The bound of a script that is lowered is below it.
pub const LIMIT: u64 = 281474976710656;

// The items of an Array.
fn items(kind: u64, count: u64) -> u64
    ensures { result ≡ Rule.items_of_entry kind count }
{
    if kind == 12 {
        return count;
    }
    0
}

// The longest array literal.
fn longest(entries: &[u8]) -> u64
    requires { length entries.now ≤ 2048 }
    ensures { (result ≡ Rule.longest_entry entries.now) × (result < 256) }
{
    let mut most: u64 = 0;
    for i in 0..entries.len() / ast::NODE_SIZE {
        let kind = lent::wide(entries[2 * i]);
        let count = lent::wide(entries[2 * i + 1]);
        most = most.max(items(kind, count));
    }
    most
}

// A literal or a name: none under For and Array.
fn leaf(under: u64) -> u64
    ensures { result ≡ cond (Rule.silent under) 0 1 }
{
    if (under == 5) | (under == 12) {
        return 0;
    }
    1
}

// A Binary or Unary: VarDecl and Assign store it by one more.
fn computed(under: u64) -> u64
    ensures { result ≡ cond (Rule.stores_one under) 2 1 }
{
    if (under == 8) | (under == 16) {
        return 2;
    }
    1
}

// A Nop, or a Stc of Null, where there is no child.
fn empty(count: u64) -> u64
    ensures { result ≡ cond (eqb count 0) 1 0 }
{
    if count == 0 {
        return 1;
    }
    0
}

// The instructions of a node's own, but for a For.
fn weight(under: u64, kind: u64, count: u64) -> u64
    ensures { result ≡ Rule.weight under kind count }
{
    if 19 <= kind {
        return leaf(under);
    }
    if (kind == 17) | (kind == 18) {
        return computed(under);
    }
    if (kind == 1) | ((kind == 2) | (kind == 8)) {
        return empty(count);
    }
    // If
    if kind == 3 {
        return 3;
    }
    // Elif
    if kind == 4 {
        return 2;
    }
    // ArrayAccess: Ldav and Str
    if kind == 13 {
        return 2;
    }
    // Table, Item, Array, ArrayMut
    if (10 <= kind) & (kind <= 14) {
        return 1;
    }
    0
}

// A node with its children's sum; a For has two instructions outside the loop, seven inside.
fn whole(l: u64, under: u64, kind: u64, count: u64, sum: u64) -> u64
    requires { (l < 256) × (sum < limit) }
    ensures { result ≡ Rule.whole_weight l under kind count sum % limit }
{
    if kind == 5 {
        return (2 + l * (7 + sum)) % LIMIT;
    }
    (weight(under, kind, count) + sum) % LIMIT
}

// The subtree in front, under a kind; so many levels are left.
#[cycle(subtree)]
fn subtree<'a>(depth: u64, l: u64, under: u64, entries: &'a [u8]) -> Part<'a>
    requires { l < 256 }
    ensures { Counts (Rule.subtree depth l under entries.now) result }
{
    let none = Part {
        rest: entries,
        cost: 0,
    };
    if depth == 0 {
        return none;
    }
    let [kind, count, below @ ..] = entries else {
        return none;
    };
    let kind = lent::wide(*kind);
    let count = lent::wide(*count);
    let p = children(depth - 1, l, kind, count, below);
    Part {
        rest: p.rest,
        cost: whole(l, under, kind, count, p.cost),
    }
}

// So many subtrees, under a kind.
#[cycle(subtree)]
fn children<'a>(depth: u64, l: u64, under: u64, count: u64, entries: &'a [u8]) -> Part<'a>
    requires { l < 256 }
    ensures { Counts (Rule.forest_times (λ es. Rule.subtree depth l under es) count entries.now) result }
{
    let mut rest = entries;
    let mut cost: u64 = 0;
    for _ in 0..count {
        let p = subtree(depth, l, under, rest);
        rest = p.rest;
        cost = (cost + p.cost) % LIMIT;
    }
    Part { rest, cost }
}

// All entries: Program's depth is 1 of 32.
fn of_entries(entries: &[u8]) -> u64
    requires { length entries.now ≤ 2048 }
    ensures { result ≡ Rule.of_entries entries.now % limit }
{
    let l = longest(entries).max(1);
    subtree(ast::DEPTH, l, 0, entries).cost
}

// The bound of a plain script; 0 where the file is refused or holds none.
pub fn bound(file: &[u8]) -> u64
    ensures { result ≡ bound_of (read_tree file.now) % limit }
{
    if !ast::plain::plain(file) {
        return 0;
    }
    let first = ast::FILE_LENGTHS + file[ast::FILE_TEXT_COUNT] as usize;
    let size = first + ast::NODE_SIZE * (lent::get_u16(file, 0) as usize);
    of_entries(&file[first..size])
}

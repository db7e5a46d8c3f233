// 4: the structure. One recursive pass over a subtree checks what may stand where, the child counts,
// the depth and the loops nested, the items and keys; the remaining depth falls.
ghost use Rattle.std.specs.Prelude.{◌≡◌, false, ◌-◌, ◌^◌, ◌≤◌, ◌<◌, get_or};
ghost use Rattle.ast.specs.Node.{kind_of};
ghost use Rattle.ast.specs.File.{nodes_from};
ghost use Rattle.ast.specs.Structure.{parse};
ghost use Rattle.ast.specs.inner.Answer.{parsed};
ghost use Rattle.ast.specs.inner.Pass.{left, item_bits, times, stands, plan_of, plan_one, headed, branching, bit_in, bit_of, key_of, keyed_times, children, pass_over, Fit, Fits, nodes_of, Agrees};

// The nodes that are left: their entries and their bodies. The check of a subtree leaves those
// behind it, or answers None: refused with 4.
#[derive(Clone, Copy)]
pub struct Rest<'a> {
    pub entries: &'a [u8],
    pub bodies: &'a [u8],
}

// The children of a node: `first` ones at `place`, a Block or none, Elifs, statements.
#[derive(Clone, Copy)]
pub struct Plan {
    pub fits: bool,
    pub place: u64,
    pub first: u64,
    pub blocks: u64,
    pub elifs: u64,
    pub rest: u64,
    pub loops: u64,
    pub inside: bool,
}

const ARRAY_ITEMS: u64 = lent::ARRAY_ITEMS as u64;

const TABLE_ITEMS: u64 = lent::TABLE_ITEMS as u64;

// Places: bit k for each kind k that may stand there.
const PROGRAM: u64 = 0x2;

const BLOCK: u64 = 0x4;

const ELIF: u64 = 0x10;

const STATEMENT: u64 = 0x3ec;

const ITEM: u64 = 0x800;

const NAME: u64 = 0x200000;

const NAME_OR_CALL: u64 = 0x208000;

const LITERAL: u64 = 0xd80000;

const EXPRESSION: u64 = 0xffc000;

const RIGHT_SIDE: u64 = 0xfff400;

// "A node where it may not stand".
fn may_stand(place: u64, kind: u64) -> bool
    requires { kind < 64 }
    ensures { result ≡ stands place kind }
{
    (place >> kind) % 2 == 1
}

// Children of one kind of place alone.
fn only_first(fits: bool, place: u64, first: u64, loops: u64, inside: bool) -> Plan
    ensures { result ≡ plan_one fits place first loops inside }
{
    Plan {
        fits,
        place,
        first,
        blocks: 0,
        elifs: 0,
        rest: 0,
        loops,
        inside,
    }
}

// Children of one kind of place, then a Block.
fn then_block(fits: bool, place: u64, first: u64, loops: u64, inside: bool) -> Plan
    ensures { result ≡ headed fits place first loops inside }
{
    Plan {
        fits,
        place,
        first,
        blocks: 1,
        elifs: 0,
        rest: 0,
        loops,
        inside,
    }
}

// Condition, Block, Elifs, else statements.
fn if_plan(count: u64, elifs: u64, loops: u64, inside: bool) -> Plan
    requires { elifs < 256 }
    ensures { result ≡ branching count elifs loops inside }
{
    let least = 2 + elifs;
    let rest = count.saturating_sub(least);
    Plan {
        fits: least <= count,
        place: EXPRESSION,
        first: 1,
        blocks: 1,
        elifs,
        rest,
        loops,
        inside,
    }
}

// Document 01's column "Children", with the limits that a node tests itself. loops is how many may
// still be nested, inside whether a function is around.
fn plan_of(kind: u8, count: u64, elifs: u64, loops: u64, inside: bool) -> Plan
    requires { (1 ≤ kind) × (kind < 24) × (elifs < 256) }
    ensures { result ≡ plan_of (kind_of kind) count elifs loops inside }
{
    match kind {
        crate::KIND_PROGRAM => only_first(true, STATEMENT, count, loops, inside),
        crate::KIND_BLOCK => only_first(true, STATEMENT, count, loops, inside),
        crate::KIND_IF => if_plan(count, elifs, loops, inside),
        crate::KIND_ELIF => then_block(count == 2, EXPRESSION, 1, loops, inside),
        // at most 8 nested
        crate::KIND_FOR => then_block(
            (count == 2) & (1 <= loops),
            NAME_OR_CALL,
            1,
            loops.saturating_sub(1),
            inside,
        ),
        crate::KIND_RETURN => only_first(count <= 1, EXPRESSION, count, loops, inside),
        crate::KIND_EXPR_STMT => only_first(count == 1, EXPRESSION, 1, loops, inside),
        crate::KIND_VAR_DECL => only_first(count <= 1, RIGHT_SIDE, count, loops, inside),
        // none inside another
        crate::KIND_FN_DECL => then_block(
            (1 <= count) & !inside,
            NAME,
            count.saturating_sub(1),
            loops,
            true,
        ),
        // at most 16 Items
        crate::KIND_TABLE => only_first(count <= TABLE_ITEMS, ITEM, count, loops, inside),
        crate::KIND_ITEM => only_first(count == 1, EXPRESSION, 1, loops, inside),
        // at most 24 items
        crate::KIND_ARRAY => only_first(count <= ARRAY_ITEMS, LITERAL, count, loops, inside),
        crate::KIND_ARRAY_ACCESS => only_first(count == 1, EXPRESSION, 1, loops, inside),
        crate::KIND_ARRAY_MUT => only_first(count == 2, EXPRESSION, 2, loops, inside),
        crate::KIND_CALL => only_first(true, EXPRESSION, count, loops, inside),
        crate::KIND_ASSIGN => only_first(count == 1, RIGHT_SIDE, 1, loops, inside),
        crate::KIND_BINARY => only_first(count == 2, EXPRESSION, 2, loops, inside),
        crate::KIND_UNARY => only_first(count == 1, EXPRESSION, 1, loops, inside),
        crate::KIND_NUM => only_first(count == 0, EXPRESSION, 0, loops, inside),
        crate::KIND_TEXT => only_first(count == 0, EXPRESSION, 0, loops, inside),
        crate::KIND_NAME => only_first(count == 0, EXPRESSION, 0, loops, inside),
        crate::KIND_TRUE => only_first(count == 0, EXPRESSION, 0, loops, inside),
        // KIND_FALSE
        _ => only_first(count == 0, EXPRESSION, 0, loops, inside),
    }
}

// An If's Elif count: the first byte of its body.
fn first_byte(bodies: &[u8]) -> u64
    ensures { (result ≡ get_or bodies.now 0 0) × (result < 256) }
{
    if bodies.len() == 0 {
        return 0;
    }
    lent::wide(bodies[0])
}

// The keys of one table are a mark: bit k for each key k before.
fn has_key(keys: u64, k: u64) -> bool
    requires { k < 64 }
    ensures { result ≡ bit_in keys k }
{
    (keys >> k) % 2 == 1
}

fn bit(k: u64) -> u64
    requires { k < 64 }
    ensures { result ≡ 2 ^ k }
{
    1u64 << k
}

fn with_key(keys: u64, k: u64) -> u64
    requires { k < 64 }
    ensures { result ≡ bit_of keys k }
{
    keys | bit(k)
}

// The key of the Item in front, if one is there.
fn first_key(rest: &Rest) -> u64
    requires { Fits rest.now }
    ensures { (result < 64) × (result ≡ key_of (nodes_of rest.now)) }
{
    let Rest { entries, bodies } = *rest;
    if entries.len() == 0 {
        return 0;
    }
    let kind = entries[0];
    if kind != crate::KIND_ITEM {
        return 0;
    }
    lent::wide(bodies[0])
}

// n subtrees.
#[cycle(subtree)]
fn run(place: u64, n: u64, rest: &mut Rest, depth: u64, loops: u64, inside: bool) -> Option<()>
    requires { Fits rest.old }
    ensures { Agrees (times (λ ms. pass_over depth place loops inside ms) n (nodes_of rest.old)) rest.new result }
{
    for _ in 0..n {
        node(place, rest, depth, loops, inside)?;
    }
    Some(())
}

// n Items, no key twice.
#[cycle(subtree)]
fn items(n: u64, rest: &mut Rest, depth: u64) -> Option<()>
    requires { Fits rest.old }
    ensures { Agrees (keyed_times (λ ms. pass_over depth item_bits 0 false ms) 0 n (nodes_of rest.old)) rest.new result }
{
    let mut keys: u64 = 0;
    for _ in 0..n {
        let k = first_key(rest);
        node(ITEM, rest, depth, 0, false)?;
        if has_key(keys, k) {
            return None;
        }
        keys = with_key(keys, k);
    }
    Some(())
}

// A node's children, one part of the plan after the other.
#[cycle(subtree)]
fn kids(plan: Plan, rest: &mut Rest, depth: u64) -> Option<()>
    requires { Fits rest.old }
    ensures { Agrees (children (λ q m g ms. pass_over depth q m g ms) plan (left (nodes_of rest.old))) rest.new result }
{
    let loops = plan.loops;
    let inside = plan.inside;
    run(plan.place, plan.first, rest, depth, loops, inside)?;
    run(BLOCK, plan.blocks, rest, depth, loops, inside)?;
    run(ELIF, plan.elifs, rest, depth, loops, inside)?;
    run(STATEMENT, plan.rest, rest, depth, loops, inside)
}

// The node in front, and its subtree.
#[cycle(subtree)]
fn node(place: u64, rest: &mut Rest, depth: u64, loops: u64, inside: bool) -> Option<()>
    requires { Fits rest.old }
    ensures { Agrees (pass_over depth place loops inside (nodes_of rest.old)) rest.new result }
{
    if depth == 0 {
        return None;
    }
    let Rest { entries, bodies } = *rest;
    let [kind, count, entries @ ..] = entries else {
        return None;
    };
    let count = lent::wide(*count);
    if !may_stand(place, lent::wide(*kind)) {
        return None;
    }
    let plan = plan_of(*kind, count, first_byte(bodies), loops, inside);
    if !plan.fits {
        return None;
    }
    let bodies = &bodies[crate::bodies::size(*kind)..];
    *rest = Rest { entries, bodies };
    if *kind == crate::KIND_TABLE {
        return items(count, rest, depth - 1);
    }
    kids(plan, rest, depth - 1)
}

// All nodes: Program is node 0, its depth is 1 of 32; the child counts use up the nodes exactly.
pub fn structure_ok(entries: &[u8], bodies: &[u8]) -> bool
    requires { Fit entries.now bodies.now }
    ensures { result ≡ parsed (parse (nodes_from entries.now bodies.now)) }
{
    let mut rest = Rest { entries, bodies };
    let Some(()) = node(PROGRAM, &mut rest, crate::DEPTH, crate::LOOPS, false) else {
        return false;
    };
    rest.entries.len() == 0
}

// The lowering of statements: `block` and what it calls in compiler.rs; stmt.rs.
#![tactic(auto)]

mod fns;
mod fors;
mod jumps;
mod simple;

ghost use Rattle.std.specs.Prelude.{◌≡◌, Bool, ◌≤◌, T, length, get_or};
ghost use Rattle.ast.specs.Tree.{Stmts};
ghost use Rattle.ast.specs.Flat.{flat, entry_bytes, body_bytes};
ghost use Rattle.ast.specs.Limits.{numbers_fit};
ghost use Rattle.compiler.specs.Lower.{lower_tree};
ghost use Rattle.compiler.specs.Within.{StmtsIn};
ghost use Rattle.emit.specs.inner.Run.{Ready, Did};
ghost use Rattle.emit.specs.inner.Made.{Reads, Front, ReadsAt, Goes};
ghost use Rattle.stmt.specs.inner.Parts.{statements, lists, bodies as blockBodies, heads};

// An If's first children: its condition and its Block.
const IF_HEAD: u8 = 2;

// The body of a For: the names of its index and its item.
const FOR_NAMES: usize = 2;

// The statement at the front.
#[cycle(arm_block_block_at_blocks_body_body_at_fndecl_forstmt_ifstmt_stmts)]
fn block(
    contents: &[u8],
    bodies: &[u8],
    keep: bool,
    lbl: u64,
    low: emit::Low,
    out: &mut [u8],
) -> emit::Done
    requires { Reads (statements lbl) contents.now bodies.now low out.old }
    ensures { Front (statements lbl) contents.now bodies.now keep lbl low out.old result out.new }
{
    let kind = contents[0];
    if kind == ast::KIND_BLOCK {
        return body(contents, bodies, keep, lbl, low, out);
    }
    if kind == ast::KIND_IF {
        return ifstmt(contents, bodies, keep, lbl, low, out);
    }
    if kind == ast::KIND_FOR {
        return forstmt(contents, bodies, keep, lbl, low, out);
    }
    if kind == ast::KIND_RETURN {
        return simple::ret(contents, bodies, keep, lbl, low, out);
    }
    if kind == ast::KIND_EXPR_STMT {
        return simple::expr_stmt(contents, bodies, keep, lbl, low, out);
    }
    if kind == ast::KIND_VAR_DECL {
        return simple::vardecl(contents, bodies, keep, lbl, low, out);
    }
    fndecl(contents, bodies, lbl, low, out)
}

// The statement at the place that p has reached.
#[cycle(arm_block_block_at_blocks_body_body_at_fndecl_forstmt_ifstmt_stmts)]
fn block_at(contents: &[u8], bodies: &[u8], keep: bool, p: emit::Done, out: &mut [u8]) -> emit::Done
    requires { ReadsAt (statements p.lbl) contents.now bodies.now p out.old }
    ensures { Goes (statements p.lbl) contents.now bodies.now keep p out.old result out.new }
{
    let cont = p.cont;
    let body = p.body;
    let r = block(&contents[cont..], &bodies[body..], keep, p.lbl, p.low, out);
    emit::moved(cont, body, r)
}

// The Block at the front.
#[cycle(arm_block_block_at_blocks_body_body_at_fndecl_forstmt_ifstmt_stmts)]
fn body(
    contents: &[u8],
    bodies: &[u8],
    keep: bool,
    lbl: u64,
    low: emit::Low,
    out: &mut [u8],
) -> emit::Done
    requires reads { Reads (statements lbl) contents.now bodies.now low out.old }
    requires contents_value { get_or contents.now 0 0 ≡ 2 }
    ensures { Front (statements lbl) contents.now bodies.now keep lbl low out.old result out.new }
{
    let n = contents[1];
    let p = emit::start(ast::NODE_SIZE, 0, lbl, low);
    blocks(n, contents, bodies, keep, p, out)
}

// The Block at the place that p has reached.
#[cycle(arm_block_block_at_blocks_body_body_at_fndecl_forstmt_ifstmt_stmts)]
fn body_at(contents: &[u8], bodies: &[u8], keep: bool, p: emit::Done, out: &mut [u8]) -> emit::Done
    requires reads_at { ReadsAt (statements p.lbl) contents.now bodies.now p out.old }
    requires cont_value { get_or contents.now p.cont 0 ≡ 2 }
    ensures { Goes (statements p.lbl) contents.now bodies.now keep p out.old result out.new }
{
    let cont = p.cont;
    let place = p.body;
    let r = body(&contents[cont..], &bodies[place..], keep, p.lbl, p.low, out);
    emit::moved(cont, place, r)
}

// A Block's n statements; none give a Nop.
#[cycle(arm_block_block_at_blocks_body_body_at_fndecl_forstmt_ifstmt_stmts)]
fn blocks(
    n: u8,
    contents: &[u8],
    bodies: &[u8],
    keep: bool,
    p: emit::Done,
    out: &mut [u8],
) -> emit::Done
    requires { ReadsAt (blockBodies p.lbl n) contents.now bodies.now p out.old }
    ensures { Goes (blockBodies p.lbl n) contents.now bodies.now keep p out.old result out.new }
{
    if n == 0 {
        return jumps::nop(keep, p, out);
    }
    stmts(n, contents, bodies, keep, p, out)
}

// n statements.
#[cycle(arm_block_block_at_blocks_body_body_at_fndecl_forstmt_ifstmt_stmts)]
fn stmts(
    n: u8,
    contents: &[u8],
    bodies: &[u8],
    keep: bool,
    p: emit::Done,
    out: &mut [u8],
) -> emit::Done
    requires { ReadsAt (lists p.lbl n) contents.now bodies.now p out.old }
    ensures { Goes (lists p.lbl n) contents.now bodies.now keep p out.old result out.new }
{
    let mut q = p;
    for _ in 0..n {
        q = block_at(contents, bodies, keep, q, out);
    }
    q
}

// To the declarations, also from the code.
#[cycle(arm_block_block_at_blocks_body_body_at_fndecl_forstmt_ifstmt_stmts)]
fn fndecl(contents: &[u8], bodies: &[u8], lbl: u64, low: emit::Low, out: &mut [u8]) -> emit::Done
    requires reads { Reads (statements lbl) contents.now bodies.now low out.old }
    requires contents_value { get_or contents.now 0 0 ≡ 9 }
    ensures { (k : Bool) → Front (statements lbl) contents.now bodies.now k lbl low out.old result out.new }
{
    let keep = low.decls;
    let h = fns::fn_head(contents, bodies, lbl, low, out);
    let d = body_at(contents, bodies, keep, h, out);
    emit::newlbl(d)
}

// Its arms one after the other: a jump to the end waits till the end's label is known, and holds meanwhile which one waits before it.
#[cycle(arm_block_block_at_blocks_body_body_at_fndecl_forstmt_ifstmt_stmts)]
fn ifstmt(
    contents: &[u8],
    bodies: &[u8],
    keep: bool,
    lbl: u64,
    low: emit::Low,
    out: &mut [u8],
) -> emit::Done
    requires reads { Reads (statements lbl) contents.now bodies.now low out.old }
    requires contents_value { get_or contents.now 0 0 ≡ 3 }
    ensures { Front (statements lbl) contents.now bodies.now keep lbl low out.old result out.new }
{
    let n = bodies[0];
    let rest = contents[1] - IF_HEAD - n;
    let mut q = emit::start(ast::NODE_SIZE, 1, lbl, low);
    let mut last = 0u64;
    for more in (0..n + 1).rev() {
        let a = arm(last, contents, bodies, keep, q, out);
        last = jumps::waiting(keep, a.low, last);
        q = jumps::next_arm(more, a);
    }
    let s = stmts(rest, contents, bodies, keep, q, out);
    let e = jumps::if_end(rest, keep, s, out);
    jumps::update_ends(last, e.lbl, out);
    e
}

// A condition and its Block; `last` is the jump before that waits for the end.
#[cycle(arm_block_block_at_blocks_body_body_at_fndecl_forstmt_ifstmt_stmts)]
fn arm(
    last: u64,
    contents: &[u8],
    bodies: &[u8],
    keep: bool,
    p: emit::Done,
    out: &mut [u8],
) -> emit::Done
    requires { ReadsAt (heads p.lbl last) contents.now bodies.now p out.old }
    ensures { Goes (heads p.lbl last) contents.now bodies.now keep p out.old result out.new }
{
    let c = expr::expr_at(contents, bodies, keep, p, out);
    let j = jumps::jump_false(keep, c, out);
    let b = body_at(contents, bodies, keep, j, out);
    let e = jumps::jump_end(last, keep, b, out);
    jumps::update_op_at(c.low, j.low, e.lbl, out);
    e
}

#[cycle(arm_block_block_at_blocks_body_body_at_fndecl_forstmt_ifstmt_stmts)]
fn forstmt(
    contents: &[u8],
    bodies: &[u8],
    keep: bool,
    lbl: u64,
    low: emit::Low,
    out: &mut [u8],
) -> emit::Done
    requires reads { Reads (statements lbl) contents.now bodies.now low out.old }
    requires contents_value { get_or contents.now 0 0 ≡ 5 }
    ensures { Front (statements lbl) contents.now bodies.now keep lbl low out.old result out.new }
{
    let i = bodies[0];
    let v = bodies[1];
    let r = low.reg;
    let name = fors::source_name(contents[ast::NODE_SIZE], bodies[FOR_NAMES]);
    let p = emit::start(ast::NODE_SIZE, FOR_NAMES, lbl, emit::nextreg(low));
    let s = fors::source_at(contents, bodies, keep, p, out);
    let h = fors::for_head(i, v, name, r, keep, s, out);
    let d = body_at(contents, bodies, keep, h, out);
    fors::for_tail(i, r, s.low.reg, h.lbl, keep, d, out)
}

// The whole tree: to the declarations, or to the code.
pub fn lower_tree(entries: &[u8], bodies: &[u8], low: emit::Low, out: &mut [u8]) -> emit::Low
    requires ready { Ready low out.old }
    requires stmts_in { (t : Stmts) × StmtsIn t × (length (flat t) ≤ 1024) × (entries.now ≡ entry_bytes (flat t)) × (bodies.now ≡ body_bytes (flat t)) × T (numbers_fit t) }
    ensures { (t : Stmts) → StmtsIn t → length (flat t) ≤ 1024 → entries.now ≡ entry_bytes (flat t) → bodies.now ≡ body_bytes (flat t) → T (numbers_fit t) → low.reg ≡ 0 → Did (lower_tree t) low out.old result out.new }
{
    let keep = !low.decls;
    let p = emit::start(ast::NODE_SIZE, 0, 0, low);
    let d = blocks(entries[1], entries, bodies, keep, p, out);
    d.low
}

// The lowering of expressions and right sides: `expr`, `assign` and what they call in compiler.rs; array.rs.
#![tactic(auto)]

mod array;
mod skip;

ghost use Rattle.std.specs.Prelude.{◌≡◌, ◌≤◌, length, get_or};
ghost use Rattle.emit.specs.inner.Made.{Reads, Front, ReadsAt, Goes};
ghost use Rattle.expr.specs.inner.Parts.{exprs, args, operands, stored_parts, rights, param_parts, item_parts};

// The expression at the front. True and False give nothing.
#[cycle(arrayaccess_arraymutexpr_assign_assign_at_binarg_binarg_at_binop_expr_expr_assign_expr_at_fncallexpr_match_table_assign_params_table_items_unop_varassign)]
pub fn expr(
    contents: &[u8],
    bodies: &[u8],
    keep: bool,
    lbl: u64,
    low: emit::Low,
    out: &mut [u8],
) -> emit::Done
    requires { Reads exprs contents.now bodies.now low out.old }
    ensures { Front exprs contents.now bodies.now keep lbl low out.old result out.new }
{
    let kind = contents[0];
    if kind == ast::KIND_ARRAY_MUT {
        return arraymutexpr(contents, bodies, keep, lbl, low, out);
    }
    if kind == ast::KIND_CALL {
        return fncallexpr(contents, bodies, keep, lbl, low, out);
    }
    if kind == ast::KIND_ASSIGN {
        return varassign(contents, bodies, keep, lbl, low, out);
    }
    if kind == ast::KIND_BINARY {
        return binop(contents, bodies, keep, lbl, low, out);
    }
    if kind == ast::KIND_UNARY {
        return unop(contents, bodies, keep, lbl, low, out);
    }
    if (kind == ast::KIND_NUM) | (kind == ast::KIND_TEXT) {
        return emit::load_literal(kind, bodies, keep, lbl, low, out);
    }
    if kind == ast::KIND_NAME {
        return emit::load_name(bodies, keep, lbl, low, out);
    }
    emit::start(ast::NODE_SIZE, 0, lbl, low)
}

// The expression at the place that p has reached.
#[cycle(arrayaccess_arraymutexpr_assign_assign_at_binarg_binarg_at_binop_expr_expr_assign_expr_at_fncallexpr_match_table_assign_params_table_items_unop_varassign)]
pub fn expr_at(
    contents: &[u8],
    bodies: &[u8],
    keep: bool,
    p: emit::Done,
    out: &mut [u8],
) -> emit::Done
    requires { ReadsAt exprs contents.now bodies.now p out.old }
    ensures { Goes exprs contents.now bodies.now keep p out.old result out.new }
{
    let cont = p.cont;
    let body = p.body;
    let r = expr(&contents[cont..], &bodies[body..], keep, p.lbl, p.low, out);
    emit::moved(cont, body, r)
}

// The value first, then the index, which stands before it.
#[cycle(arrayaccess_arraymutexpr_assign_assign_at_binarg_binarg_at_binop_expr_expr_assign_expr_at_fncallexpr_match_table_assign_params_table_items_unop_varassign)]
fn arraymutexpr(
    contents: &[u8],
    bodies: &[u8],
    keep: bool,
    lbl: u64,
    low: emit::Low,
    out: &mut [u8],
) -> emit::Done
    requires reads { Reads exprs contents.now bodies.now low out.old }
    requires contents_value { get_or contents.now 0 0 ≡ 14 }
    ensures { Front exprs contents.now bodies.now keep lbl low out.old result out.new }
{
    let name = bodies[0];
    let s = skip::skip(&contents[ast::NODE_SIZE..], &bodies[1..]);
    let p = emit::start(ast::NODE_SIZE + s.entries, 1 + s.bodies, lbl, low);
    let v = expr_at(contents, bodies, keep, p, out);
    let q = emit::start(ast::NODE_SIZE, 1, lbl, emit::below(v.low));
    let i = expr_at(contents, bodies, keep, q, out);
    let f = emit::fields_of(
        lbl,
        opc::OP_UPDA,
        0,
        name,
        emit::prevreg(i.low),
        emit::prevreg(v.low),
        0,
    );
    let u = emit::push_op(keep, i.low, f, out);
    emit::with(v, u)
}

#[cycle(arrayaccess_arraymutexpr_assign_assign_at_binarg_binarg_at_binop_expr_expr_assign_expr_at_fncallexpr_match_table_assign_params_table_items_unop_varassign)]
fn binarg(
    contents: &[u8],
    bodies: &[u8],
    keep: bool,
    lbl: u64,
    low: emit::Low,
    out: &mut [u8],
) -> emit::Done
    requires { Reads exprs contents.now bodies.now low out.old }
    ensures { Front args contents.now bodies.now keep lbl low out.old result out.new }
{
    let kind = contents[0];
    if (kind == ast::KIND_TRUE) | (kind == ast::KIND_FALSE) {
        return emit::load_literal(kind, bodies, keep, lbl, low, out);
    }
    expr(contents, bodies, keep, lbl, low, out)
}

// With the test of the register before.
#[cycle(arrayaccess_arraymutexpr_assign_assign_at_binarg_binarg_at_binop_expr_expr_assign_expr_at_fncallexpr_match_table_assign_params_table_items_unop_varassign)]
fn binarg_at(
    contents: &[u8],
    bodies: &[u8],
    keep: bool,
    p: emit::Done,
    out: &mut [u8],
) -> emit::Done
    requires { ReadsAt operands contents.now bodies.now p out.old }
    ensures { Goes operands contents.now bodies.now keep p out.old result out.new }
{
    let cont = p.cont;
    let body = p.body;
    let r = binarg(&contents[cont..], &bodies[body..], keep, p.lbl, p.low, out);
    emit::shift(cont, body, r)
}

#[cycle(arrayaccess_arraymutexpr_assign_assign_at_binarg_binarg_at_binop_expr_expr_assign_expr_at_fncallexpr_match_table_assign_params_table_items_unop_varassign)]
fn binop(
    contents: &[u8],
    bodies: &[u8],
    keep: bool,
    lbl: u64,
    low: emit::Low,
    out: &mut [u8],
) -> emit::Done
    requires reads { Reads exprs contents.now bodies.now low out.old }
    requires contents_value { get_or contents.now 0 0 ≡ 17 }
    ensures { Front exprs contents.now bodies.now keep lbl low out.old result out.new }
{
    let kind = emit::bin_code(bodies[0]);
    let p = emit::start(ast::NODE_SIZE, 1, lbl, low);
    let a = binarg_at(contents, bodies, keep, p, out);
    let b = binarg_at(contents, bodies, keep, a, out);
    let f = emit::fields_of(
        lbl,
        opc::OP_BINARY,
        kind,
        emit::prevreg(a.low),
        emit::prevreg(b.low),
        b.low.reg,
        0,
    );
    emit::load_at(keep, b, f, out)
}

#[cycle(arrayaccess_arraymutexpr_assign_assign_at_binarg_binarg_at_binop_expr_expr_assign_expr_at_fncallexpr_match_table_assign_params_table_items_unop_varassign)]
fn unop(
    contents: &[u8],
    bodies: &[u8],
    keep: bool,
    lbl: u64,
    low: emit::Low,
    out: &mut [u8],
) -> emit::Done
    requires reads { Reads exprs contents.now bodies.now low out.old }
    requires contents_value { get_or contents.now 0 0 ≡ 18 }
    ensures { Front exprs contents.now bodies.now keep lbl low out.old result out.new }
{
    let kind = bodies[0];
    let p = emit::start(ast::NODE_SIZE, 1, lbl, low);
    let a = binarg_at(contents, bodies, keep, p, out);
    let f = emit::fields_of(
        lbl,
        opc::OP_UNARY,
        kind,
        emit::prevreg(a.low),
        a.low.reg,
        0,
        0,
    );
    emit::load_at(keep, a, f, out)
}

// n parameters.
#[cycle(arrayaccess_arraymutexpr_assign_assign_at_binarg_binarg_at_binop_expr_expr_assign_expr_at_fncallexpr_match_table_assign_params_table_items_unop_varassign)]
fn params(
    n: u8,
    contents: &[u8],
    bodies: &[u8],
    keep: bool,
    p: emit::Done,
    out: &mut [u8],
) -> emit::Done
    requires { ReadsAt (param_parts n) contents.now bodies.now p out.old }
    ensures { Goes (param_parts n) contents.now bodies.now keep p out.old result out.new }
{
    let mut q = p;
    for _ in 0..n {
        let a = expr_at(contents, bodies, keep, q, out);
        let f = emit::fields_of(
            q.lbl,
            opc::OP_FN_STACK_PUSH,
            0,
            emit::prevreg(a.low),
            0,
            0,
            0,
        );
        q = emit::push_at(keep, a, f, out);
    }
    q
}

#[cycle(arrayaccess_arraymutexpr_assign_assign_at_binarg_binarg_at_binop_expr_expr_assign_expr_at_fncallexpr_match_table_assign_params_table_items_unop_varassign)]
pub fn fncallexpr(
    contents: &[u8],
    bodies: &[u8],
    keep: bool,
    lbl: u64,
    low: emit::Low,
    out: &mut [u8],
) -> emit::Done
    requires reads { Reads exprs contents.now bodies.now low out.old }
    requires contents_value { get_or contents.now 0 0 ≡ 15 }
    ensures { Front exprs contents.now bodies.now keep lbl low out.old result out.new }
{
    let name = bodies[0];
    let n = contents[1];
    let p = emit::start(ast::NODE_SIZE, 1, lbl, low);
    let a = params(n, contents, bodies, keep, p, out);
    let f = emit::fields_of(lbl, opc::OP_CALL, 0, name, 0, 0, lent::wide(n));
    let b = emit::push_at(keep, a, f, out);
    let g = emit::fields_of(lbl, opc::OP_FN_STACK_POP, 0, b.low.reg, 0, 0, 0);
    emit::load_at(keep, b, g, out)
}

#[cycle(arrayaccess_arraymutexpr_assign_assign_at_binarg_binarg_at_binop_expr_expr_assign_expr_at_fncallexpr_match_table_assign_params_table_items_unop_varassign)]
fn varassign(
    contents: &[u8],
    bodies: &[u8],
    keep: bool,
    lbl: u64,
    low: emit::Low,
    out: &mut [u8],
) -> emit::Done
    requires reads { Reads exprs contents.now bodies.now low out.old }
    requires contents_value { get_or contents.now 0 0 ≡ 16 }
    ensures { Front exprs contents.now bodies.now keep lbl low out.old result out.new }
{
    let x = bodies[0];
    let p = emit::start(ast::NODE_SIZE, 1, lbl, low);
    assign_at(x, contents, bodies, keep, p, out)
}

// A right side, assigned to x.
#[cycle(arrayaccess_arraymutexpr_assign_assign_at_binarg_binarg_at_binop_expr_expr_assign_expr_at_fncallexpr_match_table_assign_params_table_items_unop_varassign)]
fn assign(
    x: u8,
    contents: &[u8],
    bodies: &[u8],
    keep: bool,
    lbl: u64,
    low: emit::Low,
    out: &mut [u8],
) -> emit::Done
    requires { Reads (rights x) contents.now bodies.now low out.old }
    ensures { Front (rights x) contents.now bodies.now keep lbl low out.old result out.new }
{
    let kind = contents[0];
    if kind == ast::KIND_TABLE {
        return match_table_assign(x, contents, bodies, keep, lbl, low, out);
    }
    if kind == ast::KIND_ARRAY {
        return array::arraydecl(x, contents, bodies, keep, lbl, low, out);
    }
    if kind == ast::KIND_ARRAY_ACCESS {
        return arrayaccess(x, contents, bodies, keep, lbl, low, out);
    }
    if kind == ast::KIND_NAME {
        return emit::put_name(x, bodies, keep, lbl, low, out);
    }
    if ast::KIND_NUM <= kind {
        return emit::put_literal(x, kind, bodies, keep, lbl, low, out);
    }
    expr_assign(x, contents, bodies, keep, lbl, low, out)
}

// An expression whose register is stored.
#[cycle(arrayaccess_arraymutexpr_assign_assign_at_binarg_binarg_at_binop_expr_expr_assign_expr_at_fncallexpr_match_table_assign_params_table_items_unop_varassign)]
fn expr_assign(
    x: u8,
    contents: &[u8],
    bodies: &[u8],
    keep: bool,
    lbl: u64,
    low: emit::Low,
    out: &mut [u8],
) -> emit::Done
    requires { Reads exprs contents.now bodies.now low out.old }
    ensures { Front (stored_parts x) contents.now bodies.now keep lbl low out.old result out.new }
{
    let a = expr(contents, bodies, keep, lbl, low, out);
    let f = emit::fields_of(lbl, opc::OP_STR, 0, emit::prevreg(a.low), x, 0, 0);
    emit::push_at(keep, a, f, out)
}

#[cycle(arrayaccess_arraymutexpr_assign_assign_at_binarg_binarg_at_binop_expr_expr_assign_expr_at_fncallexpr_match_table_assign_params_table_items_unop_varassign)]
pub fn assign_at(
    x: u8,
    contents: &[u8],
    bodies: &[u8],
    keep: bool,
    p: emit::Done,
    out: &mut [u8],
) -> emit::Done
    requires { ReadsAt (rights x) contents.now bodies.now p out.old }
    ensures { Goes (rights x) contents.now bodies.now keep p out.old result out.new }
{
    let cont = p.cont;
    let body = p.body;
    let r = assign(
        x,
        &contents[cont..],
        &bodies[body..],
        keep,
        p.lbl,
        p.low,
        out,
    );
    emit::moved(cont, body, r)
}

// n Items of the table x.
#[cycle(arrayaccess_arraymutexpr_assign_assign_at_binarg_binarg_at_binop_expr_expr_assign_expr_at_fncallexpr_match_table_assign_params_table_items_unop_varassign)]
fn table_items(
    n: u8,
    x: u8,
    contents: &[u8],
    bodies: &[u8],
    keep: bool,
    p: emit::Done,
    out: &mut [u8],
) -> emit::Done
    requires { ReadsAt (item_parts n x) contents.now bodies.now p out.old }
    ensures { Goes (item_parts n x) contents.now bodies.now keep p out.old result out.new }
{
    let mut q = p;
    for _ in 0..n {
        let at = q.body;
        let key = bodies[at];
        let i = emit::pass(q, ast::NODE_SIZE, 1);
        let a = expr_at(contents, bodies, keep, i, out);
        let f = emit::fields_of(q.lbl, opc::OP_TBLI, 0, x, key, emit::prevreg(a.low), 0);
        q = emit::push_at(keep, a, f, out);
    }
    q
}

#[cycle(arrayaccess_arraymutexpr_assign_assign_at_binarg_binarg_at_binop_expr_expr_assign_expr_at_fncallexpr_match_table_assign_params_table_items_unop_varassign)]
fn match_table_assign(
    x: u8,
    contents: &[u8],
    bodies: &[u8],
    keep: bool,
    lbl: u64,
    low: emit::Low,
    out: &mut [u8],
) -> emit::Done
    requires reads { Reads (rights x) contents.now bodies.now low out.old }
    requires contents_value { get_or contents.now 0 0 ≡ 10 }
    ensures { Front (rights x) contents.now bodies.now keep lbl low out.old result out.new }
{
    let n = contents[1];
    let p = emit::start(ast::NODE_SIZE, 0, lbl, low);
    let f = emit::fields_of(lbl, opc::OP_STC, opc::TAB, x, 0, 0, 0);
    let a = emit::push_at(keep, p, f, out);
    table_items(n, x, contents, bodies, keep, a, out)
}

// Ldav, and its register stored in x.
#[cycle(arrayaccess_arraymutexpr_assign_assign_at_binarg_binarg_at_binop_expr_expr_assign_expr_at_fncallexpr_match_table_assign_params_table_items_unop_varassign)]
fn arrayaccess(
    x: u8,
    contents: &[u8],
    bodies: &[u8],
    keep: bool,
    lbl: u64,
    low: emit::Low,
    out: &mut [u8],
) -> emit::Done
    requires reads { Reads (rights x) contents.now bodies.now low out.old }
    requires contents_value { get_or contents.now 0 0 ≡ 13 }
    ensures { Front (rights x) contents.now bodies.now keep lbl low out.old result out.new }
{
    let name = bodies[0];
    let p = emit::start(ast::NODE_SIZE, 1, lbl, low);
    let a = expr_at(contents, bodies, keep, p, out);
    let f = emit::fields_of(
        lbl,
        opc::OP_LDAV,
        0,
        name,
        emit::prevreg(a.low),
        a.low.reg,
        0,
    );
    let d = emit::load_at(keep, a, f, out);
    let g = emit::fields_of(lbl, opc::OP_STR, 0, emit::prevreg(d.low), x, 0, 0);
    emit::push_at(keep, d, g, out)
}

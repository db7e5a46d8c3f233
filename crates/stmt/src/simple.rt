// Statements with no statement inside: `ret` and `vardecl` of compiler.rs, and ExprStmt.
ghost use Rattle.std.specs.Prelude.{◌≡◌, [], ◌∷◌, get_or};
ghost use Rattle.opc.specs.Op.{FnRet};
ghost use Rattle.compiler.specs.Lower.{push};
ghost use Rattle.emit.specs.inner.Run.{Ready};
ghost use Rattle.emit.specs.inner.Made.{Reads, Front};
ghost use Rattle.stmt.specs.inner.Parts.{Emitted, statements};

fn fn_ret(keep: bool, p: emit::Done, out: &mut [u8]) -> emit::Done
    requires { Ready p.low out.old }
    ensures { Emitted (λ w. push w p.lbl FnRet ∷ []) p.lbl keep p out.old result out.new }
{
    let f = emit::fields_of(p.lbl, opc::OP_FN_RET, 0, 0, 0, 0, 0);
    emit::push_at(keep, p, f, out)
}

pub fn ret(
    contents: &[u8],
    bodies: &[u8],
    keep: bool,
    lbl: u64,
    low: emit::Low,
    out: &mut [u8],
) -> emit::Done
    requires reads { Reads (statements lbl) contents.now bodies.now low out.old }
    requires contents_value { get_or contents.now 0 0 ≡ 6 }
    ensures { Front (statements lbl) contents.now bodies.now keep lbl low out.old result out.new }
{
    let p = emit::start(ast::NODE_SIZE, 0, lbl, low);
    if contents[1] == 0 {
        return fn_ret(keep, p, out);
    }
    let e = expr::expr_at(contents, bodies, keep, p, out);
    let reg = emit::prevreg(e.low);
    let f = emit::fields_of(lbl, opc::OP_FN_STACK_PUSH, 0, reg, 0, 0, 0);
    let q = emit::push_at(keep, e, f, out);
    fn_ret(keep, q, out)
}

pub fn expr_stmt(
    contents: &[u8],
    bodies: &[u8],
    keep: bool,
    lbl: u64,
    low: emit::Low,
    out: &mut [u8],
) -> emit::Done
    requires reads { Reads (statements lbl) contents.now bodies.now low out.old }
    requires contents_value { get_or contents.now 0 0 ≡ 7 }
    ensures { Front (statements lbl) contents.now bodies.now keep lbl low out.old result out.new }
{
    let p = emit::start(ast::NODE_SIZE, 0, lbl, low);
    expr::expr_at(contents, bodies, keep, p, out)
}

pub fn vardecl(
    contents: &[u8],
    bodies: &[u8],
    keep: bool,
    lbl: u64,
    low: emit::Low,
    out: &mut [u8],
) -> emit::Done
    requires reads { Reads (statements lbl) contents.now bodies.now low out.old }
    requires contents_value { get_or contents.now 0 0 ≡ 8 }
    ensures { Front (statements lbl) contents.now bodies.now keep lbl low out.old result out.new }
{
    let name = bodies[0];
    let p = emit::start(ast::NODE_SIZE, 1, lbl, low);
    if contents[1] == 0 {
        let f = emit::fields_of(lbl, opc::OP_STC, opc::NULL, name, 0, 0, 0);
        return emit::push_at(keep, p, f, out);
    }
    expr::assign_at(name, contents, bodies, keep, p, out)
}

// What a For goes over, and what stands before and behind its Block (`forstmt` of stmt.rs).
ghost use Rattle.std.specs.Prelude.{◌≡◌, ◌+◌, ◌<◌, ◌^◌};
ghost use Rattle.emit.specs.inner.Run.{Ready};
ghost use Rattle.emit.specs.inner.Made.{Reads, Front, ReadsAt, Goes};
ghost use Rattle.stmt.specs.inner.Parts.{Emitted, for_head, for_tail, source_text, sources};

// The name, which for a call is text 0, `fortmp`.
pub fn source_name(kind: u8, x: u8) -> u8
    ensures { result ≡ source_text kind x }
{
    if kind == ast::KIND_NAME { x } else { 0 }
}

// What stands at the front: a Name gives nothing; a call is stored in `fortmp`.
fn source(
    contents: &[u8],
    bodies: &[u8],
    keep: bool,
    lbl: u64,
    low: emit::Low,
    out: &mut [u8],
) -> emit::Done
    requires { Reads sources contents.now bodies.now low out.old }
    ensures { Front sources contents.now bodies.now keep lbl low out.old result out.new }
{
    if contents[0] == ast::KIND_NAME {
        return emit::start(ast::NODE_SIZE, 1, lbl, low);
    }
    let a = expr::expr(contents, bodies, keep, lbl, low, out);
    let reg = emit::prevreg(a.low);
    let f = emit::fields_of(lbl, opc::OP_STR, 0, reg, 0, 0, 0);
    emit::push_at(keep, a, f, out)
}

// What stands at the place that p has reached.
pub fn source_at(
    contents: &[u8],
    bodies: &[u8],
    keep: bool,
    p: emit::Done,
    out: &mut [u8],
) -> emit::Done
    requires { ReadsAt sources contents.now bodies.now p out.old }
    ensures { Goes sources contents.now bodies.now keep p out.old result out.new }
{
    let cont = p.cont;
    let body = p.body;
    let r = source(&contents[cont..], &bodies[body..], keep, p.lbl, p.low, out);
    emit::moved(cont, body, r)
}

// Before the Block, the index in register r.
pub fn for_head(
    i: u8,
    v: u8,
    name: u8,
    r: u8,
    keep: bool,
    p: emit::Done,
    out: &mut [u8],
) -> emit::Done
    requires { Ready p.low out.old × (p.lbl + 1 < 2 ^ 64) }
    ensures { Emitted (for_head i v name r p.lbl p.low.reg) (p.lbl + 1) keep p out.old result out.new }
{
    let l = p.lbl;
    let a = emit::push_at(
        keep,
        p,
        emit::fields_of(l, opc::OP_STC, opc::NUM, i, 0, 0, 0),
        out,
    );
    let b = emit::load_at(
        keep,
        a,
        emit::fields_of(l, opc::OP_LDAS, 0, name, a.low.reg, 0, 0),
        out,
    );
    let c = emit::push_at(
        keep,
        b,
        emit::fields_of(l + 1, opc::OP_LDN, 0, r, i, 0, 0),
        out,
    );
    let d = emit::load_at(
        keep,
        c,
        emit::fields_of(l + 1, opc::OP_LDAV, 0, name, r, c.low.reg, 0),
        out,
    );
    let e = emit::push_at(
        keep,
        d,
        emit::fields_of(l + 1, opc::OP_STR, 0, c.low.reg, v, 0, 0),
        out,
    );
    emit::newlbl(e)
}

// Behind the Block: the next index, and back to label lbl while it is below the size.
pub fn for_tail(
    i: u8,
    r: u8,
    size: u8,
    lbl: u64,
    keep: bool,
    p: emit::Done,
    out: &mut [u8],
) -> emit::Done
    requires { Ready p.low out.old }
    ensures { Emitted (for_tail i r size lbl p.lbl p.low.reg) p.lbl keep p out.old result out.new }
{
    let m = p.lbl;
    let a = emit::push_at(
        keep,
        p,
        emit::fields_of(m, opc::OP_INCRR, 0, r, 0, 0, 0),
        out,
    );
    let b = emit::push_at(keep, a, emit::fields_of(m, opc::OP_STR, 0, r, i, 0, 0), out);
    let c = emit::load_at(
        keep,
        b,
        emit::fields_of(m, opc::OP_BINARY, opc::BIN_LT, r, size, b.low.reg, 0),
        out,
    );
    emit::push_at(
        keep,
        c,
        emit::fields_of(m, opc::OP_JMP_CND, opc::JMPT, b.low.reg, 0, 0, lbl),
        out,
    )
}

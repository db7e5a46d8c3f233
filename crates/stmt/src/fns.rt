// A function's instruction with its parameters, their registers and their pops (`fndecl` of compiler.rs).
ghost use Rattle.std.specs.Prelude.{◌≡◌, true, cond, ◌++◌, ◌∷◌, [], ◌+◌, ◌*◌, ◌≤◌, length, get_or, replicate};
ghost use Rattle.lent.specs.Bytes.{splice};
ghost use Rattle.opc.specs.Op.{Str, FnStackPop};
ghost use Rattle.compiler.specs.Lower.{Place, Reg, push, lower_pops};
ghost use Rattle.emit.specs.inner.Run.{after_events, kept, Ready, Did};
ghost use Rattle.emit.specs.inner.Made.{Reads};
ghost use Rattle.stmt.specs.inner.Parts.{PushesFn, Pops, FnHead, statements, param_items};

// The parameters as items of the pool, from entry k on.
fn param_items(names: &[u8], k: usize, out: &mut [u8])
    requires { (k + length names.now ≤ 1024) × (40960 ≤ length out.old) }
    ensures { out.new ≡ splice out.old (16384 + 16 * k) (param_items names.now) }
{
    for (i, name) in names.iter().enumerate() {
        opc::put_item(out, k + i, sifv::SifVal::Str(lent::wide(*name)));
    }
}

// The same, where `keep`.
fn keep_params(keep: bool, names: &[u8], k: usize, out: &mut [u8])
    requires { keep ≡ true → (k + length names.now ≤ 1024) × (40960 ≤ length out.old) }
    ensures { out.new ≡ cond keep (splice out.old (16384 + 16 * k) (param_items names.now)) out.old }
{
    if keep {
        param_items(names, k, out);
        return;
    }
}

fn push_fn(
    keep: bool,
    lbl: u64,
    low: emit::Low,
    name: u8,
    names: &[u8],
    out: &mut [u8],
) -> emit::Low
    requires { Ready low out.old × (length names.now ≤ 255) }
    ensures { PushesFn keep low lbl name names.now out.old result out.new }
{
    let f = opc::Fields {
        code: opc::OP_FN,
        kind: 0,
        lbl,
        a: name,
        b: 0,
        c: 0,
        len: names.len() as u8,
        word: low.items as u64,
    };
    let q = emit::push_items(keep, low, f, names.len(), out);
    keep_params(low.recs < q.recs, names, low.items as usize, out);
    q
}

// n registers.
fn nextregs(n: usize, low: emit::Low) -> emit::Low
    requires { low.reg ≤ 96 }
    ensures { result ≡ after_events (replicate n Reg) low }
{
    let mut q = low;
    for _ in 0..n {
        q = emit::nextreg(q);
    }
    q
}

// The parameter x, popped to register r.
fn pop(r: u8, x: u8, keep: bool, lbl: u64, low: emit::Low, out: &mut [u8]) -> emit::Low
    requires { Ready low out.old }
    ensures { (w : Place) → keep ≡ kept low.decls w.section → Did (push w lbl (FnStackPop r) ∷ (push w lbl (Str r x) ∷ [])) low out.old result out.new }
{
    let a = emit::push_op(
        keep,
        low,
        emit::fields_of(lbl, opc::OP_FN_STACK_POP, 0, r, 0, 0, 0),
        out,
    );
    emit::push_op(
        keep,
        a,
        emit::fields_of(lbl, opc::OP_STR, 0, r, x, 0, 0),
        out,
    )
}

// The parameters, popped in written order to the registers from reg on.
fn pops(names: &[u8], reg: u8, keep: bool, lbl: u64, low: emit::Low, out: &mut [u8]) -> emit::Low
    requires { Ready low out.old × (length names.now ≤ 255) }
    ensures { Pops keep names.now reg lbl low out.old result out.new }
{
    let mut q = low;
    for (i, name) in names.iter().enumerate() {
        let r = lent::low(reg as u64 + i as u64);
        q = pop(r, *name, keep, lbl, q, out);
    }
    q
}

// Registers for the parameters, the function and its pops, up to its Block: to the declarations.
pub fn fn_head(
    contents: &[u8],
    bodies: &[u8],
    lbl: u64,
    low: emit::Low,
    out: &mut [u8],
) -> emit::Done
    requires reads { Reads (statements lbl) contents.now bodies.now low out.old }
    requires contents_value { get_or contents.now 0 0 ≡ 9 }
    ensures { FnHead contents.now bodies.now lbl low out.old result out.new }
{
    let count = contents[1] as usize;
    let keep = low.decls;
    let q = nextregs(count - 1, low);
    let f = push_fn(keep, lbl, q, bodies[0], &bodies[1..count], out);
    let d = pops(&bodies[1..count], low.reg, keep, lbl, f, out);
    emit::start(ast::NODE_SIZE * count, count, lbl, d)
}

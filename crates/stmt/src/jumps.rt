// Jumps whose targets are known later, and Nops (`update_op_at` of compiler.rs).
ghost use Rattle.std.specs.Prelude.{◌≡◌, cond, List, [], ◌∷◌, ℕ, ◌+◌, ◌≤◌, ◌<◌, ◌^◌, length};
ghost use Rattle.opc.specs.Op.{Jmpf, JmpCnd, Jmpa, Nop};
ghost use Rattle.compiler.specs.Lower.{prev, push};
ghost use Rattle.emit.specs.inner.Run.{Ready};
ghost use Rattle.stmt.specs.inner.Parts.{Emitted, retarget, end_label, last_waiting, Waits, targets, written, next_arm};

// From a record's number, where a jump has its target, to the record's end.
const NUMBER_TO_END: usize = opc::RECORD_SIZE - opc::RECORD_NUMBER;

// The target of the jump that was pushed between a and b.
pub fn update_op_at(a: emit::Low, b: emit::Low, lblidx: u64, out: &mut [u8])
    requires { (b.recs ≤ 1024) × (40960 ≤ length out.old) }
    ensures { out.new ≡ retarget a b lblidx out.old }
{
    if a.recs < b.recs {
        lent::put_u64(
            out,
            opc::RECORD_SIZE * (a.recs as usize) + opc::RECORD_NUMBER,
            lblidx,
        );
        return;
    }
}

// Behind a condition: to the next label where it is false, which is not known yet.
pub fn jump_false(keep: bool, p: emit::Done, out: &mut [u8]) -> emit::Done
    requires { Ready p.low out.old × (p.lbl + 1 < 2 ^ 64) }
    ensures { Emitted (λ w. push w p.lbl (JmpCnd Jmpf (prev p.low.reg) 0) ∷ []) (p.lbl + 1) keep p out.old result out.new }
{
    let reg = emit::prevreg(p.low);
    let f = emit::fields_of(p.lbl, opc::OP_JMP_CND, opc::JMPF, reg, 0, 0, 0);
    let j = emit::push_at(keep, p, f, out);
    emit::newlbl(j)
}

// Behind a Block of an If: to the end, which is not known yet. Meanwhile its target is `last`.
pub fn jump_end(last: u64, keep: bool, p: emit::Done, out: &mut [u8]) -> emit::Done
    requires { Ready p.low out.old × (p.lbl + 1 < 2 ^ 64) }
    ensures { Emitted (λ w. push w p.lbl (Jmpa last) ∷ []) (p.lbl + 1) keep p out.old result out.new }
{
    let f = emit::fields_of(p.lbl, opc::OP_JMPA, 0, 0, 0, 0, last);
    let j = emit::push_at(keep, p, f, out);
    emit::newlbl(j)
}

// The last jump that waits, where the one that was just pushed left `low`.
pub fn waiting(keep: bool, low: emit::Low, last: u64) -> u64
    ensures { result ≡ cond (written keep low) low.recs last }
{
    if keep & (low.refused == 0) {
        low.recs as u64
    } else {
        last
    }
}

pub fn next_arm(more: u8, p: emit::Done) -> emit::Done
    requires { (p.cont + 2 < 2 ^ 64) × (p.body + 0 < 2 ^ 64) }
    ensures { result ≡ next_arm more p }
{
    if more == 0 {
        return p;
    }
    emit::pass(p, ast::NODE_SIZE, 0)
}

// The jumps that wait get their target, the last first.
pub fn update_ends(last: u64, lblidx: u64, out: &mut [u8])
    requires by_index { (xs : List ℕ) × (last ≡ last_waiting xs) × Waits xs out.old }
    requires in_bounds { 40960 ≤ length out.old }
    ensures { (xs : List ℕ) → last ≡ last_waiting xs → Waits xs out.old → out.new ≡ targets xs lblidx out.old }
{
    let mut i = last;
    while 0 < i {
        let at = opc::RECORD_SIZE * (i as usize) - NUMBER_TO_END;
        let before = lent::get_u64(out, at);
        lent::put_u64(out, at, lblidx);
        i = before;
    }
}

pub fn nop(keep: bool, p: emit::Done, out: &mut [u8]) -> emit::Done
    requires { Ready p.low out.old }
    ensures { Emitted (λ w. push w p.lbl Nop ∷ []) p.lbl keep p out.old result out.new }
{
    let f = emit::fields_of(p.lbl, opc::OP_NOP, 0, 0, 0, 0, 0);
    emit::push_at(keep, p, f, out)
}

// An else opens a label for the end.
fn ended(rest: u8, p: emit::Done) -> emit::Done
    requires { end_label rest p.lbl < 2 ^ 64 }
    ensures { result ≡ record { cont = p.cont; body = p.body; lbl = end_label rest p.lbl; low = p.low } }
{
    if rest == 0 {
        return p;
    }
    emit::newlbl(p)
}

// The end of an If, behind its else statements.
pub fn if_end(rest: u8, keep: bool, p: emit::Done, out: &mut [u8]) -> emit::Done
    requires { Ready p.low out.old × (end_label rest p.lbl < 2 ^ 64) }
    ensures { Emitted (λ w. push w (end_label rest p.lbl) Nop ∷ []) (end_label rest p.lbl) keep p out.old result out.new }
{
    let e = ended(rest, p);
    nop(keep, e, out)
}

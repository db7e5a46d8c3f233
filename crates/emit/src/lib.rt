// Emitting: what an event of the lowering changes, in the state and in the program buffer (`nextreg`, `push_op` of compiler.rs).
#![tactic(auto)]

ghost use Rattle.std.specs.Prelude.{◌≡◌, true, cond, List, [], ◌∷◌, ℕ, ◌+◌, ◌*◌, ◌-◌, ◌^◌, ◌≤◌, ◌<◌, eqb, length, drop, get_or};
ghost use Rattle.sifv.specs.Value.{One};
ghost use Rattle.sifv.specs.inner.Seen.{single_seen};
ghost use Rattle.lent.specs.Bytes.{be_value, part, splice};
ghost use Rattle.opc.specs.Op.{Instr, op, Ldc, Stc, Stn, Str};
ghost use Rattle.opc.specs.Record.{items_of, encode_instr, field_bytes, fields};
ghost use Rattle.opc.specs.inner.Fetch.{fields_told};
ghost use Rattle.ast.specs.Tree.{Name};
ghost use Rattle.compiler.specs.Lower.{Place, ask_below, prev, Reg, push, load, lower_expr};
ghost use Rattle.emit.specs.inner.Run.{kept, after_events, step_event, refuse, no_room, counted, Ready, Did, PushesItems, PushesOp, Loads};
ghost use Rattle.emit.specs.inner.Made.{Made, bin_code};
ghost use Rattle.emit.specs.inner.Literals.{lit_size, value_at};

use lent::refusal::Refusal;

// Refusals and limits in the types of `Low`.
pub const SCRIPT_TOO_LARGE: u16 = Refusal::ScriptTooLarge as u16;

const NO_REGISTER: u16 = Refusal::NoRegister as u16;

const REGISTERS: u8 = opc::REGISTERS as u8;

const INSTRUCTIONS: u32 = opc::INSTRUCTIONS as u32;

// What events change: the next register, the instructions pushed, the records and the items written, the refusal;
// and whether this is the pass for the declarations. 16 bytes with none between the fields: each call copies it, and every
// level of the tree holds some on the stack.
#[derive(Clone, Copy)]
pub struct Low {
    pub reg: u8,
    pub decls: bool,
    pub refused: u16,
    pub count: u32,
    pub recs: u32,
    pub items: u32,
}

// The bytes of the entries and of the bodies that are read, the label and the state behind them.
#[derive(Clone, Copy)]
pub struct Done {
    pub cont: usize,
    pub body: usize,
    pub lbl: u64,
    pub low: Low,
}

pub fn start(cont: usize, body: usize, lbl: u64, low: Low) -> Done
    ensures { result ≡ record { cont = cont; body = body; lbl = lbl; low = low } }
{
    Done {
        cont,
        body,
        lbl,
        low,
    }
}

// The next label.
pub fn newlbl(p: Done) -> Done
    requires { p.lbl + 1 < 2 ^ 64 }
    ensures { result ≡ record { cont = p.cont; body = p.body; lbl = p.lbl + 1; low = p.low } }
{
    Done {
        lbl: p.lbl + 1,
        ..p
    }
}

// u bytes more of the entries, v of the bodies.
pub fn pass(p: Done, u: usize, v: usize) -> Done
    requires { (p.cont + u < 2 ^ 64) × (p.body + v < 2 ^ 64) }
    ensures { result ≡ record { cont = p.cont + u; body = p.body + v; lbl = p.lbl; low = p.low } }
{
    Done {
        cont: p.cont + u,
        body: p.body + v,
        ..p
    }
}

// The same place and label, with another state.
pub fn with(p: Done, low: Low) -> Done
    ensures { result ≡ record { cont = p.cont; body = p.body; lbl = p.lbl; low = low } }
{
    Done { low, ..p }
}

pub fn refused(low: Low, n: u16) -> Low
    ensures { result ≡ refuse n low }
{
    Low { refused: n, ..low }
}

pub fn nextreg(low: Low) -> Low
    requires { low.reg ≤ 96 }
    ensures { result ≡ step_event Reg low }
{
    if low.refused != 0 {
        return low;
    }
    if REGISTERS <= low.reg {
        return refused(low, SCRIPT_TOO_LARGE);
    }
    Low {
        reg: low.reg + 1,
        ..low
    }
}

pub fn prevreg(low: Low) -> u8
    ensures { result ≡ prev low.reg }
{
    low.reg.saturating_sub(1)
}

// `self.ri - 1` where there is none.
pub fn below(low: Low) -> Low
    ensures { result ≡ after_events (ask_below low.reg) low }
{
    if low.refused != 0 {
        return low;
    }
    if low.reg == 0 {
        return refused(low, NO_REGISTER);
    }
    low
}

// Whether the next instruction, with n items, is refused.
pub fn is_full(keep: bool, low: Low, n: usize) -> bool
    requires { (low.items ≤ 1024) × (n ≤ 1024) }
    ensures { result ≡ no_room keep low n }
{
    (INSTRUCTIONS <= low.count)
        | (keep & ((INSTRUCTIONS <= low.recs) | (opc::ENTRIES < low.items as usize + n)))
}

// An instruction is pushed, with n items where it is kept.
pub fn count(keep: bool, low: Low, n: usize) -> Low
    requires { (low.items ≤ 1024) × (n ≤ 1024) × (low.recs ≤ 1024) × (low.count ≤ 1024) }
    ensures { result ≡ counted keep low n }
{
    if keep {
        return Low {
            count: low.count + 1,
            recs: low.recs + 1,
            items: low.items + n as u32,
            ..low
        };
    }
    Low {
        count: low.count + 1,
        ..low
    }
}

// The record index becomes the fields f, where `keep`.
pub fn keep_record(keep: bool, index: usize, f: opc::Fields, out: &mut [u8])
    requires { keep ≡ true → 16 * index + 16 ≤ length out.old }
    ensures { out.new ≡ cond keep (splice out.old (16 * index) (field_bytes (fields_told f))) out.old }
{
    if keep {
        opc::put_record(out, index, f);
        return;
    }
}

// An instruction with n items: its record; the items are written by the caller, where a record was.
pub fn push_items(keep: bool, low: Low, f: opc::Fields, n: usize, out: &mut [u8]) -> Low
    requires { Ready low out.old × (n ≤ 1024) }
    ensures { PushesItems keep low n (field_bytes (fields_told f)) out.old result out.new }
{
    if low.refused != 0 {
        return low;
    }
    if is_full(keep, low, n) {
        return refused(low, SCRIPT_TOO_LARGE);
    }
    keep_record(keep, low.recs as usize, f, out);
    count(keep, low, n)
}

// One with none.
pub fn push_op(keep: bool, low: Low, f: opc::Fields, out: &mut [u8]) -> Low
    requires { Ready low out.old }
    ensures { PushesOp keep low (field_bytes (fields_told f)) out.old result out.new }
{
    push_items(keep, low, f, 0, out)
}

// A value into the next register.
pub fn load(keep: bool, low: Low, f: opc::Fields, out: &mut [u8]) -> Low
    requires { Ready low out.old }
    ensures { Loads keep low (field_bytes (fields_told f)) out.old result out.new }
{
    let a = nextreg(low);
    push_op(keep, a, f, out)
}

// A record's fields, with no items.
pub fn fields_of(lbl: u64, code: u8, kind: u8, a: u8, b: u8, c: u8, word: u64) -> opc::Fields
    ensures { fields_told result ≡ fields lbl code kind a b c 0 word }
{
    opc::Fields {
        code,
        kind,
        lbl,
        a,
        b,
        c,
        len: 0,
        word,
    }
}

// The operator as an operation's kind: `!=` becomes Lnot.
pub fn bin_code(tok: u8) -> u8
    ensures { result ≡ bin_code tok }
{
    if tok < ast::TOK_LT_EQ {
        return tok;
    }
    if tok < ast::TOK_PIPE_PIPE {
        return tok + 1;
    }
    if tok == ast::TOK_PIPE_PIPE {
        return opc::BIN_LOR;
    }
    opc::BIN_LNOT
}

pub fn push_at(keep: bool, p: Done, f: opc::Fields, out: &mut [u8]) -> Done
    requires { Ready p.low out.old }
    ensures { (result.cont ≡ p.cont) × (result.body ≡ p.body) × (result.lbl ≡ p.lbl) × PushesOp keep p.low (field_bytes (fields_told f)) out.old result.low out.new }
{
    let low = push_op(keep, p.low, f, out);
    with(p, low)
}

pub fn load_at(keep: bool, p: Done, f: opc::Fields, out: &mut [u8]) -> Done
    requires { Ready p.low out.old }
    ensures { (result.cont ≡ p.cont) × (result.body ≡ p.body) × (result.lbl ≡ p.lbl) × Loads keep p.low (field_bytes (fields_told f)) out.old result.low out.new }
{
    let low = load(keep, p.low, f, out);
    with(p, low)
}

// What was read in a part, counted from the whole's start.
pub fn moved(cont: usize, body: usize, r: Done) -> Done
    requires { (cont + r.cont < 2 ^ 64) × (body + r.body < 2 ^ 64) }
    ensures { result ≡ record { cont = cont + r.cont; body = body + r.body; lbl = r.lbl; low = r.low } }
{
    Done {
        cont: cont + r.cont,
        body: body + r.body,
        ..r
    }
}

// What was read in a part, counted from the whole's start; then the test of the register before.
pub fn shift(cont: usize, body: usize, r: Done) -> Done
    requires { (cont + r.cont < 2 ^ 64) × (body + r.body < 2 ^ 64) }
    ensures { result ≡ record { cont = cont + r.cont; body = body + r.body; lbl = r.lbl; low = after_events (ask_below r.low.reg) r.low } }
{
    let low = below(r.low);
    moved(cont, body, with(r, low))
}

// The value of a literal's node, by its kind, whose body begins at `at`.
pub fn literal_value(kind: u8, bodies: &[u8], at: usize) -> sifv::SifVal
    requires { (kind ≡ 19 → at + 8 ≤ length bodies.now) × (kind ≡ 20 → at < length bodies.now) }
    ensures { single_seen result ≡ value_at kind bodies.now at }
{
    if kind == ast::KIND_NUM {
        return sifv::SifVal::Num(numeric::from_bits(lent::get_u64(bodies, at)));
    }
    if kind == ast::KIND_TEXT {
        return sifv::SifVal::Str(lent::wide(bodies[at]));
    }
    sifv::SifVal::Bl(kind == ast::KIND_TRUE)
}

// The bytes of its body.
pub fn literal_size(kind: u8) -> usize
    ensures { result ≡ lit_size kind }
{
    if kind == ast::KIND_NUM {
        return sifv::NUMBER_SIZE;
    }
    if kind == ast::KIND_TEXT {
        return 1;
    }
    0
}

// A number, a text, True or False into the next register. Inlined, so that the operands of a call take no stack at each level
// of the tree.
#[inline(always)]
pub fn load_literal(kind: u8, bodies: &[u8], keep: bool, lbl: u64, low: Low, out: &mut [u8]) -> Done
    requires { Ready low out.old × (kind ≡ 19 → 8 ≤ length bodies.now) × (kind ≡ 20 → 1 ≤ length bodies.now) }
    ensures { (w : Place) → keep ≡ kept low.decls w.section → Made (load w lbl (Ldc low.reg (One (value_at kind bodies.now 0)))) 2 (lit_size kind) lbl low out.old result out.new }
{
    let v = literal_value(kind, bodies, 0);
    let p = start(ast::NODE_SIZE, literal_size(kind), lbl, low);
    let f = fields_of(
        lbl,
        opc::OP_LDC,
        sifv::item_kind(v),
        low.reg,
        0,
        0,
        sifv::word_of(v),
    );
    load_at(keep, p, f, out)
}

pub fn load_name(bodies: &[u8], keep: bool, lbl: u64, low: Low, out: &mut [u8]) -> Done
    requires { Ready low out.old × (1 ≤ length bodies.now) }
    ensures { (x : ℕ) → x ≡ get_or bodies.now 0 0 → (w : Place) → keep ≡ kept low.decls w.section → Made (lower_expr (Name x) w lbl low.reg) 2 1 lbl low out.old result out.new }
{
    let x = bodies[0];
    load_at(
        keep,
        start(ast::NODE_SIZE, 1, lbl, low),
        fields_of(lbl, opc::OP_LDN, 0, low.reg, x, 0, 0),
        out,
    )
}

// `match_primary_assign`: a number, a text, True or False; a name. A load takes a register first, which makes two events; a store
// is one. So they stay two functions.
pub fn put_literal(
    x: u8,
    kind: u8,
    bodies: &[u8],
    keep: bool,
    lbl: u64,
    low: Low,
    out: &mut [u8],
) -> Done
    requires { Ready low out.old × (kind ≡ 19 → 8 ≤ length bodies.now) × (kind ≡ 20 → 1 ≤ length bodies.now) }
    ensures { (w : Place) → keep ≡ kept low.decls w.section → Made (push w lbl (Stc (One (value_at kind bodies.now 0)) x) ∷ []) 2 (lit_size kind) lbl low out.old result out.new }
{
    let v = literal_value(kind, bodies, 0);
    let p = start(ast::NODE_SIZE, literal_size(kind), lbl, low);
    let f = fields_of(
        lbl,
        opc::OP_STC,
        sifv::item_kind(v),
        x,
        0,
        0,
        sifv::word_of(v),
    );
    push_at(keep, p, f, out)
}

pub fn put_name(x: u8, bodies: &[u8], keep: bool, lbl: u64, low: Low, out: &mut [u8]) -> Done
    requires { Ready low out.old × (1 ≤ length bodies.now) }
    ensures { (y : ℕ) → y ≡ get_or bodies.now 0 0 → (w : Place) → keep ≡ kept low.decls w.section → Made (push w lbl (Stn y x) ∷ []) 2 1 lbl low out.old result out.new }
{
    let y = bodies[0];
    push_at(
        keep,
        start(ast::NODE_SIZE, 1, lbl, low),
        fields_of(lbl, opc::OP_STN, 0, y, x, 0, 0),
        out,
    )
}

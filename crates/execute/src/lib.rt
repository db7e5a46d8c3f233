// The operations of the machine: vm.rs, `execute` and what it calls, with the state in lent bytes.
#![tactic(auto)]

pub mod table;

ghost use Rattle.std.specs.Prelude.{◌≡◌, ◌+◌, ◌*◌, ◌%◌, ◌≤◌, ◌<◌, cond, eqb, length, get_or, Ok};
ghost use Rattle.std.proofs.Math.Option.{some};
ghost use Rattle.std.specs.Float.Ieee as Ieee;
ghost use Rattle.stored.specs.StateBytes.{stack_at, frames_at, functions_at};
ghost use Rattle.lent.specs.Bytes.{part, splice};
ghost use Rattle.sifv.specs.Value.{One, Bl};
ghost use Rattle.sifv.specs.inner.Seen.{bare, kind_in, seen, shown, set_item};
ghost use Rattle.sifv.specs.Slot.{single_of, encode_slot, decode_slot};
ghost use Rattle.sifv.specs.inner.StoredForm.{stored_of};
ghost use Rattle.vm.specs.RuntimeErr as Rule;
ghost use Rattle.vm.specs.RuntimeErr.{stop_number};
ghost use Rattle.vm.specs.Operation as Operation;
ghost use Rattle.vm.specs.Operation.{item_in};
ghost use Rattle.vm.specs.Machine as Machine;
ghost use Rattle.opc.specs.declared.UnOpKind.TheVariants.{Lneg, Nneg};
ghost use Rattle.opc.specs.inner.Shows.{SingleIn, ShowsLiteral, Entered, entry_of};
ghost use Rattle.tables.specs.Tables.{Program, label_at};
ghost use Rattle.execute.specs.inner.View.{given, err_model, three_details, bin_model, un_model, pool_of, array_at, literal_in, InPool, regs_of, names_of, view, on_loc, ReadsSingle, Loaded, Wrote, Named, stepped_of, Stepped, Neat, Canon, Holds, some_of, update_of};
ghost use Rattle.sifv.specs.inner.Forms.{Formed};
ghost use Rattle.tables.specs.ProgramBytes.{program_in};
ghost use Rattle.execute.specs.inner.ProgramView.{ProgramReady, jmp_model, jumped_of, taken_of};
ghost use Rattle.opc.specs.inner.Fetch.{record_at};

use opc::{BinOpKind, JmpOpKind, Op, UnOpKind};
use sifv::SifVal;

// ---- runtime_err.rs, and the stops that specs/RuntimeErr.antt of crate vm adds

// Why a run stops: with a text, a register; or a text, an index and a length.
#[derive(Clone, Copy, PartialEq, Eq, Debug)]
pub enum RuntimeErr {
    InvalidName(usize),
    InvalidIncr,
    InvalidIncrTy,
    InvalidDecr,
    InvalidDecrTy,
    InvalidJump,
    RegNoContents(usize),
    TyMismatch,
    NotAnArray(usize),
    InvalidFnSym(usize),
    EmptyCallStack,
    IndexOutOfBounds { name: usize, index: u64, len: u64 },
    EmptyRegister,
    KeyAbsent,
    Nested,
    StackFull,
    TableFull,
    NoIndex,
}

impl RuntimeErr {
    pub fn number(self) -> u64
        ensures { result ≡ stop_number (err_model self) }
    {
        match self {
            RuntimeErr::InvalidName(_) => vm::INVALID_NAME,
            RuntimeErr::InvalidIncr => vm::INVALID_INCR,
            RuntimeErr::InvalidIncrTy => vm::INVALID_INCR_TY,
            RuntimeErr::InvalidDecr => vm::INVALID_DECR,
            RuntimeErr::InvalidDecrTy => vm::INVALID_DECR_TY,
            RuntimeErr::InvalidJump => vm::INVALID_JUMP,
            RuntimeErr::RegNoContents(_) => vm::REG_NO_CONTENTS,
            RuntimeErr::TyMismatch => vm::TY_MISMATCH,
            RuntimeErr::NotAnArray(_) => vm::NOT_AN_ARRAY,
            RuntimeErr::InvalidFnSym(_) => vm::INVALID_FN_SYM,
            RuntimeErr::EmptyCallStack => vm::EMPTY_CALL_STACK,
            RuntimeErr::IndexOutOfBounds { .. } => vm::INDEX_OUT_OF_BOUNDS,
            RuntimeErr::EmptyRegister => vm::EMPTY_REGISTER,
            RuntimeErr::KeyAbsent => vm::KEY_ABSENT,
            RuntimeErr::Nested => vm::NESTED,
            RuntimeErr::StackFull => vm::STACK_FULL,
            RuntimeErr::TableFull => vm::TABLE_FULL,
            RuntimeErr::NoIndex => vm::NO_INDEX,
        }
    }

    // Three details, 0 where there is none.
    pub fn details(self) -> (u64, u64, u64)
        ensures { result ≡ three_details (err_model self) }
    {
        match self {
            RuntimeErr::InvalidName(x)
            | RuntimeErr::RegNoContents(x)
            | RuntimeErr::NotAnArray(x)
            | RuntimeErr::InvalidFnSym(x) => (x as u64, 0, 0),
            RuntimeErr::IndexOutOfBounds { name, index, len } => (name as u64, index, len),
            _ => (0, 0, 0),
        }
    }
}

// Position, depth of the value stack, depth of the call stack: locals of a run.
#[derive(Clone, Copy)]
pub struct Loc {
    pub pos: usize,
    pub depth: usize,
    pub calls: usize,
}

// How far a run is: position and depths, and the steps completed since start.
#[derive(Clone, Copy)]
pub struct Progress {
    pub loc: Loc,
    pub count: u64,
}

// How a run ended.
#[derive(Clone, Copy)]
pub enum Answer {
    Done,
    Stopped(RuntimeErr),
    Spent,
}

// ---- places

fn on(loc: Loc) -> Loc
    requires { loc.pos ≤ 1024 }
    ensures { result ≡ on_loc loc }
{
    Loc {
        pos: loc.pos + 1,
        depth: loc.depth,
        calls: loc.calls,
    }
}

fn stepped(loc: Loc, did: Result<(), RuntimeErr>) -> Result<Loc, RuntimeErr>
    requires { loc.pos ≤ 1024 }
    ensures { result ≡ stepped_of loc did }
{
    did?;
    Ok(on(loc))
}

pub fn reg(r: usize) -> usize
    requires { r < 96 }
    ensures { result ≡ 0 + r * 256 }
{
    r * sifv::VALUE_SIZE
}

pub fn slot(x: usize) -> usize
    requires { x < 64 }
    ensures { result ≡ 24576 + x * 256 }
{
    stored::STATE_NAMES + x * sifv::VALUE_SIZE
}

// A value into register dest, or the stop: the one writer of what the readers below get.
fn loads(
    state: &mut [u8],
    loc: Loc,
    dest: usize,
    got: Result<sifv::Stored, RuntimeErr>,
) -> Result<Loc, RuntimeErr>
    requires { Neat state.old × (loc.pos ≤ 1024) × (dest < 96) }
    ensures { Loaded state.old state.new dest loc got result }
{
    let v = got?;
    sifv::put(state, reg(dest), v);
    Ok(on(loc))
}

// ---- operators

fn numbers(kind: BinOpKind, x: f64, y: f64) -> Result<sifv::Stored, RuntimeErr>
    ensures { ReadsSingle (Operation.one (Operation.numbers (bin_model kind) x y)) result }
{
    match kind {
        BinOpKind::Add => Ok(sifv::pack(SifVal::Num(x + y))),
        BinOpKind::Sub => Ok(sifv::pack(SifVal::Num(x - y))),
        BinOpKind::Mul => Ok(sifv::pack(SifVal::Num(x * y))),
        BinOpKind::Div => Ok(sifv::pack(SifVal::Num(x / y))),
        BinOpKind::Modu => Ok(sifv::pack(SifVal::Num(numeric::modu(x, y)))),
        BinOpKind::Eq => Ok(sifv::pack(SifVal::Bl(x == y))),
        BinOpKind::Neq => Ok(sifv::pack(SifVal::Bl(x != y))),
        BinOpKind::LtEq => Ok(sifv::pack(SifVal::Bl(x <= y))),
        BinOpKind::Lt => Ok(sifv::pack(SifVal::Bl(x < y))),
        BinOpKind::GtEq => Ok(sifv::pack(SifVal::Bl(x >= y))),
        BinOpKind::Gt => Ok(sifv::pack(SifVal::Bl(x > y))),
        BinOpKind::Land | BinOpKind::Lnot | BinOpKind::Lor => Err(RuntimeErr::TyMismatch),
    }
}

fn truths(kind: BinOpKind, x: bool, y: bool) -> Result<sifv::Stored, RuntimeErr>
    ensures { ReadsSingle (Operation.one (Operation.truths (bin_model kind) x y)) result }
{
    match kind {
        BinOpKind::Land => Ok(sifv::pack(SifVal::Bl(x & y))),
        BinOpKind::Lnot => Ok(sifv::pack(SifVal::Bl(x != y))),
        BinOpKind::Lor => Ok(sifv::pack(SifVal::Bl(x | y))),
        _ => Err(RuntimeErr::TyMismatch),
    }
}

// A second operand beside one that no operator takes.
fn mismatched(src2: usize, w: SifVal) -> Result<sifv::Stored, RuntimeErr>
    ensures { ReadsSingle (Operation.full (Rule.RegNoContents src2) (bare w) (λ _. Operation.Err Rule.TyMismatch)) result }
{
    match w {
        SifVal::Empty => Err(RuntimeErr::RegNoContents(src2)),
        _ => Err(RuntimeErr::TyMismatch),
    }
}

// A second operand beside a yes/no.
fn with_truth(kind: BinOpKind, x: bool, src2: usize, w: SifVal) -> Result<sifv::Stored, RuntimeErr>
    ensures { ReadsSingle (Operation.full (Rule.RegNoContents src2) (bare w) (λ u. Operation.binary (bin_model kind) (One (Bl x)) u)) result }
{
    match w {
        SifVal::Empty => Err(RuntimeErr::RegNoContents(src2)),
        SifVal::Bl(y) => truths(kind, x, y),
        _ => Err(RuntimeErr::TyMismatch),
    }
}

// Two operands that are not two numbers, for any kinds; `binop` has its own path for a yes/no in front.
fn others(
    kind: BinOpKind,
    src1: usize,
    src2: usize,
    v: SifVal,
    w: SifVal,
) -> Result<sifv::Stored, RuntimeErr>
    requires { kind_in v ≡ 1 → kind_in w ≡ 1 → ⊥ }
    ensures { ReadsSingle (Operation.full (Rule.RegNoContents src1) (bare v) (λ t. Operation.full (Rule.RegNoContents src2) (bare w) (λ u. Operation.binary (bin_model kind) t u))) result }
{
    match v {
        SifVal::Empty => Err(RuntimeErr::RegNoContents(src1)),
        SifVal::Bl(x) => with_truth(kind, x, src2, w),
        _ => mismatched(src2, w),
    }
}

// A register beside a yes/no.
fn beside_truth(
    state: &[u8],
    kind: BinOpKind,
    x: bool,
    src2: usize,
) -> Result<sifv::Stored, RuntimeErr>
    requires { Neat state.now × (src2 < 96) }
    ensures { ReadsSingle (Operation.full (Rule.RegNoContents src2) (regs_of state.now src2) (λ u. Operation.binary (bin_model kind) (One (Bl x)) u)) result }
{
    let b = reg(src2);
    if sifv::kind_at(state, b) != 3 {
        return with_truth(kind, x, src2, sifv::get(state, b));
    }
    truths(kind, x, sifv::truth_at(state, b))
}

fn binop(
    state: &[u8],
    kind: BinOpKind,
    src1: usize,
    src2: usize,
) -> Result<sifv::Stored, RuntimeErr>
    requires { Neat state.now × (src1 < 96) × (src2 < 96) }
    ensures { ReadsSingle (Operation.full (Rule.RegNoContents src1) (regs_of state.now src1) (λ t. Operation.full (Rule.RegNoContents src2) (regs_of state.now src2) (λ u. Operation.binary (bin_model kind) t u))) result }
{
    let a = reg(src1);
    let b = reg(src2);
    let k = sifv::kind_at(state, a);
    if k == 3 {
        return beside_truth(state, kind, sifv::truth_at(state, a), src2);
    }
    if k != 1 {
        return others(kind, src1, src2, sifv::get(state, a), sifv::get(state, b));
    }
    if sifv::kind_at(state, b) != 1 {
        return others(kind, src1, src2, sifv::get(state, a), sifv::get(state, b));
    }
    numbers(kind, sifv::number_at(state, a), sifv::number_at(state, b))
}

fn lneg(state: &[u8], src1: usize) -> Result<sifv::Stored, RuntimeErr>
    requires { Neat state.now × (src1 < 96) }
    ensures { ReadsSingle (Operation.full Rule.TyMismatch (regs_of state.now src1) (λ v. Operation.unary (un_model Lneg) v)) result }
{
    let at = reg(src1);
    if sifv::kind_at(state, at) != 3 {
        return Err(RuntimeErr::TyMismatch);
    }
    Ok(sifv::pack(SifVal::Bl(!sifv::truth_at(state, at))))
}

fn nneg(state: &[u8], src1: usize) -> Result<sifv::Stored, RuntimeErr>
    requires { Neat state.now × (src1 < 96) }
    ensures { ReadsSingle (Operation.full Rule.TyMismatch (regs_of state.now src1) (λ v. Operation.unary (un_model Nneg) v)) result }
{
    let at = reg(src1);
    if sifv::kind_at(state, at) != 1 {
        return Err(RuntimeErr::TyMismatch);
    }
    Ok(sifv::pack(SifVal::Num(-sifv::number_at(state, at))))
}

fn unop(state: &[u8], kind: UnOpKind, src1: usize) -> Result<sifv::Stored, RuntimeErr>
    requires { Neat state.now × (src1 < 96) }
    ensures { ReadsSingle (Operation.full Rule.TyMismatch (regs_of state.now src1) (λ v. Operation.unary (un_model kind) v)) result }
{
    match kind {
        UnOpKind::Lneg => lneg(state, src1),
        UnOpKind::Nneg => nneg(state, src1),
    }
}

// A number that is moved by a step; one stop where the register is empty, another where it holds no number.
fn moved(
    state: &[u8],
    src: usize,
    step: f64,
    empty: RuntimeErr,
    other: RuntimeErr,
) -> Result<sifv::Stored, RuntimeErr>
    requires { Neat state.now × (src < 96) }
    ensures { (x y : Rule.RuntimeErr) → empty ≡ given x → other ≡ given y → ReadsSingle (Operation.full x (regs_of state.now src) (λ v. Operation.moved (λ n. Ieee.add Ieee.binary64 n step) y v)) result }
{
    let at = reg(src);
    let k = sifv::kind_at(state, at);
    if k == 1 {
        return Ok(sifv::pack(SifVal::Num(sifv::number_at(state, at) + step)));
    }
    if k == 0 {
        return Err(empty);
    }
    Err(other)
}

fn incrr(state: &[u8], src: usize) -> Result<sifv::Stored, RuntimeErr>
    requires { Neat state.now × (src < 96) }
    ensures { ReadsSingle (Operation.full Rule.InvalidIncr (regs_of state.now src) (λ v. Operation.incr v)) result }
{
    moved(
        state,
        src,
        1.0,
        RuntimeErr::InvalidIncr,
        RuntimeErr::InvalidIncrTy,
    )
}

fn decrr(state: &[u8], src: usize) -> Result<sifv::Stored, RuntimeErr>
    requires { Neat state.now × (src < 96) }
    ensures { ReadsSingle (Operation.full Rule.InvalidDecr (regs_of state.now src) (λ v. Operation.decr v)) result }
{
    moved(
        state,
        src,
        -1.0,
        RuntimeErr::InvalidDecr,
        RuntimeErr::InvalidDecrTy,
    )
}

// ---- literals

// Entry k of the pool becomes item i of the slot at byte at.
fn put_item(program: &[u8], state: &mut [u8], at: usize, i: usize, k: usize)
    requires { (32768 ≤ length program.now) × (at + 256 ≤ length state.old) × (i < 24) × (k < 1024) × Entered (part program.now (16384 + 16 * k) 16) }
    ensures { state.new ≡ splice state.old at (set_item (part state.old at 256) i (entry_of (part program.now (16384 + 16 * k) 16))) }
{
    let e = opc::PROGRAM_POOL + opc::ENTRY_SIZE * k;
    let kind = program[e];
    let word = sifv::stored_word(kind, lent::get_u64(program, e + opc::ENTRY_NUMBER));
    state[at + (sifv::VALUE_ITEM_KINDS + i)] = kind;
    lent::put_u64(
        state,
        at + (sifv::VALUE_ITEMS + i * sifv::NUMBER_SIZE),
        word,
    );
}

// An array whose items begin at entry first of the pool, over the slot at byte at.
fn put_array(program: &[u8], state: &mut [u8], at: usize, len: u64, first: u64)
    requires { (32768 ≤ length program.now) × (at + 256 ≤ length state.old) × InPool (pool_of program.now) len first }
    ensures { state.new ≡ splice state.old at (encode_slot (some (array_at program.now len first))) }
{
    lent::zero(state, at, sifv::VALUE_SIZE);
    state[at] = 5;
    state[at + sifv::VALUE_LENGTH] = len as u8;
    let n = len as usize;
    let start = first as usize;
    for i in 0..n {
        put_item(program, state, at, i, start + i);
    }
}

// The single value in record val, as it is stored.
fn stored(program: &[u8], val: usize) -> sifv::Stored
    requires { (16384 ≤ length program.now) × (val < 1024) × SingleIn (record_at program.now val).kind (record_at program.now val).word }
    ensures { result ≡ stored_of (shown (single_of (record_at program.now val).kind (record_at program.now val).word)) }
{
    let kind = opc::kind_of(program, val);
    sifv::Stored {
        kind,
        word: sifv::stored_word(kind, opc::word_of(program, val)),
    }
}

// The array or the table in record val, over the slot at byte at.
fn put_contents(program: &[u8], state: &mut [u8], at: usize, val: usize)
    requires { (32768 ≤ length program.now) × (at + 256 ≤ length state.old) × Formed (part state.old at 256) × (val < 1024) × ShowsLiteral (pool_of program.now) (record_at program.now val) (literal_in program.now val) × ((record_at program.now val).kind < 5 → ⊥) }
    ensures { state.new ≡ splice state.old at (encode_slot (some (literal_in program.now val))) }
{
    if opc::kind_of(program, val) == 5 {
        put_array(
            program,
            state,
            at,
            opc::len_of(program, val),
            opc::word_of(program, val),
        );
        return;
    }
    sifv::set(state, at, SifVal::Tab(0));
}

// The literal in record val, over the slot at byte at. It is put into its callers and looks at the kind, so that a single
// value is written without a call.
#[inline(always)]
fn put_literal(program: &[u8], state: &mut [u8], at: usize, val: usize)
    requires { (32768 ≤ length program.now) × (at + 256 ≤ length state.old) × Formed (part state.old at 256) × (val < 1024) × ShowsLiteral (pool_of program.now) (record_at program.now val) (literal_in program.now val) }
    ensures { state.new ≡ splice state.old at (encode_slot (some (literal_in program.now val))) }
{
    if opc::kind_of(program, val) < 5 {
        sifv::put(state, at, stored(program, val));
        return;
    }
    put_contents(program, state, at, val);
}

fn loadc(program: &[u8], state: &mut [u8], dest: usize, val: usize)
    requires { (32768 ≤ length program.now) × Neat state.old × (dest < 96) × (val < 1024) × ShowsLiteral (pool_of program.now) (record_at program.now val) (literal_in program.now val) }
    ensures { Wrote state.old (0 + dest * 256) state.new (Operation.Ok (some (literal_in program.now val))) (Ok tt) }
{
    put_literal(program, state, reg(dest), val);
}

fn storec(program: &[u8], state: &mut [u8], val: usize, name: usize)
    requires { (32768 ≤ length program.now) × Neat state.old × (name < 64) × (val < 1024) × ShowsLiteral (pool_of program.now) (record_at program.now val) (literal_in program.now val) }
    ensures { Named state.old state.new (Operation.Ok (Operation.put (names_of state.old) name (some (literal_in program.now val)))) (Ok tt) }
{
    put_literal(program, state, slot(name), val);
}

// ---- names and registers

fn loadn(state: &mut [u8], dest: usize, name: usize) -> Result<(), RuntimeErr>
    requires { Neat state.old × (dest < 96) × (name < 64) }
    ensures { Wrote state.old (0 + dest * 256) state.new (some_of (Operation.read (names_of state.old) name)) result }
{
    if sifv::kind_at(state, slot(name)) == 0 {
        return Err(RuntimeErr::InvalidName(name));
    }
    sifv::move_to(state, slot(name), reg(dest));
    Ok(())
}

fn mv(state: &mut [u8], src: usize, dest: usize)
    requires { Neat state.old × (src < 96) × (dest < 96) }
    ensures { Wrote state.old (0 + dest * 256) state.new (Operation.Ok (regs_of state.old src)) (Ok tt) }
{
    sifv::move_to(state, reg(src), reg(dest));
}

// A slot into a name; nothing is stored as Null.
fn store(state: &mut [u8], from: usize, name: usize)
    requires { Neat state.old × (name < 64) × (from + 256 ≤ length state.old) × Formed (part state.old from 256) × (from % 256 ≡ 0) }
    ensures { Named state.old state.new (Operation.Ok (Operation.put (names_of state.old) name (Operation.or_null (decode_slot (part state.old from 256))))) (Ok tt) }
{
    if sifv::kind_at(state, from) == 0 {
        sifv::set(state, slot(name), SifVal::Null);
        return;
    }
    sifv::move_to(state, from, slot(name));
}

// ---- arrays

// The stop of a name that is no array.
fn no_array(kind: u8, name: usize) -> RuntimeErr
    ensures { result ≡ given (cond (eqb kind 0) (Rule.InvalidName name) (Rule.NotAnArray name)) }
{
    if kind == 0 {
        return RuntimeErr::InvalidName(name);
    }
    RuntimeErr::NotAnArray(name)
}

fn loadarrs(state: &[u8], name: usize) -> Result<sifv::Stored, RuntimeErr>
    requires { Neat state.now × (name < 64) }
    ensures { ReadsSingle (Operation.size (names_of state.now) name) result }
{
    let at = slot(name);
    let k = sifv::kind_at(state, at);
    if k != 5 {
        return Err(no_array(k, name));
    }
    let n = sifv::len_at(state, at);
    Ok(sifv::pack(SifVal::Num(n as f64)))
}

fn item(state: &[u8], name: usize, i: u64) -> Result<sifv::Stored, RuntimeErr>
    requires { Neat state.now × (name < 64) }
    ensures { ReadsSingle (item_in (names_of state.now name) name i) result }
{
    let at = slot(name);
    let k = sifv::kind_at(state, at);
    if k != 5 {
        return Err(no_array(k, name));
    }
    let n = sifv::len_at(state, at);
    if n <= i {
        return Err(RuntimeErr::IndexOutOfBounds {
            name,
            index: i,
            len: n,
        });
    }
    Ok(sifv::item(state, at, i as usize))
}

fn loadarrv(state: &[u8], name: usize, idx: usize) -> Result<sifv::Stored, RuntimeErr>
    requires { Neat state.now × (name < 64) × (idx < 96) }
    ensures { ReadsSingle (Operation.full Rule.TyMismatch (regs_of state.now idx) (λ v. Operation.array_item (names_of state.now) name v)) result }
{
    let at = reg(idx);
    if sifv::kind_at(state, at) != 1 {
        return Err(RuntimeErr::TyMismatch);
    }
    let Some(i) = numeric::index_of(sifv::number_at(state, at)) else {
        return Err(RuntimeErr::NoIndex);
    };
    item(state, name, i)
}

fn update(state: &mut [u8], name: usize, i: u64, val: usize) -> Result<(), RuntimeErr>
    requires { Neat state.old × (name < 64) × (val < 96) × (kind_in (seen (regs_of state.old val)) ≡ 0 → ⊥) }
    ensures { Named state.old state.new (update_of (names_of state.old) name i (regs_of state.old val)) result }
{
    let at = slot(name);
    let k = sifv::kind_at(state, at);
    if k != 5 {
        return Err(no_array(k, name));
    }
    let len = sifv::len_at(state, at);
    if len <= i {
        return Err(RuntimeErr::IndexOutOfBounds {
            name,
            index: i,
            len,
        });
    }
    let from = reg(val);
    if 5 <= sifv::kind_at(state, from) {
        return Err(RuntimeErr::Nested);
    }
    sifv::store_item(state, at, i as usize, from);
    Ok(())
}

fn newarrv(state: &mut [u8], name: usize, idx: usize, val: usize) -> Result<(), RuntimeErr>
    requires { Neat state.old × (name < 64) × (idx < 96) × (val < 96) }
    ensures { Named state.old state.new (Operation.full Rule.TyMismatch (regs_of state.old idx) (λ v. Operation.full Rule.TyMismatch (regs_of state.old val) (λ w. Operation.update (names_of state.old) name v w))) result }
{
    let at = reg(idx);
    if sifv::kind_at(state, at) != 1 {
        return Err(RuntimeErr::TyMismatch);
    }
    if sifv::kind_at(state, reg(val)) == 0 {
        return Err(RuntimeErr::TyMismatch);
    }
    let Some(i) = numeric::index_of(sifv::number_at(state, at)) else {
        return Err(RuntimeErr::NoIndex);
    };
    update(state, name, i, val)
}

// ---- stacks and functions

fn push(state: &mut [u8], loc: Loc, src: usize) -> Result<Loc, RuntimeErr>
    requires { Neat state.old × Holds state.old (view state.old loc) × (loc.depth ≤ 24) × (loc.pos ≤ 1024) × (src < 96) }
    ensures { Stepped state.old state.new (Machine.pushed (view state.old loc) (regs_of state.old src)) result }
{
    let from = reg(src);
    if sifv::kind_at(state, from) == 0 {
        return Err(RuntimeErr::EmptyRegister);
    }
    let depth = loc.depth;
    if stored::VALUE_STACK <= depth {
        return Err(RuntimeErr::StackFull);
    }
    sifv::move_to(state, from, stored::STATE_STACK + depth * sifv::VALUE_SIZE);
    Ok(Loc {
        pos: loc.pos + 1,
        depth: depth + 1,
        calls: loc.calls,
    })
}

fn pop(state: &mut [u8], loc: Loc, dest: usize) -> Result<Loc, RuntimeErr>
    requires { Neat state.old × Holds state.old (view state.old loc) × (loc.depth ≤ 24) × (loc.pos ≤ 1024) × (dest < 96) }
    ensures { Stepped state.old state.new (Machine.popped (view state.old loc) dest (stack_at state.old loc.depth)) result }
{
    let to = reg(dest);
    let depth = loc.depth;
    if depth == 0 {
        sifv::set(state, to, SifVal::Empty);
        return Ok(on(loc));
    }
    let n = depth - 1;
    let at = stored::STATE_STACK + n * sifv::VALUE_SIZE;
    sifv::move_to(state, at, to);
    sifv::set(state, at, SifVal::Empty);
    Ok(Loc {
        pos: loc.pos + 1,
        depth: n,
        calls: loc.calls,
    })
}

fn call(state: &mut [u8], loc: Loc, name: usize) -> Result<Loc, RuntimeErr>
    requires { Holds state.old (view state.old loc) × (loc.calls ≤ 24) × (loc.pos ≤ 1024) × (name < 64) }
    ensures { Stepped state.old state.new (Machine.call (view state.old loc) name (functions_at state.old name)) result }
{
    let t = lent::get_u16(state, stored::STATE_FUNCTIONS + name * tables::INDEX_SIZE) as usize;
    if t == 0 {
        return Err(RuntimeErr::InvalidFnSym(name));
    }
    let calls = loc.calls;
    if stored::CALL_STACK <= calls {
        return Err(RuntimeErr::StackFull);
    }
    lent::put_u16(
        state,
        stored::STATE_CALLS + calls * stored::FRAME_SIZE,
        loc.pos as u64,
    );
    Ok(Loc {
        pos: t,
        depth: loc.depth,
        calls: calls + 1,
    })
}

fn ret(state: &mut [u8], loc: Loc) -> Result<Loc, RuntimeErr>
    requires { Holds state.old (view state.old loc) × (loc.calls ≤ 24) }
    ensures { Stepped state.old state.new (Machine.ret (view state.old loc) (frames_at state.old loc.calls)) result }
{
    let calls = loc.calls;
    if calls == 0 {
        return Err(RuntimeErr::EmptyCallStack);
    }
    let n = calls - 1;
    let at = stored::STATE_CALLS + n * stored::FRAME_SIZE;
    let t = lent::get_u16(state, at) as usize;
    lent::put_u16(state, at, 0);
    Ok(Loc {
        pos: t + 1,
        depth: loc.depth,
        calls: n,
    })
}

// ---- jumps

fn jump(program: &[u8], loc: Loc, lblidx: u64) -> Result<Loc, RuntimeErr>
    requires { ProgramReady program.now (program_in program.now) × (lblidx < 1024) }
    ensures { result ≡ jumped_of loc (label_at (program_in program.now).code lblidx) }
{
    let t = lent::get_u16(
        program,
        tables::PROGRAM_LABELS + lblidx as usize * tables::INDEX_SIZE,
    ) as usize;
    if t == 0 {
        return Err(RuntimeErr::InvalidJump);
    }
    Ok(Loc {
        pos: t - 1,
        depth: loc.depth,
        calls: loc.calls,
    })
}

fn taken(kind: JmpOpKind, b: bool) -> bool
    ensures { result ≡ taken_of kind b }
{
    match kind {
        JmpOpKind::Jmpt => b,
        JmpOpKind::Jmpf => !b,
    }
}

fn branch(
    program: &[u8],
    state: &[u8],
    loc: Loc,
    kind: JmpOpKind,
    src: usize,
    lblidx: u64,
) -> Result<Loc, RuntimeErr>
    requires { ProgramReady program.now (program_in program.now) × Neat state.now × Holds state.now (view state.now loc) × (loc.pos ≤ 1024) × (src < 96) × (lblidx < 1024) }
    ensures { Stepped state.now state.now (Machine.branch (view state.now loc) (jmp_model kind) (Operation.full Rule.TyMismatch (regs_of state.now src) (λ v. Operation.truth v)) (label_at (program_in program.now).code lblidx)) result }
{
    let at = reg(src);
    if sifv::kind_at(state, at) != 3 {
        return Err(RuntimeErr::TyMismatch);
    }
    if taken(kind, sifv::truth_at(state, at)) {
        return jump(program, loc, lblidx);
    }
    Ok(on(loc))
}

fn declare(state: &mut [u8], loc: Loc, name: usize) -> Result<Loc, RuntimeErr>
    requires { Holds state.old (view state.old loc) × (loc.pos ≤ 1024) × (name < 64) }
    ensures { Stepped state.old state.new (Machine.Goes (Machine.advance (Machine.with_fn (view state.old loc) name))) result }
{
    lent::put_u16(
        state,
        stored::STATE_FUNCTIONS + name * tables::INDEX_SIZE,
        (loc.pos + 1) as u64,
    );
    Ok(on(loc))
}

// ---- `execute`

// The operation of the record at the position; code is its number.
pub fn execute(program: &[u8], state: &mut [u8], loc: Loc, code: u16) -> Result<Loc, RuntimeErr>
    requires { ProgramReady program.now (program_in program.now) × Canon (length (program_in program.now).code) state.old loc × (loc.pos < length (program_in program.now).code) × (code ≡ (record_at program.now loc.pos).code) }
    ensures { Stepped state.old state.new (Machine.step (program_in program.now) (view state.old loc)) result }
{
    let op = opc::fetch(program, code, loc.pos);
    match op {
        Op::Binary {
            kind,
            src1,
            src2,
            dest,
        } => {
            let got = binop(state, kind, src1, src2);
            loads(state, loc, dest, got)
        }
        Op::Unary { kind, src1, dest } => {
            let got = unop(state, kind, src1);
            loads(state, loc, dest, got)
        }
        Op::Ldc { dest, val } => {
            loadc(program, state, dest, val);
            Ok(on(loc))
        }
        Op::Ldn { dest, name } => stepped(loc, loadn(state, dest, name)),
        Op::Mv { src, dest } => {
            mv(state, src, dest);
            Ok(on(loc))
        }
        Op::Ldas { name, dest } => {
            let got = loadarrs(state, name);
            loads(state, loc, dest, got)
        }
        Op::Ldav {
            name,
            idx_reg,
            dest,
        } => {
            let got = loadarrv(state, name, idx_reg);
            loads(state, loc, dest, got)
        }
        Op::Upda {
            name,
            idx_reg,
            val_reg,
        } => stepped(loc, newarrv(state, name, idx_reg, val_reg)),
        Op::Stc { val, name } => {
            storec(program, state, val, name);
            Ok(on(loc))
        }
        Op::Stn { srcname, destname } => {
            store(state, slot(srcname), destname);
            Ok(on(loc))
        }
        Op::Str { src, name } => {
            store(state, reg(src), name);
            Ok(on(loc))
        }
        Op::JmpCnd { kind, src, lblidx } => branch(program, state, loc, kind, src, lblidx),
        Op::Jmpa { lblidx } => jump(program, loc, lblidx),
        Op::Incrr { src } => {
            let got = incrr(state, src);
            loads(state, loc, src, got)
        }
        Op::Decrr { src } => {
            let got = decrr(state, src);
            loads(state, loc, src, got)
        }
        Op::Fn {
            name,
            len: _,
            start: _,
        } => declare(state, loc, name),
        Op::Call {
            name,
            param_count: _,
        } => call(state, loc, name),
        Op::FnRet => ret(state, loc),
        Op::FnStackPush { src } => push(state, loc, src),
        Op::FnStackPop { dest } => pop(state, loc, dest),
        Op::Tbli { tabname, key, src } => stepped(loc, table::tbli(state, tabname, key, src)),
        Op::Tblg { tabname, key, dest } => stepped(loc, table::tblg(state, tabname, key, dest)),
        Op::Nop | Op::Stop => Ok(on(loc)),
        Op::Bad => Ok(loc),
    }
}

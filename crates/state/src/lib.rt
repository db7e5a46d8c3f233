// The state between calls: its check (10), its start, and what a run writes back.
#![tactic(auto)]

ghost use Rattle.std.specs.Prelude.{◌≡◌, ◌++◌, ◌≤◌, length, drop};
ghost use Rattle.std.proofs.Math.Option.{some};
ghost use Rattle.tables.specs.ProgramBytes.{decode_program};
ghost use Rattle.vm.specs.Machine as Machine;
ghost use Rattle.stored.specs.StateBytes.{encode_state, state_ok};
ghost use Rattle.execute.specs.inner.View.{Holds, view};
ghost use Rattle.execute.specs.inner.Progress.{state_of};
ghost use Rattle.state.specs.inner.Fields.{loc_at, progress_at, mark_of, place_ok, frame_ok, slots_ok, stack_ok, frames_ok, fns_ok, small_ok};
ghost use Rattle.tables.specs.ProgramBytes.{program_in};

use execute::{Loc, Progress};

// Position and depths.
fn loc_of(state: &[u8]) -> Loc
    requires { 47360 ≤ length state.now }
    ensures { result ≡ loc_at state.now }
{
    Loc {
        pos: lent::get_u16(state, stored::STATE_POSITION) as usize,
        depth: lent::get_u8(state, stored::STATE_STACK_DEPTH) as usize,
        calls: lent::get_u8(state, stored::STATE_CALLS_DEPTH) as usize,
    }
}

// How far the state's run is.
pub fn progress_of(state: &[u8]) -> Progress
    requires { 47360 ≤ length state.now }
    ensures { result ≡ progress_at state.now }
{
    Progress {
        loc: loc_of(state),
        count: lent::get_u64(state, stored::STATE_COUNT),
    }
}

// The mark of the names that are held, whose slots have a kind: bit x is text x.
fn mark_of(state: &[u8]) -> u64
    requires { 47360 ≤ length state.now }
    ensures { result ≡ mark_of state.now }
{
    let mut m: u64 = 0;
    for x in (0..lent::TEXTS).rev() {
        let held = state[stored::STATE_NAMES + x * sifv::VALUE_SIZE] != 0;
        m = 2 * m + held as u64;
    }
    m
}

// ---- the check (10), beside a program of n instructions

fn slots_ok(state: &[u8]) -> bool
    requires { 47360 ≤ length state.now }
    ensures { result ≡ slots_ok state.now }
{
    let mut ok = true;
    for i in 0..stored::STATE_SLOTS {
        ok = ok & sifv::slot_ok(state, i * sifv::VALUE_SIZE);
    }
    ok
}

fn place_ok(inside: bool, kind: u8) -> bool
    ensures { result ≡ place_ok inside kind }
{
    if inside {
        return kind != 0;
    }
    kind == 0
}

fn stack_ok(state: &[u8], depth: usize) -> bool
    requires { 47360 ≤ length state.now }
    ensures { result ≡ stack_ok state.now depth }
{
    let mut ok = true;
    for i in 0..stored::VALUE_STACK {
        ok = ok & place_ok(i < depth, state[stored::STATE_STACK + i * sifv::VALUE_SIZE]);
    }
    ok
}

fn frame_ok(inside: bool, pos: u64, n: u64) -> bool
    ensures { result ≡ frame_ok inside pos n }
{
    if inside {
        return pos < n;
    }
    pos == 0
}

// Frames, one by one.
fn each_frame_ok(state: &[u8], calls: usize, n: u64) -> bool
    requires { 47360 ≤ length state.now }
    ensures { result ≡ frames_ok state.now calls n }
{
    let mut ok = true;
    for i in 0..stored::CALL_STACK {
        let at = stored::STATE_CALLS + i * stored::FRAME_SIZE;
        ok = ok
            & (frame_ok(i < calls, lent::get_u16(state, at), n)
                & (lent::get_u16(state, at + 2) == 0));
    }
    ok
}

// Frames; where nothing is called, all are 0.
fn frames_ok(state: &[u8], calls: usize, n: u64) -> bool
    requires { 47360 ≤ length state.now }
    ensures { result ≡ frames_ok state.now calls n }
{
    let size = stored::STATE_FUNCTIONS - stored::STATE_CALLS;
    if (calls == 0) & lent::all_zero(state, stored::STATE_CALLS, size) {
        return true;
    }
    each_frame_ok(state, calls, n)
}

// Functions, one by one.
fn each_fn_ok(state: &[u8], n: u64) -> bool
    requires { 47360 ≤ length state.now }
    ensures { result ≡ fns_ok state.now n }
{
    let mut ok = true;
    for x in 0..lent::TEXTS {
        ok = ok & (lent::get_u16(state, stored::STATE_FUNCTIONS + x * tables::INDEX_SIZE) <= n);
    }
    ok
}

// Functions; where a program has none, all are 0.
fn fns_ok(state: &[u8], n: u64) -> bool
    requires { 47360 ≤ length state.now }
    ensures { result ≡ fns_ok state.now n }
{
    let size = stored::STATE_MARK - stored::STATE_FUNCTIONS;
    if lent::all_zero(state, stored::STATE_FUNCTIONS, size) {
        return true;
    }
    each_fn_ok(state, n)
}

// Depths, position, the bytes behind them.
fn small_ok(state: &[u8], n: u64) -> bool
    requires { 47360 ≤ length state.now }
    ensures { result ≡ small_ok n state.now }
{
    let loc = loc_of(state);
    (loc.depth <= stored::VALUE_STACK)
        & ((loc.calls <= stored::CALL_STACK)
            & ((lent::get_u16(state, stored::STATE_POSITION) <= n)
                & lent::all_zero(state, stored::STATE_REST, 12)))
}

// Whether the bytes are an accepted state. Every field is looked at.
pub fn state_ok(state: &[u8], n: u64) -> bool
    requires { (47360 ≤ length state.now) × (n ≤ 1024) }
    ensures { result ≡ state_ok n state.now }
{
    let loc = loc_of(state);
    let stacks = stack_ok(state, loc.depth) & frames_ok(state, loc.calls, n);
    let tables = fns_ok(state, n) & (mark_of(state) == lent::get_u64(state, stored::STATE_MARK));
    small_ok(state, n) & (stacks & (tables & slots_ok(state)))
}

// ---- after a run

// Mark, and the progress, which a run keeps elsewhere.
pub fn write_back(state: &mut [u8], p: Progress)
    requires { Holds state.old (view state.old p.loc) × (p.loc.depth ≤ 24) × (p.loc.calls ≤ 24) }
    ensures { state.new ≡ encode_state (state_of state.old p) ++ drop 47360 state.old }
{
    let loc = p.loc;
    lent::put_u64(state, stored::STATE_MARK, mark_of(state));
    lent::put_u64(state, stored::STATE_COUNT, p.count);
    lent::put_u16(state, stored::STATE_POSITION, loc.pos as u64);
    lent::put_u8(state, stored::STATE_STACK_DEPTH, loc.depth as u64);
    lent::put_u8(state, stored::STATE_CALLS_DEPTH, loc.calls as u64);
}

// ---- at the start

// The state of an accepted program that has not begun: its function table, and its first position.
pub fn start(program: &[u8], state: &mut [u8])
    requires { (40960 ≤ length program.now) × (47360 ≤ length state.old) × (decode_program program.now ≡ some (program_in program.now)) }
    ensures { state.new ≡ encode_state (Machine.started (program_in program.now)) ++ drop 47360 state.old }
{
    lent::clear(state, stored::STATE_USED);
    lent::copy(
        state,
        stored::STATE_FUNCTIONS,
        &program[tables::PROGRAM_FUNCTIONS..tables::PROGRAM_COUNT],
    );
    lent::put_u16(
        state,
        stored::STATE_POSITION,
        lent::get_u16(program, tables::PROGRAM_START),
    );
}

// The call run.
ghost use Rattle.std.specs.Prelude.{◌≡◌, true, ◌+◌, ◌≤◌, ◌<◌, ◌^◌, length};
ghost use Rattle.lent.specs.Lists.{is_some};
ghost use Rattle.lent.specs.inner.Answers.{answer_number};
ghost use Rattle.tables.specs.ProgramBytes.{decode_program, program_in};
ghost use Rattle.vm.specs.Machine as Machine;
ghost use Rattle.execute.specs.inner.View.{Canon};
ghost use Rattle.execute.specs.inner.ProgramView.{ProgramReady};
ghost use Rattle.execute.specs.inner.Progress.{state_of};
ghost use Rattle.boundary.specs.RunCall.{run_call};
ghost use Rattle.calls.specs.inner.Finished.{Finished, run_on};

use execute::Progress;
use lent::refusal::Refusal;
use run::Ran;

// At most so many steps on the used bytes of a state, which are then the state behind them.
fn run_used(program: &[u8], state: &mut [u8], n: usize, steps: u64, first: Progress) -> Ran
    requires { ProgramReady program.now (program_in program.now) × Canon n state.old first.loc × (n ≡ length (program_in program.now).code) × (first.count + steps < 2 ^ 64) × (length state.old ≡ 47360) }
    ensures { Finished (Machine.run (program_in program.now) steps (state_of state.old first)) first state.new result }
{
    let mut p = first;
    let answer = run::run(program, state, n, steps, &mut p);
    let last = p;
    state::write_back(state, last);
    Ran {
        answer,
        progress: last,
    }
}

// 10; at most so many steps, and the report.
fn run_on(program: &[u8], state: &mut [u8], steps: u64, report: &mut [u8]) -> Result<(), Refusal>
    requires { (40960 ≤ length program.now) × (65536 ≤ length state.old) × (48 ≤ length report.old) × (is_some (decode_program program.now) ≡ true) }
    ensures { run_on program.now state.old steps report.old ≡ record { result = answer_number result; state = state.new; report = report.new } }
{
    let n = program::count_of(program);
    if !state::state_ok(state, n as u64) {
        return Err(Refusal::StateRefused);
    }
    let first = state::progress_of(state);
    let count = first.count;
    if 18446744073709551615 - count < steps {
        return Err(Refusal::StateRefused);
    }
    let ran = run_used(program, &mut state[0..stored::STATE_USED], n, steps, first);
    let answer = ran.answer;
    let last = ran.progress;
    let loc = last.loc;
    let start = program::start_of(program) as u64;
    report::write_report(report, start, answer, loc.pos, last.count - count);
    Ok(())
}

// 9, 8, 10; at most so many steps.
pub fn run(program: &[u8], state: &mut [u8], steps: u64, report: &mut [u8]) -> Result<(), Refusal>
    ensures { run_call program.now state.old steps report.old ≡ record { result = answer_number result; state = state.new; report = report.new } }
{
    if program.len() < tables::PROGRAM_SIZE {
        return Err(Refusal::BufferTooShort);
    }
    if state.len() < stored::STATE_SIZE {
        return Err(Refusal::BufferTooShort);
    }
    if report.len() < vm::REPORT_SIZE {
        return Err(Refusal::BufferTooShort);
    }
    if !program::program_ok(program) {
        return Err(Refusal::ProgramRefused);
    }
    run_on(program, state, steps, report)
}

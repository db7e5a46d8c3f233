// The engine as C calls it: a slice is a pointer and a length.
#![tactic(auto)]

ghost use Rattle.std.specs.Prelude.{◌≡◌};
ghost use Rattle.lent.specs.Answered.{answered};
ghost use Rattle.boundary.specs.LowerCall.{lower_call};
ghost use Rattle.boundary.specs.StartCall.{start_call};
ghost use Rattle.boundary.specs.RunCall.{run_call};
ghost use Rattle.boundary.specs.ReadCall.{read_call};

use lent::refusal;

#[unsafe(no_mangle)]
pub extern "C" fn sif_lower(file: &[u8], program: &mut [u8]) -> u64
    ensures { answered result program.new ≡ lower_call file.now program.old }
{
    refusal::number_of(lower::lower(file, program))
}

#[unsafe(no_mangle)]
pub extern "C" fn sif_start(program: &[u8], state: &mut [u8]) -> u64
    ensures { start_call program.now state.old ≡ answered result state.new }
{
    refusal::number_of(calls::start_call::start(program, state))
}

#[unsafe(no_mangle)]
pub extern "C" fn sif_run(program: &[u8], state: &mut [u8], steps: u64, report: &mut [u8]) -> u64
    ensures { run_call program.now state.old steps report.old ≡ record { result = result; state = state.new; report = report.new } }
{
    refusal::number_of(calls::run_call::run(program, state, steps, report))
}

#[unsafe(no_mangle)]
pub extern "C" fn sif_read_name(state: &[u8], text: u64, out: &mut [u8]) -> u64
    ensures { read_call state.now text out.old ≡ answered result out.new }
{
    refusal::number_of(calls::read_call::read_name(state, text, out))
}

// The call start.
ghost use Rattle.std.specs.Prelude.{◌≡◌};
ghost use Rattle.lent.specs.Answered.{answered};
ghost use Rattle.lent.specs.inner.Answers.{answer_number};
ghost use Rattle.boundary.specs.StartCall.{start_call};

use lent::refusal::Refusal;

// 9, 8; a fresh state for the program.
pub fn start(program: &[u8], state: &mut [u8]) -> Result<(), Refusal>
    ensures { start_call program.now state.old ≡ answered (answer_number result) state.new }
{
    if program.len() < tables::PROGRAM_SIZE {
        return Err(Refusal::BufferTooShort);
    }
    if state.len() < stored::STATE_SIZE {
        return Err(Refusal::BufferTooShort);
    }
    if !program::program_ok(program) {
        return Err(Refusal::ProgramRefused);
    }
    state::start(program, state);
    Ok(())
}

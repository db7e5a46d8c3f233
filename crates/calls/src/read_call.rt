// The call read_name.
ghost use Rattle.std.specs.Prelude.{◌≡◌};
ghost use Rattle.lent.specs.Answered.{answered};
ghost use Rattle.lent.specs.inner.Answers.{answer_number};
ghost use Rattle.boundary.specs.ReadCall.{read_call};

use lent::refusal::Refusal;

// 9, 8, 10; the value of a name, in a slot's form.
pub fn read_name(state: &[u8], text: u64, out: &mut [u8]) -> Result<(), Refusal>
    ensures { read_call state.now text out.old ≡ answered (answer_number result) out.new }
{
    if state.len() < stored::STATE_SIZE {
        return Err(Refusal::BufferTooShort);
    }
    if out.len() < sifv::VALUE_SIZE {
        return Err(Refusal::BufferTooShort);
    }
    if 63 < text {
        return Err(Refusal::ProgramRefused);
    }
    if !state::state_ok(state, opc::INSTRUCTIONS as u64) {
        return Err(Refusal::StateRefused);
    }
    let at = stored::STATE_NAMES + text as usize * sifv::VALUE_SIZE;
    let end = at + sifv::VALUE_SIZE;
    lent::copy(out, 0, &state[at..end]);
    Ok(())
}

// The refusals (specs/Refusals.antt), and what a call answers: nothing is refused, or which refusal it is.
ghost use Rattle.std.specs.Prelude.{◌≡◌};
ghost use Rattle.lent.specs.inner.Answers.{refusal_number, answer_number};

#[derive(Clone, Copy, PartialEq, Eq, Debug)]
pub enum Refusal {
    FileCut = 1,
    FileCounts = 2,
    FileTexts = 3,
    FileStructure = 4,
    FileNumbers = 5,
    NoRegister = 6,
    ScriptTooLarge = 7,
    ProgramRefused = 8,
    BufferTooShort = 9,
    StateRefused = 10,
    ProgramFileRefused = 37,
    NumberNotFinite = 39,
}

impl Refusal {
    pub fn number(self) -> u64
        ensures { result ≡ refusal_number self }
    {
        self as u64
    }
}

// The number that C is answered with: 0 where nothing is refused.
pub fn number_of(answer: Result<(), Refusal>) -> u64
    ensures { result ≡ answer_number answer }
{
    match answer {
        Ok(()) => 0,
        Err(refusal) => refusal.number(),
    }
}

// What a call answers: it is done, or it is refused for one of these causes.
ghost use Rattle.std.specs.Prelude.{◌≡◌};
ghost use Rattle.primitives.specs.Answers.{refusal_number, answer_number};

// The number of a call that is done.
// It stays a number: no Refusal has it, and C and the results of a calls file take it.
pub const DONE: u8 = 0;

// The causes, each with its number.
#[derive(Clone, Copy, Debug, PartialEq, Eq)]
pub enum Refusal {
    UnsoundSettings = 1,
    UnsoundBooks = 2,
    ShortBuffer = 3,
    NoSuchValidator = 10,
    NotActive = 11,
    ExitBegun = 12,
    StatedEpochAhead = 13,
    ActiveTooShort = 14,
    PartialsWaiting = 15,
    BadSignature = 16,
    ConsolidationQueueFull = 20,
    ConsolidationChurnTooLow = 21,
    SourceIsTarget = 22,
    NoExecutionCredential = 23,
    AddressesDiffer = 24,
    WithdrawalsNotExpected = 30,
    ResultOverLimit = 40,
    ResultSumsOverBound = 41,
    ResultEpochOverBound = 42,
    ChurnZero = 50,
    BrokenFile = 60,
    WriterBufferShort = 61,
}

impl Refusal {
    pub fn number(self) -> u8
        ensures { result ≡ refusal_number self }
    {
        self as u8
    }
}

// 0 for a value, and the number of its cause for a refusal.
// The number stays beside the Result: C and the results of a calls file take it.
pub fn answer_number<T>(answer: &Result<T, Refusal>) -> u8
    ensures { result ≡ answer_number answer.now }
{
    match answer {
        Ok(_) => DONE,
        Err(refusal) => refusal.number(),
    }
}

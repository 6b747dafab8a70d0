// The answer of a call: by what was handed in, by its own tests, by the size of what it would leave. Every call decides
// all that can refuse it before its first store, and stores only when it is done.

#![tactic(auto)]

ghost use Rattle.primitives.specs.Answers.{answer_number};
ghost use Rattle.std.specs.Prelude.{◌≡◌};
ghost use Rattle.result_sizes.specs.Size.{size_number};

use primitives::answers::Refusal;

// The answer by what the three tests of a result's size said, in their order.
pub fn size_number(limits: bool, sums: bool, epochs: bool) -> Result<(), Refusal>
    ensures { answer_number result ≡ size_number limits sums epochs }
{
    if !limits {
        return Err(Refusal::ResultOverLimit);
    }
    if !sums {
        return Err(Refusal::ResultSumsOverBound);
    }
    if !epochs {
        return Err(Refusal::ResultEpochOverBound);
    }
    Ok(())
}

//! What a program in C is told: 0, or the number of what stood against its call.

ghost use Rattle.std.specs.Prelude.{◌≡◌, IfOk, OnErr};
ghost use Rattle.capi.specs.Refusals.{number_told};

use crate::refusal::Refusal;

/// The number of an answer.
pub fn number_of<T: Drop>(answer: Result<T, Refusal>) -> u32
    ensures { result ≡ number_told answer }
{
    answer.map_or_else(|refusal| refusal.number(), |_| 0)
}

/// Writes the value of an answer, where there is one, and gives its number.
pub fn tell(answer: Result<usize, Refusal>, value: &mut usize) -> u32
    ensures number { result ≡ number_told answer }
    ensures written { IfOk answer (λ v. value.new ≡ v) }
    ensures kept { OnErr answer (value.new ≡ value.old) }
{
    if let Ok(found) = answer {
        *value = found;
    }
    number_of(answer)
}

//! Answers, as a list has them.
ghost use Rattle.std.specs.Prelude.{◌≡◌, ℕ, pos};
ghost use Rattle.std.specs.Result.{MatchResult};

/// The number of an answer, 0 for acceptance, and what is given, or `zeros` where it is refused.
pub fn number_and_value<T: Drop, R: Into<u32>>(given: Result<T, R>, zeros: T) -> (i64, T)
    ensures { MatchResult given (λ value. result ≡ (pos 0, value)) (λ refusal. (number : ℕ) × R.Into.converts refusal number × result ≡ (pos number, zeros)) }
{
    match given {
        Ok(value) => (0, value),
        Err(refusal) => (i64::from(refusal.into()), zeros),
    }
}

/// The number of an answer without a value.
pub fn number_of<R: Into<u32>>(given: Result<(), R>) -> i64
    ensures { MatchResult given (λ _. result ≡ pos 0) (λ refusal. (number : ℕ) × R.Into.converts refusal number × result ≡ pos number) }
{
    number_and_value(given, ()).0
}

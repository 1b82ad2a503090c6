//! The worked cases of docs/SCOPE.md, of all layers, as one table: specs/ has it, and the single claim that every row holds, which is a
//! promise of the one function here.
#![tactic(auto)]

ghost use Rattle.std.specs.Prelude.{◌≡◌, length};
ghost use Rattle.worked_cases.specs.Cases.{cases, CasesHold};

/// How many rows the table has. That every one of them holds is the promise `hold`.
pub fn number_of_cases() -> usize
    ensures number { result ≡ length cases }
    ensures hold { CasesHold }
{
    20
}

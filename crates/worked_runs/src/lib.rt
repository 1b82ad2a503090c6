//! Runs of the drift figure and single steps, computed on both sides by the definitions: specs/ has them, and one function promises what they show.
#![tactic(auto)]

ghost use Rattle.std.specs.Prelude.{◌≡◌};
ghost use Rattle.worked_runs.specs.Runs.{TightUpTo, FigureMet, ListHolds};
ghost use Rattle.worked_runs.specs.Steps.{StepsHold};

/// Up to which picture it is proved that the drift figure cannot be made smaller, above or below. The runs that show it (`met`), a list with
/// field-based and refused steps (`list`) and single steps (`steps`) are promised beside it.
pub fn tight_pictures() -> u32
    ensures number { result ≡ 4 }
    ensures tight { TightUpTo result }
    ensures met { FigureMet }
    ensures list { ListHolds }
    ensures steps { StepsHold }
{
    4
}

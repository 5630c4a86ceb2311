//! What valid outcomes tell.
ghost use Rattle.certificate.specs.Outcomes.{HoldsTells, LostTells};

/// A valid `Holds` shows that the demand can be met, and a valid `Lost` that it can't. So no
/// question has valid outcomes of both kinds.
pub fn outcomes_tell()
    ensures holds { HoldsTells }
    ensures lost { LostTells }
{}

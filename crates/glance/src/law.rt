//! The log of what was published: its rule, its first stage, and the step that adds a stage.
use crate::shows::Shows;
use crate::stage::Stage;
use logbook::{Gain, Opening, Plain, Play, Rule};

/// The rule of the log. Its one word is the number of the last stage.
pub struct Law;

impl<E, B> Rule<Stage<E, B>, u64> for Law {
    ghost use Rattle.std.specs.Prelude.{[]};
    ghost use base.Fml.{ftrue};
    ghost use Rattle.glance.specs.Law.{IsKept};

    ghost holds = { λ cells log. IsKept cells log };

    ghost first = { [] };

    ghost hinted = { λ n log. Unit {0} };

    ghost shows = { λ log. [] };

    ghost keeps = { λ names log. ftrue };

    ghost moves = { λ ask before after answer. Unit {0} };
}

/// Nothing is traded at a step.
pub struct Nothing;

impl<E, B> Gain<Stage<E, B>, u64> for Nothing {
    ghost use base.Fml.{ftrue};

    ghost after = { λ names about answer. ftrue };
}

/// The log opens with the empty list at a value's base.
pub struct Open;

impl<T: Shows> Opening<T, Stage<T::Entry, T::Base>> for Open {
    ghost use Rattle.std.specs.Prelude.{[], ◌∷◌};
    ghost use Rattle.glance.specs.Stages.{stage_of};

    ghost log = { λ count of. stage_of (T.base_of of) [] ∷ [] };
}

/// A step that adds a value's list.
pub struct Add;

impl<E, B> Play<Stage<E, B>, u64> for Add {
    ghost use Rattle.glance.specs.Law.{Adds};

    ghost then = { Adds };
}

impl<T: Shows> Plain<T, Stage<T::Entry, T::Base>, u64> for Add {
    ghost use Rattle.std.specs.Prelude.{None};
    ghost use Rattle.glance.specs.Stages.{stage_of};

    ghost ask = { λ of. stage_of (T.base_of of) (T.entries of) };

    ghost state = { λ of. None };
}

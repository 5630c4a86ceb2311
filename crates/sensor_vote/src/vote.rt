//! The rounds of references, and what is answered to each reference.
ghost use Rattle.std.specs.Prelude.{◌≡◌, ◌≤◌, ◌<◌, ◌++◌, ◌∷◌, [], List, IsTrue};
ghost use Rattle.std.specs.List.{list_all};
ghost use Rattle.sensor_vote.specs.Laws.{IsBetweenOthers, MarksTheFar};
ghost use Rattle.sensor_vote.specs.References.{IsReference, has_heading};
ghost use Rattle.sensor_vote.specs.Rounds.{StandsFor, answer_of, is_ending, is_unfinished, is_whole};
ghost use Rattle.sensor_vote.specs.Rounds.{round_at, round_of, voted};
ghost use Rattle.sensor_vote.specs.declared.reference.Reference.{Reference};

use crate::median::{is_off, median_of};
use crate::reference::{REFERENCES, Reference};
use plant_model::limits::WHOLE_TURN;
use std::marker::Model;

/// What is answered to a reference.
#[derive(Clone, Copy, Debug, PartialEq, Eq)]
pub enum Voted {
    /// Its round waits for others.
    Waiting,
    /// Its round has a reference of its number already.
    Twice,
    /// A later round has begun, or its own round has all its references; the latest moment.
    Late {
        last: u32,
    },
    /// It is its round's last: where the vessel is, in cm and centidegrees, as the three say together,
    /// and of each of the three, by its number, whether it is bad.
    Round {
        moment: u32,
        x: i32,
        y: i32,
        heading: u32,
        bad: [bool; 3],
    },
}

/// Takes references one by one, and answers each.
///
/// Contracts see what it keeps of those that it took: the latest moment, and the references of its
/// round.
#[derive(Debug, Drop)]
pub struct Vote {
    last: u32,
    round: [Option<Reference>; REFERENCES as usize],
}

impl Model for Vote {
    ghost use Rattle.std.specs.Prelude.{IsTrue};
    ghost use Rattle.std.specs.List.{list_all};
    ghost use Rattle.sensor_vote.specs.References.{has_heading};
    ghost use Rattle.sensor_vote.specs.Rounds.{Kept};

    ghost Value = { Kept };

    ghost view = { λ vote. record { last = vote.last; round = vote.round } };

    ghost invariant = { λ vote. IsTrue (list_all has_heading vote.round) };
}

/// What is answered to a round's last reference.
fn round_of(moment: u32, a: &Reference, b: &Reference, c: &Reference) -> Voted
    requires first { a.now.heading < WHOLE_TURN }
    requires second { b.now.heading < WHOLE_TURN }
    requires third { c.now.heading < WHOLE_TURN }
    ensures { result ≡ round_of moment a.now b.now c.now }
{
    let median = median_of(a, b, c);
    Voted::Round {
        moment,
        x: median.x,
        y: median.y,
        heading: median.heading,
        bad: [is_off(&median, a), is_off(&median, b), is_off(&median, c)],
    }
}

/// What is answered to the reference that makes the round this.
fn answer(moment: u32, round: &[Option<Reference>; REFERENCES as usize]) -> Voted
    requires { IsTrue (list_all has_heading round.now) }
    ensures { result ≡ answer_of moment round.now }
{
    match round {
        [Some(a), Some(b), Some(c)] => round_of(moment, a, b, c),
        _ => Voted::Waiting,
    }
}

/// Whether all references of the round have come.
fn is_whole(round: &[Option<Reference>]) -> bool
    ensures { result ≡ is_whole round.now }
{
    round.iter().all(|place| place.is_some())
}

impl Vote {
    /// A vote that took nothing.
    pub fn new() -> Vote
        ensures { StandsFor result [] }
    {
        Vote {
            last: 0,
            round: [None; REFERENCES as usize],
        }
    }

    /// Takes a reference, which is within its ranges, and answers it.
    pub fn take(&mut self, reference: Reference) -> Voted
        requires { IsReference reference }
        ensures answer { (taken : List Reference) → StandsFor self.old taken
            → result ≡ voted taken reference }
        ensures stands { (taken : List Reference) → StandsFor self.old taken
            → StandsFor self.new (taken ++ reference ∷ []) }
    {
        if reference.moment < self.last {
            return Voted::Late { last: self.last };
        }
        let mut round = self.round_from(reference.moment);
        if is_whole(&round) {
            return Voted::Late { last: self.last };
        }
        let place = reference.number as usize - 1;
        if round[place].is_some() {
            return Voted::Twice;
        }
        round[place] = Some(reference);
        self.last = reference.moment;
        self.round = round;
        answer(reference.moment, &round)
    }

    /// The round of this moment, which isn't before the latest: empty where it is later.
    fn round_from(&self, moment: u32) -> [Option<Reference>; REFERENCES as usize]
        requires { self.now.last ≤ moment }
        ensures round { (taken : List Reference) → StandsFor self.now taken
            → result ≡ round_at moment taken }
        ensures headings { IsTrue (list_all has_heading result) }
    {
        if self.last < moment {
            [None; REFERENCES as usize]
        } else {
            self.round
        }
    }

    /// Whether a round stands that has a reference, and not all.
    pub fn unfinished(&self) -> bool
        ensures { (taken : List Reference) → StandsFor self.now taken
            → result ≡ is_unfinished taken }
    {
        self.round.iter().any(|place| place.is_some()) && !is_whole(&self.round)
    }

    /// Whether a reference of this moment begins a round, and so ends one that isn't finished.
    pub fn ends_unfinished(&self, moment: u32) -> bool
        ensures { (taken : List Reference) → StandsFor self.now taken
            → result ≡ is_ending taken moment }
    {
        self.last < moment && self.unfinished()
    }
}

impl Default for Vote {
    ghost is_default = { λ vote. StandsFor vote [] };

    fn default() -> Self {
        Self::new()
    }
}

/// One bad reference moves nothing outside of what the two others say: whatever three references say,
/// their answer lies between any two of them along each axis, and, where the headings of the two are
/// less than a third of a turn apart, on the shorter way from one heading to the other. And a
/// reference is bad exactly where it is more than 5 m or more than 3 degrees off. Calling it does
/// nothing.
pub fn one_bad_reference_moves_nothing_outside()
    ensures between { IsBetweenOthers }
    ensures marks { MarksTheFar }
{}

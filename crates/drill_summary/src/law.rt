//! Laws of the histories of two streams.
ghost use Rattle.drill_summary.specs.Laws.{DrillsAreOne, SensorsAreApart, SummariesAreOne};
ghost use Rattle.drill_summary.specs.Laws.{SwitchesAreApart};

/// What sensors and operators make of the machine depends on their own calls alone, in every history in which the
/// operators give no order of mode, set point or manual demand: positions and winds make the demand, the controller's
/// state and the moments by which the next are judged, and switches make how the plant is switched. Calling it does
/// nothing.
pub fn parts_are_apart()
    ensures sensors { SensorsAreApart }
    ensures switches { SwitchesAreApart }
{}

/// All legal histories of two such streams come to the same summary, however their entries and those of others, which
/// publish verdicts or end the session, are interleaved. Calling it does nothing.
pub fn summaries_are_one()
    ensures { SummariesAreOne }
{}

/// All legal histories of a drill come to the same summary. Calling it does nothing.
pub fn drills_are_one()
    ensures { DrillsAreOne }
{}

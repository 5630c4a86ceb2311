//! What a session reads of a drill's streams.
ghost use Rattle.drill_streams.specs.Laws.{DrillsAreRead};

/// The law of drills. Each stream is read as its telegrams, of which the sensors' are positions and winds, one for
/// each step, and the operators' switches of parts, one for each hundredth step. A frame has at most 40 bytes.
/// Calling it does nothing.
pub fn drills_are_read()
    ensures { DrillsAreRead }
{}

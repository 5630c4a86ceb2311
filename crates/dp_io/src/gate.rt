//! The stages of a session, and who is told of them.

/// A moment of a session. The number is that of the caller.
#[derive(Clone, Copy, Debug, PartialEq, Eq)]
pub enum Stage {
    /// A loop is about to make a call for an item.
    Item(u32),
    /// A caller has drawn its ticket for the turn.
    Drawn(u32),
    /// A caller has its answer.
    Answered(u32),
    /// A worker has taken a job.
    JobTaken(u32),
}

/// Who is told of the stages of a session. It changes no answer; a test holds callers back with it.
pub trait Gate {
    fn reached(&self, stage: Stage);
}

/// A gate that does nothing.
#[derive(Clone, Copy, Debug)]
pub struct NoGate;

impl Gate for NoGate {
    fn reached(&self, _stage: Stage) {}
}

impl<T: Gate> Gate for &T {
    fn reached(&self, stage: Stage) {
        (**self).reached(stage);
    }
}

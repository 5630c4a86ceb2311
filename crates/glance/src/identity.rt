//! What tells displays from others.

/// What tells the displays of one `Glance` from any others. No value of it is made.
pub struct Identity {
    pub number: u64,
    pub log: u64,
    pub cells: u64,
}

//! What a position reference says.

/// The references of a vessel, which are numbered from 1.
pub const REFERENCES: u32 = 3;

/// Where the vessel is, as one of its references says: to the north and to the east of the origin, in
/// cm, and its heading, in centidegrees. The moment is in ms.
#[derive(Clone, Copy, Debug, PartialEq, Eq)]
pub struct Reference {
    pub moment: u32,
    /// Which reference says so, 1 to [`REFERENCES`].
    pub number: u32,
    pub x: i32,
    pub y: i32,
    pub heading: u32,
}

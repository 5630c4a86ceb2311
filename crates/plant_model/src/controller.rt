//! What a plant says of its control loop and of the wind on its hull.

/// The gains of one axis of the controller.
#[derive(Clone, Copy, Debug, Default, PartialEq, Eq)]
pub struct Gains {
    /// Thousandths of the output for each unit of the error.
    pub kp: u32,
    /// Millionths of the output for each unit of the summed error.
    pub ki: u32,
    /// Thousandths of the output for each unit of the error's rate.
    pub kd: u32,
    /// The greatest size of the summed error, either way.
    pub limit: u64,
}

/// The wind coefficients at one angle: what the wind's force and moment are, in millionths, for each
/// square of a dm/s.
#[derive(Clone, Copy, Debug, Default, PartialEq, Eq)]
pub struct WindRow {
    pub x: i32,
    pub y: i32,
    pub n: i32,
}

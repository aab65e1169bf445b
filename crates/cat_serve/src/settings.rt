//! How a session tries and collects.

/// What a server is set to.
#[derive(Clone, Copy, Drop)]
pub struct Settings {
    /// How often a call is tried on a branch that others move: 1 to 64 times.
    pub attempts: u32,
    /// How many workers mark what a collection keeps: 1 to 64.
    pub markers: u32,
}

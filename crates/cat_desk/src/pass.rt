//! A caller's pass, and the value while it is lent.
use crate::view::View;
use atomic_table::{Badge, Seat};
use cat_model::logged::Logged;

/// What one caller carries between its turns. It must be spent: joined, closed with, or given up.
pub struct Pass {
    pub(crate) number: u32,
    pub(crate) spare: u32,
    pub(crate) badge: Badge<View>,
}

/// The value, in its caller's turn. It must be given back.
pub struct Held<V: Logged> {
    /// The value, which the caller may change as `Desk::leave` asks.
    pub value: V,
    pub(crate) seat: Seat<Option<V>, View>,
    pub(crate) ticket: u64,
}

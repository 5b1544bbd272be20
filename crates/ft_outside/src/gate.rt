//! The gate that each item passes before its check in parallel.

/// Is entered once for each item, before the item's check. Its calls promise nothing.
pub trait Gate {
    fn enter(&self, item: u64);
}

/// The gate that does nothing.
#[derive(Clone, Copy, Debug, Drop, PartialEq, Eq)]
pub struct NoGate;

impl Gate for NoGate {
    fn enter(&self, _item: u64) {}
}

//! The limits of what is read and formed.

/// The most bytes that a source may have.
pub const MAX_SOURCE_BYTES: u64 = 1_048_576;

/// The most bytes that a derivation file may have.
pub const MAX_DERIVATION_BYTES: u64 = 67_108_864;

/// The deepest nesting of a source's parts.
pub const MAX_NESTING: u64 = 200;

/// The greatest depth of a small expression.
pub const MAX_DEPTH: u64 = 1_000;

/// The greatest size of a small expression.
pub const MAX_SIZE: u64 = 65_536;

/// The most binders of an argument in a small expression.
pub const MAX_BINDERS: u64 = 4_294_967_295;

/// Each bound number in a small expression is below this one.
pub const BOUND_NUMBER_END: u64 = 18_446_744_073_709_551_615;

/// The most rules of a theory.
pub const MAX_RULES: u64 = 65_536;

/// The greatest number in a source.
pub const MAX_SOURCE_NUMBER: u64 = 65_535;

/// The greatest number in a derivation file.
pub const MAX_DERIVATION_NUMBER: u64 = 18_446_744_073_709_551_615;

/// The greatest budget, in units.
pub const MAX_BUDGET: u64 = 1_000_000_000;

/// The budget where none is given, in units.
pub const DEFAULT_BUDGET: u64 = 1_000_000;

/// The greatest number for which a sample source is made.
pub const MAX_SAMPLE: u64 = 5_000;

/// The most rows of a table of expressions that are compared one after the other when a row is looked for.
pub const MAX_CHAIN: usize = 32;

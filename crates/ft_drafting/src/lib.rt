//! What the commands that declare rules ask of a state: boundaries, variables bound in them, and
//! rules that are drafted premise by premise.
#![tactic(auto)]

mod answered;
mod binding;
mod boundaries;
mod called;
mod drafting;
mod laws;
mod stops;

pub use binding::{Bound, abstract_all, generic};
pub use boundaries::{boundary_term, boundary_terms, boundary_type, boundary_types};
pub use drafting::{add_premise, begin, finish};
pub use laws::{bound_stay_further, drafts_stay_further};
pub use stops::Stop;

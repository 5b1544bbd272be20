//! Tests of the calls of the nucleus and of what a run tells.

#![tactic(auto)]

#[cfg(test)]
mod applying;
#[cfg(test)]
mod calls;
#[cfg(test)]
mod drafting;
#[cfg(test)]
mod faults;
#[cfg(test)]
mod lines;
#[cfg(test)]
mod naming;
#[cfg(test)]
mod places;
#[cfg(test)]
mod script;
pub mod stop;
#[cfg(test)]
mod theories;
#[cfg(test)]
mod told;

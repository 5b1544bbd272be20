//! Tests of the types of the whole language.

#![tactic(auto)]

#[cfg(test)]
mod accepted;
#[cfg(test)]
mod deep;
#[cfg(test)]
mod faults;
#[cfg(test)]
mod refused;

//! Tests of the whole language by sources: a source and a budget in, a transcript and a status out.

#![tactic(auto)]

#[cfg(test)]
mod budgets;
#[cfg(test)]
mod bytes;
#[cfg(test)]
mod deep;
#[cfg(test)]
mod forms;
#[cfg(test)]
mod fronts;
#[cfg(test)]
mod handling;
#[cfg(test)]
mod refused;
#[cfg(test)]
mod rules;
#[cfg(test)]
mod theories;
#[cfg(test)]
mod transcript;
#[cfg(test)]
mod types;
#[cfg(test)]
mod words;

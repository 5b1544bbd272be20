//! Tests of the whole program by texts: words and an input in, a text and a status out.

#![tactic(auto)]

#[cfg(test)]
mod called;
#[cfg(test)]
mod files;
#[cfg(test)]
mod lines;
#[cfg(test)]
mod long;
#[cfg(test)]
mod rules;
#[cfg(test)]
mod sides;
#[cfg(test)]
mod sources;
#[cfg(test)]
mod steps;
#[cfg(test)]
mod streams;
#[cfg(test)]
mod told;

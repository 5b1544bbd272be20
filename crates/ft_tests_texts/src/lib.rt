//! Tests of names, texts, tokens and the trees of the whole language.

#![tactic(auto)]

#[cfg(test)]
mod names;
#[cfg(test)]
mod outline;
#[cfg(test)]
mod tokens;
#[cfg(test)]
mod trees;

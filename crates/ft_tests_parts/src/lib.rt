//! Tests of calls that no text reaches through the program: sets, tables, statements, streams, items, lines and sessions.

#![tactic(auto)]

#[cfg(test)]
mod items;
#[cfg(test)]
mod kernel;
#[cfg(test)]
mod sets;
#[cfg(test)]
mod statements;
#[cfg(test)]
mod steps;
#[cfg(test)]
mod streams;
#[cfg(test)]
mod tables;

//! Tests of the words of the command line: words in, and what they ask for out.

#![tactic(auto)]

#[cfg(test)]
mod words;

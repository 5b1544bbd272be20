//! What waits for a value while an expression is evaluated.

use ft_grammar::{Ast, Case, Named, OneForm, OpCase, TwoForm, ValCase};
use ft_kernel::{J, RuleId, V};
use ft_values::{Scope, Value};

/// What is made of two values. A word before two expressions has its place and that of the second.
#[derive(Clone, Copy, Drop)]
pub enum Pairing<'a> {
    Cons,
    Pair,
    Word(u64, u64, TwoForm),
    Congruence(u64, &'a Named),
}

/// The arguments of a rule: the place of the call, those that are there, the place of the one whose
/// value is waited for, and those after it.
#[derive(Drop)]
pub struct Arguments<'a> {
    pub at: u64,
    pub rule: RuleId,
    pub given: Vec<J>,
    pub place: u64,
    pub rest: &'a [Ast],
}

/// What is done with a value.
#[derive(Drop)]
pub enum Work<'a> {
    /// The body of `let`.
    Let(&'a Named, &'a Ast),
    /// The two branches of `if`.
    Branches(&'a Ast, &'a Ast),
    /// The cases of a `match` at a place.
    Cases(u64, &'a [Case]),
    /// A `handle` without a case for values, and one with it.
    Handle(&'a [OpCase]),
    HandleValue(&'a ValCase, &'a [OpCase]),
    /// The body of an abstraction, whose type is waited for; and its variable, where it is the
    /// body.
    Domain(u64, &'a Named, &'a Ast),
    Bind(u64, V),
    /// The second of two expressions; and the value of the first, where it is the second.
    Second(Pairing<'a>, &'a Ast),
    Both(Pairing<'a>, Value),
    Word(u64, OneForm),
    Argument(u64, u64),
    Perform(u64, &'a Named),
    Premise(Arguments<'a>),
    /// The terms that are put into what is waited for; and what a term is put into, with those
    /// after it.
    Terms(u64, &'a [Ast]),
    Term(u64, Value, &'a [Ast]),
}

/// What waits for a value, and the scope in which it was begun.
#[derive(Drop)]
pub struct Frame<'a> {
    pub scope: Scope,
    pub work: Work<'a>,
}

/// What comes next: a value is given; an expression is evaluated in a scope; or one is evaluated in
/// the scope of a frame that waits for its value.
#[derive(Drop)]
pub enum Turn<'a> {
    Give(Value),
    Evaluate(&'a Ast, Scope),
    Await(&'a Ast, Frame<'a>),
}

//! What is done with a value that was waited for.

ghost use Rattle.std.specs.Prelude.{◌≡◌, ◌∷◌, ◌++◌, [], IfOk, OnOk, map};
ghost use Rattle.ft_meaning.specs.Trees.{form, forms, cases};
ghost use Rattle.ft_meaning.specs.Forms.{branch, first_match};
ghost use Rattle.ft_meaning.proofs.Written.{case};
ghost use Rattle.ft_running.specs.Evaluation.{Evaluation, run_of, environment_of, value_over};
ghost use Rattle.ft_running.specs.Evaluation.{IsValueOf, IsScopeIn, GoesFurther};
ghost use Rattle.ft_apply.specs.Named.{AreThesesOf};
ghost use Rattle.ft_running.specs.Asked.{IsRuleOf};
ghost use Rattle.ft_eval.specs.Asking.{AsksNothing, AskNothing, CasesAskNothing};
ghost use Rattle.ft_eval.specs.Fits.{WorkFits, TurnFits, PairingAsksNothing};
ghost use Rattle.ft_eval.specs.Frames.{value_of, made, argued, abstracted, follows, turned};
ghost use Rattle.ft_eval.specs.Frames.{filled, filled_in, TurnsInto};
ghost use Rattle.ft_eval.specs.Turns.{turn_left};

use crate::entering::{apply, give, wait};
use crate::frames::{Arguments, Pairing, Turn, Work};
use ft_base::Memory;
use ft_grammar::{Ast, Case, Named};
use ft_kernel::J;
use ft_running::{End, State};
use ft_telling::Why;
use ft_values::{Scope, Value};

/// A value is given to the work that waits for it in a scope.
pub fn resume<'a>(
    state: &mut State,
    scope: Scope,
    work: Work<'a>,
    v: Value,
) -> Result<Turn<'a>, End>
    requires scope { IsScopeIn state.old scope }
    requires work { WorkFits state.old work }
    requires value { IsValueOf state.old v }
    ensures turns { TurnsInto
        (follows state.old work.entry (environment_of state.old scope)
        (value_over state.old v) (run_of state.old))
        result state.new }
    ensures further { GoesFurther state.old state.new }
    ensures fits { IfOk result (λ t. TurnFits state.new t) }
{
    match work {
        Work::Let(x, f) => within(state, scope, x, v, f),
        Work::Branches(f, g) => branch(state, scope, f, g, v),
        Work::Cases(at, cs) => first_match(state, scope, at, cs, v),
        Work::Handle(_) => Ok(Turn::Give(v)),
        Work::HandleValue(c, _) => within(state, scope, &c.name, v, c.body.get()),
        Work::Domain(at, x, f) => abstraction(state, scope, at, x, f, v),
        Work::Bind(at, y) => give(state.abstract_value(at, y, v)),
        Work::Second(p, f) => Ok(wait(state, f, scope, Work::Both(p, v))),
        Work::Both(p, first) => made(state, p, first, v),
        Work::Word(at, word) => give(state.word(at, word, v)),
        Work::Argument(at, i) => give(state.argument(at, i, v)),
        Work::Perform(at, op) => Err(state.perform(&op.name, v, at)),
        Work::Premise(arguments) => premise(state, scope, arguments, v),
        Work::Terms(at, rest) => Ok(put(state, scope, at, v, rest)),
        Work::Term(at, into, rest) => term(state, scope, at, into, rest, v),
    }
}

/// An expression in which a name stands for a value.
pub fn within<'a>(
    state: &mut State,
    scope: Scope,
    x: &Named,
    v: Value,
    e: &'a Ast,
) -> Result<Turn<'a>, End>
    requires scope { IsScopeIn state.old scope }
    requires value { IsValueOf state.old v }
    requires asks { AsksNothing (form e.now) }
    ensures turns { TurnsInto
        (value_of e.now
        ((x.now.name, value_over state.old v) ∷ environment_of state.old scope)
        (run_of state.old))
        result state.new }
    ensures further { GoesFurther state.old state.new }
    ensures fits { IfOk result (λ t. TurnFits state.new t) }
    ensures evaluates { IfOk result (λ t. turn_left t ≡ 0) }
{
    let inner = state.bind(scope, &x.name, v)?;
    Ok(Turn::Evaluate(e, inner))
}

// The branch that a truth value chooses.
fn branch<'a>(
    state: &mut State,
    scope: Scope,
    f: &'a Ast,
    g: &'a Ast,
    v: Value,
) -> Result<Turn<'a>, End>
    requires scope { IsScopeIn state.old scope }
    requires value { IsValueOf state.old v }
    requires asks { AsksNothing (form f.now) × AsksNothing (form g.now) }
    ensures turns { TurnsInto
        (branch (value_over state.old v)
        (value_of f.now (environment_of state.old scope))
        (value_of g.now (environment_of state.old scope)) (run_of state.old))
        result state.new }
    ensures further { GoesFurther state.old state.new }
    ensures fits { IfOk result (λ t. TurnFits state.new t) }
{
    match state.truth(v) {
        Some(true) => Ok(Turn::Evaluate(f, scope)),
        Some(false) => Ok(Turn::Evaluate(g, scope)),
        None => Err(End::halts(0, Why::Stuck)),
    }
}

// The body of the first case whose pattern matches.
fn first_match<'a>(
    state: &mut State,
    scope: Scope,
    at: u64,
    cs: &'a [Case],
    v: Value,
) -> Result<Turn<'a>, End>
    requires scope { IsScopeIn state.old scope }
    requires value { IsValueOf state.old v }
    requires asks { CasesAskNothing (cases (map case cs.now)) }
    ensures turns { TurnsInto
        (first_match at (cases (map case cs.now)) (value_over state.old v)
        (environment_of state.old scope) (run_of state.old))
        result state.new }
    ensures further { GoesFurther state.old state.new }
    ensures fits { IfOk result (λ t. TurnFits state.new t) }
{
    state.holds();
    for c in cs {
        match state.matches(at, &c.pattern, v, scope) {
            Ok(Some(inner)) => return Ok(Turn::Evaluate(c.body.get(), inner)),
            Ok(None) => {}
            Err(halt) => return Err(End::Halts(halt)),
        }
    }
    Err(End::halts(at, Why::NoMatch))
}

// The body of an abstraction, over a new variable of the type.
#[tactic(auto, using(crate::proofs::Waiting::waits_bind))]
fn abstraction<'a>(
    state: &mut State,
    scope: Scope,
    at: u64,
    x: &'a Named,
    f: &'a Ast,
    v: Value,
) -> Result<Turn<'a>, End>
    requires scope { IsScopeIn state.old scope }
    requires value { IsValueOf state.old v }
    requires asks { AsksNothing (form f.now) }
    ensures turns { TurnsInto
        (abstracted at x.now.name f.now (environment_of state.old scope)
        (value_over state.old v) (run_of state.old))
        result state.new }
    ensures further { GoesFurther state.old state.new }
    ensures fits { IfOk result (λ t. TurnFits state.new t) }
{
    state.holds();
    match state.new_term(at, &x.name, v) {
        Ok((y, j)) => {
            let inner = state.bind(scope, &x.name, j)?;
            Ok(wait(state, f, inner, Work::Bind(at, y)))
        }
        Err(end) => Err(end),
    }
}

// What is made of two values.
fn made<'a>(state: &mut State, pairing: Pairing<'a>, v: Value, w: Value) -> Result<Turn<'a>, End>
    requires first { IsValueOf state.old v }
    requires second { IsValueOf state.old w }
    requires asks { PairingAsksNothing pairing }
    ensures turns { TurnsInto
        (made pairing.entry (value_over state.old v) (value_over state.old w) (run_of state.old))
        result state.new }
    ensures further { GoesFurther state.old state.new }
    ensures fits { IfOk result (λ t. TurnFits state.new t) }
{
    match pairing {
        Pairing::Cons => Ok(Turn::Give(state.keep_cons(v, w)?)),
        Pairing::Pair => Ok(Turn::Give(state.keep_pair(v, w)?)),
        Pairing::Word(at, second, word) => give(state.word_of_two(at, second, word, v, w)),
        Pairing::Congruence(at, r) => give(state.congruence(at, &r.name, v, w)),
    }
}

// A rule at one more argument, which is to fit the next boundary.
fn premise<'a>(
    state: &mut State,
    scope: Scope,
    arguments: Arguments<'a>,
    v: Value,
) -> Result<Turn<'a>, End>
    requires scope { IsScopeIn state.old scope }
    requires value { IsValueOf state.old v }
    requires rule { IsRuleOf state.old arguments.rule }
    requires given { AreThesesOf state.old.list arguments.given.items }
    requires asks { AskNothing (forms (map form arguments.rest.now)) }
    ensures turns { TurnsInto
        (argued state.old arguments.entry (environment_of state.old scope) (value_over state.old v)
        (run_of state.old))
        result state.new }
    ensures further { GoesFurther state.old state.new }
    ensures fits { IfOk result (λ t. TurnFits state.new t) }
{
    let Arguments {
        at,
        rule,
        mut given,
        place,
        rest,
    } = arguments;
    state.holds();
    match state.next_argument(place, rule, &given, v) {
        Ok(j) => {
            push(&mut given, j)?;
            apply(state, scope, at, rule, given, rest)
        }
        Err(end) => Err(end),
    }
}

// One more judgement.
fn push(given: &mut Vec<J>, j: J) -> Result<(), Memory>
    ensures { OnOk result (given.new.items ≡ given.old.items ++ j ∷ []) }
{
    given.push(j)?;
    Ok(())
}

// Terms that are put into a value, one after the other.
#[tactic(auto, using(crate::proofs::Waiting::waits_term, crate::proofs::Terms::forms_parts, crate::proofs::Terms::first_asks))]
fn put<'a>(state: &State, scope: Scope, at: u64, v: Value, terms: &'a [Ast]) -> Turn<'a>
    requires scope { IsScopeIn state.now scope }
    requires value { IsValueOf state.now v }
    requires asks { AskNothing (forms (map form terms.now)) }
    ensures turns { filled at terms.now (environment_of state.now scope) (value_over state.now v)
        (run_of state.now) ≡ turned state.now result }
    ensures fits { TurnFits state.now result }
{
    match terms {
        [] => Turn::Give(v),
        [next, rest @ ..] => wait(state, next, scope, Work::Term(at, v, rest)),
    }
}

// A term is put into a value, and further ones after it.
fn term<'a>(
    state: &mut State,
    scope: Scope,
    at: u64,
    into: Value,
    rest: &'a [Ast],
    v: Value,
) -> Result<Turn<'a>, End>
    requires scope { IsScopeIn state.old scope }
    requires into { IsValueOf state.old into }
    requires value { IsValueOf state.old v }
    requires asks { AskNothing (forms (map form rest.now)) }
    ensures turns { TurnsInto
        (filled_in at (value_over state.old into) rest.now (environment_of state.old scope)
        (value_over state.old v) (run_of state.old))
        result state.new }
    ensures further { GoesFurther state.old state.new }
    ensures fits { IfOk result (λ t. TurnFits state.new t) }
{
    state.holds();
    match state.substitute(at, into, v) {
        Ok(w) => Ok(put(state, scope, at, w, rest)),
        Err(end) => Err(end),
    }
}

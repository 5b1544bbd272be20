//! Going into an expression.

ghost use Rattle.std.specs.Prelude.{◌≡◌, ◌≤◌, ◌+◌, ◌++◌, [], IfOk, OnOk, map, ℕ, Some};
ghost use Rattle.ft_apply.specs.Named.{AreThesesOf};
ghost use Rattle.ft_meaning.specs.Trees.{form, forms, handlers, value_case_of};
ghost use Rattle.ft_meaning.specs.Trees.{one, two, handle_with, call};
ghost use Rattle.ft_meaning.specs.Values.{Run, Outcome, Value as AnyValue};
ghost use Rattle.ft_meaning.specs.Forms.{value_or_rule};
ghost use Rattle.ft_meaning.proofs.Written.{handler, value};
ghost use Rattle.ft_running.specs.Evaluation.{Evaluation, run_of, environment_of};
ghost use Rattle.ft_running.specs.Evaluation.{IsValueOf, value_over, IsScopeIn, GoesFurther};
ghost use Rattle.ft_running.specs.Telling.{TellsValue};
ghost use Rattle.ft_running.specs.Asked.{IsRuleOf, judgements_of};
ghost use Rattle.ft_eval.specs.Asking.{AsksNothing, AskNothing};
ghost use Rattle.ft_eval.specs.Begun.{begun};
ghost use Rattle.ft_eval.specs.Fits.{WorkFits, TurnFits, PairingAsksNothing};
ghost use Rattle.ft_eval.specs.Frames.{value_of, passed_by, turned, TurnsInto, both_of, applied_to};
ghost use Rattle.ft_eval.specs.Frames.{rule_called};

use crate::frames::{Arguments, Frame, Pairing, Turn, Work};
use crate::places::place_of;
use ft_grammar::{Ast, Named, OneForm, OpCase, TwoForm, ValCase};
use ft_kernel::{J, RuleId};
use ft_running::{End, State};
use ft_telling::Why;
use ft_values::{Scope, Value};

/// An expression is evaluated, and this work waits for its value.
pub fn wait<'a>(state: &State, e: &'a Ast, scope: Scope, work: Work<'a>) -> Turn<'a>
    requires scope { IsScopeIn state.now scope }
    requires work { WorkFits state.now work }
    requires asks { AsksNothing (form e.now) }
    ensures turns { turned state.now result
        ≡ passed_by state.now work.entry (environment_of state.now scope)
        (value_of e.now (environment_of state.now scope) (run_of state.now)) }
    ensures fits { TurnFits state.now result }
{
    let _ = state;
    Turn::Await(e, Frame { scope, work })
}

// A word before one expression.
#[tactic(auto, using(crate::proofs::Waiting::waits_word))]
fn one<'a>(state: &State, at: u64, word: OneForm, e: &'a Ast, scope: Scope) -> Turn<'a>
    requires scope { IsScopeIn state.now scope }
    requires asks { AsksNothing (one at word (form e.now)) }
    ensures turns { turned state.now result
        ≡ begun (one at word (form e.now)) (environment_of state.now scope) (run_of state.now) }
    ensures fits { TurnFits state.now result }
{
    wait(state, e, scope, Work::Word(at, word))
}

// A word before two expressions.
#[tactic(auto, using(crate::proofs::Waiting::waits_second))]
fn two<'a>(state: &State, at: u64, word: TwoForm, e: &'a Ast, f: &'a Ast, scope: Scope) -> Turn<'a>
    requires scope { IsScopeIn state.now scope }
    requires asks { AsksNothing (two at word (form e.now) (form f.now)) }
    ensures turns { turned state.now result
        ≡ begun (two at word (form e.now) (form f.now)) (environment_of state.now scope)
        (run_of state.now) }
    ensures fits { TurnFits state.now result }
{
    let pairing = Pairing::Word(at, place_of(f), word);
    wait(state, e, scope, Work::Second(pairing, f))
}

// Two expressions of which something is made.
#[tactic(auto, using(crate::proofs::Waiting::waits_second))]
fn both<'a>(state: &State, pairing: Pairing<'a>, e: &'a Ast, f: &'a Ast, scope: Scope) -> Turn<'a>
    requires scope { IsScopeIn state.now scope }
    requires pairing { PairingAsksNothing pairing }
    requires asks { AsksNothing (form e.now) × AsksNothing (form f.now) }
    ensures turns { turned state.now result
        ≡ both_of pairing.entry e.now f.now (environment_of state.now scope) (run_of state.now) }
    ensures fits { TurnFits state.now result }
{
    wait(state, e, scope, Work::Second(pairing, f))
}

// A `handle` with a case for values.
#[tactic(auto, using(ft_meaning::proofs::Written::value_parts, crate::proofs::Waiting::handle_value_waits, crate::proofs::Waiting::value_asks))]
fn handle_value<'a>(
    state: &State,
    e: &'a Ast,
    c: &'a ValCase,
    hs: &'a [OpCase],
    scope: Scope,
) -> Turn<'a>
    requires scope { IsScopeIn state.now scope }
    requires asks { AsksNothing
        (handle_with 0 (form e.now) (value_case_of (Some (value c.now)))
        (handlers (map handler hs.now))) }
    ensures turns { turned state.now result
        ≡ begun (handle_with 0 (form e.now) (value_case_of (Some (value c.now)))
        (handlers (map handler hs.now))) (environment_of state.now scope) (run_of state.now) }
    ensures fits { TurnFits state.now result }
{
    wait(state, e, scope, Work::HandleValue(c, hs))
}

// An expression after its unit is spent.
#[tactic(auto, using(crate::proofs::Rules::written_forms, crate::proofs::Rules::waiting, crate::proofs::Waiting::handle_waits))]
fn begin<'a>(state: &mut State, e: &'a Ast, scope: Scope) -> Result<Turn<'a>, End>
    requires scope { IsScopeIn state.old scope }
    requires asks { AsksNothing (form e.now) }
    ensures turns { TurnsInto
        (begun (form e.now) (environment_of state.old scope) (run_of state.old))
        result state.new }
    ensures further { GoesFurther state.old state.new }
    ensures fits { IfOk result (λ t. TurnFits state.new t) }
{
    match e {
        Ast::LetIn(_, x, e, f) => Ok(wait(state, e.get(), scope, Work::Let(x, f.get()))),
        Ast::If(_, e, f, g) => Ok(wait(state, e.get(), scope, Work::Branches(f.get(), g.get()))),
        Ast::Match(at, e, cs) => Ok(wait(state, e.get(), scope, Work::Cases(*at, cs.as_slice()))),
        Ast::Handle(_, e, None, hs) => Ok(wait(state, e.get(), scope, Work::Handle(hs.as_slice()))),
        Ast::Handle(_, e, Some(c), hs) => Ok(handle_value(state, e.get(), c, hs.as_slice(), scope)),
        Ast::Abstract(at, x, e, f) => Ok(wait(
            state,
            e.get(),
            scope,
            Work::Domain(*at, x, f.get()),
        )),
        Ast::Cons(_, e, f) => Ok(both(state, Pairing::Cons, e.get(), f.get(), scope)),
        Ast::Refl(at, e) => Ok(one(state, *at, OneForm::Refl, e.get(), scope)),
        Ast::Sym(at, e) => Ok(one(state, *at, OneForm::Sym, e.get(), scope)),
        Ast::Left(at, e) => Ok(one(state, *at, OneForm::Left, e.get(), scope)),
        Ast::Right(at, e) => Ok(one(state, *at, OneForm::Right, e.get(), scope)),
        Ast::Typeof(at, e) => Ok(one(state, *at, OneForm::Typeof, e.get(), scope)),
        Ast::Domain(at, e) => Ok(one(state, *at, OneForm::Domain, e.get(), scope)),
        Ast::Natural(at, e) => Ok(one(state, *at, OneForm::Natural, e.get(), scope)),
        Ast::Normal(at, e) => Ok(one(state, *at, OneForm::Normal, e.get(), scope)),
        Ast::Boundaryof(at, e) => Ok(one(state, *at, OneForm::Boundaryof, e.get(), scope)),
        Ast::SomeWord(at, e) => Ok(one(state, *at, OneForm::SomeWord, e.get(), scope)),
        Ast::Trans(at, e, f) => Ok(two(state, *at, TwoForm::Trans, e.get(), f.get(), scope)),
        Ast::Convert(at, e, f) => Ok(two(state, *at, TwoForm::Convert, e.get(), f.get(), scope)),
        Ast::Equal(at, e, f) => Ok(two(state, *at, TwoForm::Equal, e.get(), f.get(), scope)),
        Ast::Widen(at, e, f) => Ok(two(state, *at, TwoForm::Widen, e.get(), f.get(), scope)),
        Ast::Rewrite(at, e, f) => Ok(two(state, *at, TwoForm::Rewrite, e.get(), f.get(), scope)),
        Ast::Fill(at, e, f) => Ok(two(state, *at, TwoForm::Fill, e.get(), f.get(), scope)),
        Ast::Argument(at, e, i) => Ok(wait(state, e.get(), scope, Work::Argument(*at, *i))),
        Ast::Congruence(at, r, e, f) => Ok(both(
            state,
            Pairing::Congruence(*at, r),
            e.get(),
            f.get(),
            scope,
        )),
        Ast::Perform(at, op, e) => Ok(wait(state, e.get(), scope, Work::Perform(*at, op))),
        Ast::Call(at, x, es) => call(state, *at, x, es.as_slice(), scope),
        Ast::Subst(at, e, es) => Ok(wait(state, e.get(), scope, Work::Terms(*at, es.as_slice()))),
        Ast::TrueWord(_) => Ok(Turn::Give(Value::Truth(true))),
        Ast::FalseWord(_) => Ok(Turn::Give(Value::Truth(false))),
        Ast::Unit(_) => Ok(Turn::Give(Value::Unit)),
        Ast::Pair(_, e, f) => Ok(both(state, Pairing::Pair, e.get(), f.get(), scope)),
        Ast::NoneWord(..) => Ok(Turn::Give(Value::NoneValue)),
        Ast::Nil(..) => Ok(Turn::Give(Value::Nil)),
    }
}

// A name: its value, or the rule of the name at the arguments.
fn call<'a>(
    state: &mut State,
    at: u64,
    x: &'a Named,
    es: &'a [Ast],
    scope: Scope,
) -> Result<Turn<'a>, End>
    requires scope { IsScopeIn state.old scope }
    requires asks { AskNothing (forms (map form es.now)) }
    ensures turns { TurnsInto
        (begun (call at x.now (forms (map form es.now))) (environment_of state.old scope)
        (run_of state.old))
        result state.new }
    ensures further { GoesFurther state.old state.new }
    ensures fits { IfOk result (λ t. TurnFits state.new t) }
{
    match state.value(scope, &x.name) {
        Some(v) => value_alone(state, at, v, es),
        None => rule_call(state, at, x, es, scope),
    }
}

// The value of a name, which takes no arguments.
fn value_alone<'a>(state: &State, at: u64, v: Value, es: &[Ast]) -> Result<Turn<'a>, End>
    requires { IsValueOf state.now v }
    ensures turns { (o : Run AnyValue) → TurnsInto
        (value_or_rule (Some (value_over state.now v)) (forms (map form es.now)) o
        (run_of state.now))
        result state.now }
    ensures fits { IfOk result (λ t. TurnFits state.now t) }
{
    let _ = state;
    match es {
        [] => Ok(Turn::Give(v)),
        [_, ..] => Err(End::halts(at, Why::Stuck)),
    }
}

/// What a call gave.
pub fn give<'a>(answer: Result<Value, End>) -> Result<Turn<'a>, End>
    ensures turns { (o : Outcome AnyValue) (S : Evaluation) → TellsValue o answer S
        → TurnsInto o result S }
    ensures fits { (o : Outcome AnyValue) (S : Evaluation) → TellsValue o answer S
        → IfOk result (λ t. TurnFits S t) }
{
    match answer {
        Ok(v) => Ok(Turn::Give(v)),
        Err(end) => Err(end),
    }
}

// The rule of a name at arguments.
fn rule_call<'a>(
    state: &mut State,
    at: u64,
    x: &'a Named,
    es: &'a [Ast],
    scope: Scope,
) -> Result<Turn<'a>, End>
    requires scope { IsScopeIn state.old scope }
    requires asks { AskNothing (forms (map form es.now)) }
    ensures turns { TurnsInto
        (rule_called at x.now.name es.now (environment_of state.old scope) (run_of state.old))
        result state.new }
    ensures further { GoesFurther state.old state.new }
    ensures fits { IfOk result (λ t. TurnFits state.new t) }
{
    match state.rule(&x.name) {
        Some(rule) => {
            let given = Vec::new(state.allocator());
            apply(state, scope, at, rule, given, es)
        }
        None => Err(End::halts(at, Why::Stuck)),
    }
}

/// A rule at the arguments so far, and at those of further expressions.
pub fn apply<'a>(
    state: &mut State,
    scope: Scope,
    at: u64,
    rule: RuleId,
    given: Vec<J>,
    rest: &'a [Ast],
) -> Result<Turn<'a>, End>
    requires scope { IsScopeIn state.old scope }
    requires rule { IsRuleOf state.old rule }
    requires given { AreThesesOf state.old.list given.items }
    requires asks { AskNothing (forms (map form rest.now)) }
    ensures turns { TurnsInto
        (applied_to state.old at rule (judgements_of state.old given.items) rest.now
        (environment_of state.old scope) (run_of state.old))
        result state.new }
    ensures further { GoesFurther state.old state.new }
    ensures fits { IfOk result (λ t. TurnFits state.new t) }
{
    match rest {
        [] => give(state.apply(at, rule, &given)),
        [next, rest @ ..] => {
            let place = place_of(next);
            let arguments = Arguments {
                at,
                rule,
                given,
                place,
                rest,
            };
            Ok(wait(state, next, scope, Work::Premise(arguments)))
        }
    }
}

/// An expression: a unit is spent, and its first part comes next.
#[tactic(auto, using(crate::proofs::Entered::unspent))]
pub fn enter<'a>(state: &mut State, e: &'a Ast, scope: Scope) -> Result<Turn<'a>, End>
    requires scope { IsScopeIn state.old scope }
    requires asks { AsksNothing (form e.now) }
    ensures turns { TurnsInto
        (value_of e.now (environment_of state.old scope) (run_of state.old))
        result state.new }
    ensures further { GoesFurther state.old state.new }
    ensures fits { IfOk result (λ t. TurnFits state.new t) }
    ensures spent { OnOk result (state.old.units.used + 1 ≤ state.new.units.used) }
{
    state.holds();
    match state.spend(place_of(e)) {
        Ok(()) => begin(state, e, scope),
        Err(end) => Err(end),
    }
}

//! The arguments of an application.

ghost use Rattle.std.specs.Prelude.{◌≡◌, ◌≤◌, ◌<◌, ◌-◌, length, true, IfOk, IfErr};
ghost use Rattle.ft_theory.specs.Expressions.{free};
ghost use Rattle.ft_theory.specs.Rules.{rule_at};
ghost use Rattle.ft_theory.specs.Small.{IsSmall};
ghost use Rattle.ft_theory.specs.Statements.{act_statement, fill};
ghost use Rattle.ft_items.specs.Item.{by_arg};
ghost use Rattle.ft_items.specs.Store.{declared_by, metavariables_in, nth, rules_in};
ghost use Rattle.ft_items.specs.Rows.{arguments_of as arguments_by_declaration};
ghost use Rattle.ft_reference.specs.Refusals.{AllSmall, expressions};
ghost use Rattle.ft_reference.specs.Checks.{is_application};
ghost use Rattle.ft_syntax.specs.Arguments.{node_of, arguments_of, AreTerms};
ghost use Rattle.ft_syntax.specs.Table.{tree, BodyBelow};
ghost use Rattle.ft_syntax.specs.declared.syntax.Node.TheVariants.{Sym, Meta};
ghost use Rattle.ft_syntax.specs.declared.syntax.SynFault.TheVariants.{TooBig};
ghost use Rattle.ft_judge.specs.Meaning.{thesis_in, ThesisBelow, head_in};
ghost use Rattle.ft_judge.specs.declared.fault.Refusal.TheVariants.{ArgumentCount};
ghost use Rattle.ft_judge.specs.declared.fault.Fault.TheVariants.{Refused};
ghost use Rattle.ft_kernel.specs.State.{IsThesisOf};
ghost use Rattle.ft_calls.specs.Answers.{Answers, Stays};
ghost use Rattle.ft_parts.specs.Types.{instance_at};
ghost use Rattle.ft_parts.specs.Instances.{SmallOr};
ghost use Rattle.ft_parts.specs.Places.{FindsPlace, boundary_of_met, type_at_place};

use crate::filling::{filled, head_of};
use crate::opening::open_all;
use crate::putting::put_boundary;
use crate::reading::{domain_of, plain_head};
use crate::symbols::instance;
use ft_calls::{conclude, plain};
use ft_judge::{Fault, Form, Refusal, Thesis};
use ft_kernel::{J, Kernel, M, RuleId, Step};
use ft_syntax::{Arg, E, Node, SynFault};
use std::alloc::Global;

/// The argument of the application at a place, counted from 1: at its premise's boundary, or as a term
/// of its domain.
pub fn argument(alloc: Global, k: &mut Kernel, j: J, i: u64) -> Result<J, Fault>
    requires { IsThesisOf k.old j }
    ensures answers { Answers k.old (by_arg i j) result k.new }
    ensures thesis { IfOk result (λ j. IsThesisOf k.new j) }
{
    let e = match plain_head(k, j) {
        Ok(e) => e,
        Err(refusal) => return Err(Fault::Refused(refusal)),
    };
    let set = k.asm_of(j).copy()?;
    let thesis = match argument_at(alloc, k, e, i) {
        Ok(thesis) => thesis,
        Err(fault) => return Err(fault),
    };
    k.terms().are_small();
    conclude(k, thesis, set, Step::Arg(i, j))
}

// The argument at a place of the expression. A variable has none.
fn argument_at(alloc: Global, k: &mut Kernel, e: E, i: u64) -> Result<Thesis, Fault>
    requires { e < length k.old.trees }
    ensures within { IfOk result (λ x. ThesisBelow (length k.new.trees) x) }
    ensures finds { FindsPlace k.new.trees (is_application (tree k.old.trees e)) i
        (arguments_by_declaration (declared_by k.old.items) (tree k.old.trees e)) result }
    ensures stays { Stays k.old k.new }
{
    match k.terms().node(e) {
        Node::Bound(_) => Err(Fault::Refused(Refusal::NotApplication)),
        Node::Free(_) => Err(Fault::Refused(Refusal::NotApplication)),
        Node::Sym(s) => argument_of_symbol(alloc, k, s, e, i),
        Node::Meta(m) => argument_of_metavariable(alloc, k, m, e, i),
    }
}

// There is no argument at the place, among so many.
fn no_place(i: u64, given: u64) -> Fault
    ensures { result ≡ Refused (ArgumentCount i given) }
{
    Fault::Refused(Refusal::ArgumentCount(i, given))
}

// The argument at a place of the symbol.
fn argument_of_symbol(alloc: Global, k: &mut Kernel, s: u64, e: E, i: u64) -> Result<Thesis, Fault>
    requires below { e < length k.old.trees }
    requires symbol { node_of (tree k.old.trees e) ≡ Sym s }
    ensures within { IfOk result (λ x. ThesisBelow (length k.new.trees) x) }
    ensures finds { FindsPlace k.new.trees (is_application (tree k.old.trees e)) i
        (arguments_by_declaration (declared_by k.old.items) (tree k.old.trees e)) result }
    ensures stays { Stays k.old k.new }
{
    let terms = k.terms();
    let rule = match k.rule_numbered(s) {
        Some(rule) => rule,
        None => return Err(no_place(i, 0)),
    };
    let premises = k.rule(rule).premises.items();
    let given = terms.count(e).min(premises.len() as u64);
    if i < 1 || given < i {
        return Err(no_place(i, given));
    }
    let premise = premises[(i - 1) as usize];
    let argument = terms.arg(e, i);
    match argument_for(alloc, k, rule, premise, e, &argument) {
        Ok(thesis) => Ok(thesis),
        Err(fault) => Err(Fault::from(fault)),
    }
}

// The argument at the boundary of its premise, at the instance that all arguments are.
fn argument_for(
    alloc: Global,
    k: &mut Kernel,
    r: RuleId,
    m: M,
    e: E,
    argument: &Arg,
) -> Result<Thesis, SynFault>
    requires rule { r < length (rules_in k.old.items) }
    requires premise { m < length (metavariables_in k.old.items) }
    requires below { e < length k.old.trees }
    requires symbol { node_of (tree k.old.trees e) ≡ Sym r }
    requires body { BodyBelow (length k.old.trees) argument.now.body }
    ensures within { IfOk result (λ x. ThesisBelow (length k.new.trees) x) }
    ensures thesis { IfOk result (λ x. thesis_in k.new.trees x ≡ fill (act_statement free
        (instance_at (rule_at (declared_by k.old.items).rules r) (tree k.old.trees e))
        (boundary_of_met (nth (declared_by k.old.items).metavariables m)))
        (head_in k.old.trees argument.now.body)) }
    ensures small { SmallOr (AllSmall (expressions (act_statement free
        (instance_at (rule_at (declared_by k.old.items).rules r) (tree k.old.trees e))
        (boundary_of_met (nth (declared_by k.old.items).metavariables m))))) result }
    ensures stays { Stays k.old k.new }
{
    let instance = instance(alloc, k, r, e)?;
    let boundary = k.boundary_at(k.met(m).boundary).copy()?;
    let head = match head_of(k, argument) {
        Ok(head) => head,
        Err(fault) => return Err(fault),
    };
    match put_boundary(alloc, k, &boundary, &instance) {
        Ok(boundary) => Ok(Thesis {
            form: filled(&boundary.goal, head),
            domains: boundary.domains,
        }),
        Err(fault) => Err(fault),
    }
}

// The term at a place of the metavariable, of the type of its domain at the terms before it.
fn argument_of_metavariable(
    alloc: Global,
    k: &mut Kernel,
    m: u64,
    e: E,
    i: u64,
) -> Result<Thesis, Fault>
    requires below { e < length k.old.trees }
    requires metavariable { node_of (tree k.old.trees e) ≡ Meta m }
    ensures within { IfOk result (λ x. ThesisBelow (length k.new.trees) x) }
    ensures finds { FindsPlace k.new.trees (is_application (tree k.old.trees e)) i
        (arguments_by_declaration (declared_by k.old.items) (tree k.old.trees e)) result }
    ensures stays { Stays k.old k.new }
{
    let terms = k.terms();
    let met = match k.met_numbered(m) {
        Some(met) => met,
        None => return Err(no_place(i, 0)),
    };
    let given = terms.count(e);
    if i < 1 || given < i {
        return Err(no_place(i, given));
    }
    let argument = terms.arg(e, i);
    let term = match argument.body {
        Some(term) => term,
        None => unreachable!(),
    };
    match type_of_place(k, met, e, i) {
        Ok(ty) => Ok(plain(alloc, Form::Tm(term, ty))),
        Err(fault) => Err(Fault::from(fault)),
    }
}

// The type of the term at a place: that of its domain, at the terms before it. Past the domains the
// innermost bound variable stands.
fn type_of_place(k: &mut Kernel, m: M, e: E, i: u64) -> Result<E, SynFault>
    requires metavariable { m < length (metavariables_in k.old.items) }
    requires below { e < length k.old.trees }
    requires first { 1 ≤ i }
    requires last { i ≤ length (arguments_of (tree k.old.trees e)) }
    requires terms { AreTerms (arguments_of (tree k.old.trees e)) }
    ensures within { IfOk result (λ r. r < length k.new.trees) }
    ensures ty { IfOk result (λ r. tree k.new.trees r ≡ type_at_place (i - 1)
        (nth (declared_by k.old.items).metavariables m) (arguments_of (tree k.old.trees e))) }
    ensures too_big { IfErr result (λ f. f ≡ TooBig → IsSmall (type_at_place (i - 1)
        (nth (declared_by k.old.items).metavariables m) (arguments_of (tree k.old.trees e))) → ⊥) }
    ensures stays { Stays k.old k.new }
{
    match domain_of(k, m, i) {
        Some(domain) => open_all(k, domain, i - 1, e),
        None => k.bound(0),
    }
}

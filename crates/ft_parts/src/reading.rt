//! What theses, variables, rules and metavariables say.

ghost use Rattle.std.specs.Prelude.{◌≡◌, ◌≤◌, ◌<◌, ◌-◌, Some, length, option_map, IfOk, IfErr, IfSome};
ghost use Rattle.ft_theory.specs.Expressions.{free};
ghost use Rattle.ft_theory.specs.Rules.{rule_at};
ghost use Rattle.ft_theory.specs.Statements.{plain, is_type, has_type};
ghost use Rattle.ft_items.specs.Store.{nth, declared_by, rules_in, metavariables_in};
ghost use Rattle.ft_items.specs.Rows.{natural_type};
ghost use Rattle.ft_syntax.specs.Table.{tree};
ghost use Rattle.ft_judge.specs.declared.fault.Refusal.TheVariants.{WrongForm};
ghost use Rattle.ft_kernel.specs.State.{statement_at, IsThesisOf, IsVariableOf};
ghost use Rattle.ft_calls.specs.Named.{IsPlainTypeAt, IsNoPlainTypeAt};
ghost use Rattle.ft_parts.specs.Types.{IsNoPlainTermAt, concluded_type, type_of_metavariable};
ghost use Rattle.ft_parts.specs.Places.{StatesHead, IsNoPlainObjectAt, domain_at};

use ft_calls::form_named;
use ft_judge::{Form, Goal, Refusal};
use ft_kernel::{J, Kernel, M, RuleId, V};
use ft_syntax::E;

/// The term of a plain thesis, with its type. Others are of the wrong form. It takes no memory.
pub(crate) fn plain_term(k: &Kernel, j: J) -> Result<(E, E), Refusal>
    requires { IsThesisOf k.now j }
    ensures statement { IfOk result (λ x. statement_at k.now j ≡
        Some (plain (has_type (tree k.now.trees x.0) (tree k.now.trees x.1)))) }
    ensures term { IfOk result (λ x. x.0 < length k.now.trees) }
    ensures ty { IfOk result (λ x. x.1 < length k.now.trees) }
    ensures other { IfErr result (λ q. IsNoPlainTermAt k.now j) }
    ensures refused { IfErr result (λ q. q ≡ WrongForm) }
{
    let form = form_named(k, j)?;
    match form {
        Form::Tm(term, ty) => Ok((term, ty)),
        _ => Err(Refusal::WrongForm),
    }
}

// The type that a plain thesis says to be one. Others are of the wrong form.
fn plain_type(k: &Kernel, j: J) -> Result<E, Refusal>
    requires { IsThesisOf k.now j }
    ensures statement { IfOk result (λ a. statement_at k.now j ≡
        Some (plain (is_type (tree k.now.trees a)))) }
    ensures below { IfOk result (λ a. a < length k.now.trees) }
    ensures other { IfErr result (λ q. IsNoPlainTypeAt k.now j) }
{
    let form = form_named(k, j)?;
    match form {
        Form::Ty(a) => Ok(a),
        _ => Err(Refusal::WrongForm),
    }
}

// The type of an entry that is a plain type.
fn type_at(k: &Kernel, j: J) -> E
    requires plain { IsPlainTypeAt k.now j }
    requires thesis { IsThesisOf k.now j }
    ensures statement { statement_at k.now j ≡ Some (plain (is_type (tree k.now.trees result))) }
    ensures below { result < length k.now.trees }
{
    match plain_type(k, j) {
        Ok(a) => a,
        Err(_) => unreachable!(),
    }
}

// The type of a variable.
fn annotation(k: &Kernel, v: V) -> E
    requires { IsVariableOf k.now v }
    ensures ty { Some (tree k.now.trees result) ≡ natural_type (declared_by k.now.items) (free v) }
    ensures below { result < length k.now.trees }
{
    type_at(k, k.var(v).ty)
}

/// The type of the variable of a number, where there is one. It takes no memory.
pub(crate) fn type_of_variable(k: &Kernel, v: u64) -> Option<E>
    ensures ty { option_map (tree k.now.trees) result ≡
        natural_type (declared_by k.now.items) (free v) }
    ensures below { IfSome result (λ a. a < length k.now.trees) }
{
    let _terms = k.terms();
    match k.var_numbered(v) {
        Some(variable) => Some(annotation(k, variable)),
        None => None,
    }
}

/// The type of the terms that a rule concludes, where it concludes terms. It takes no memory.
pub(crate) fn type_of_conclusion(k: &Kernel, r: RuleId) -> Option<E>
    requires { r < length (rules_in k.now.items) }
    ensures ty { option_map (tree k.now.trees) result ≡
        concluded_type (rule_at (declared_by k.now.items).rules r) }
    ensures below { IfSome result (λ a. a < length k.now.trees) }
{
    match k.boundary_at(k.rule(r).conclusion).goal {
        Goal::Tm(a) => Some(a),
        _ => None,
    }
}

/// The type below the domains of a metavariable's boundary, where it is one of terms, and how many
/// domains there are. It takes no memory.
pub(crate) fn type_of_boundary(k: &Kernel, m: M) -> Option<(E, u64)>
    requires { m < length (metavariables_in k.now.items) }
    ensures ty { option_map (λ x. (tree k.now.trees x.0, x.1)) result ≡
        type_of_metavariable (nth (declared_by k.now.items).metavariables m) }
    ensures below { IfSome result (λ x. x.0 < length k.now.trees) }
{
    let boundary = k.boundary_at(k.met(m).boundary);
    match boundary.goal {
        Goal::Tm(a) => Some((a, boundary.domains.items().len() as u64)),
        _ => None,
    }
}

/// The type of a plain thesis about a type, the term of one about a term. Others are of the wrong form.
/// It takes no memory.
pub(crate) fn plain_head(k: &Kernel, j: J) -> Result<E, Refusal>
    requires { IsThesisOf k.now j }
    ensures states { IfOk result (λ e. StatesHead k.now j (tree k.now.trees e)) }
    ensures below { IfOk result (λ e. e < length k.now.trees) }
    ensures other { IfErr result (λ q. IsNoPlainObjectAt k.now j) }
    ensures refused { IfErr result (λ q. q ≡ WrongForm) }
{
    let form = form_named(k, j)?;
    match form {
        Form::Ty(a) => Ok(a),
        Form::Tm(term, _) => Ok(term),
        _ => Err(Refusal::WrongForm),
    }
}

/// The domain of a metavariable's boundary at a place, counted from 1. It takes no memory.
pub(crate) fn domain_of(k: &Kernel, m: M, i: u64) -> Option<E>
    requires met { m < length (metavariables_in k.now.items) }
    requires first { 1 ≤ i }
    ensures domain { option_map (tree k.now.trees) result ≡
        domain_at (i - 1) (nth (declared_by k.now.items).metavariables m) }
    ensures below { IfSome result (λ e. e < length k.now.trees) }
{
    let domains = k.boundary_at(k.met(m).boundary).domains.items();
    domains.get((i - 1) as usize).copied()
}

//! The type that a term has by its declaration.

ghost use Rattle.std.specs.Prelude.{◌≡◌, ◌<◌, length, IfOk};
ghost use Rattle.ft_items.specs.Item.{by_natural};
ghost use Rattle.ft_items.specs.Store.{declared_by};
ghost use Rattle.ft_items.specs.Rows.{natural_type as type_by_declaration};
ghost use Rattle.ft_syntax.specs.Arguments.{node_of};
ghost use Rattle.ft_syntax.specs.Table.{tree};
ghost use Rattle.ft_syntax.specs.declared.syntax.Node.TheVariants.{Sym, Meta};
ghost use Rattle.ft_kernel.specs.State.{IsThesisOf};
ghost use Rattle.ft_calls.specs.Answers.{Answers, Stays};
ghost use Rattle.ft_parts.specs.Types.{FindsType};

use crate::opening::open_all;
use crate::reading::{plain_term, type_of_boundary, type_of_conclusion, type_of_variable};
use crate::symbols::instance;
use ft_calls::{conclude, plain};
use ft_judge::{Fault, Form, Refusal};
use ft_kernel::{J, Kernel, Step};
use ft_syntax::{E, Node};
use std::alloc::Global;

/// The type that the term has by its declaration equals the one that it is at.
pub fn natural(alloc: Global, k: &mut Kernel, j: J) -> Result<J, Fault>
    requires { IsThesisOf k.old j }
    ensures answers { Answers k.old (by_natural j) result k.new }
    ensures thesis { IfOk result (λ j. IsThesisOf k.new j) }
{
    let (term, ty) = match plain_term(k, j) {
        Ok((term, ty)) => (term, ty),
        Err(refusal) => return Err(Fault::Refused(refusal)),
    };
    let set = k.asm_of(j).copy()?;
    let natural = match natural_type(alloc, k, term) {
        Ok(natural) => natural,
        Err(fault) => return Err(fault),
    };
    k.terms().are_small();
    let thesis = plain(alloc, Form::EqTy(natural, ty));
    conclude(k, thesis, set, Step::Natural(j))
}

// The type that the expression has by its declaration.
fn natural_type(alloc: Global, k: &mut Kernel, e: E) -> Result<E, Fault>
    requires { e < length k.old.trees }
    ensures within { IfOk result (λ n. n < length k.new.trees) }
    ensures finds { FindsType k.new.trees
        (type_by_declaration (declared_by k.old.items) (tree k.old.trees e)) result }
    ensures stays { Stays k.old k.new }
{
    match k.terms().node(e) {
        Node::Bound(_) => Err(Fault::Refused(Refusal::WrongForm)),
        Node::Free(v) => match type_of_variable(k, v) {
            Some(ty) => Ok(ty),
            None => Err(Fault::Refused(Refusal::WrongForm)),
        },
        Node::Sym(s) => type_of_symbol(alloc, k, s, e),
        Node::Meta(m) => type_of_metavariable(k, m, e),
    }
}

// The type in the conclusion of the symbol's rule, at the symbol's arguments.
fn type_of_symbol(alloc: Global, k: &mut Kernel, s: u64, e: E) -> Result<E, Fault>
    requires below { e < length k.old.trees }
    requires symbol { node_of (tree k.old.trees e) ≡ Sym s }
    ensures within { IfOk result (λ n. n < length k.new.trees) }
    ensures finds { FindsType k.new.trees
        (type_by_declaration (declared_by k.old.items) (tree k.old.trees e)) result }
    ensures stays { Stays k.old k.new }
{
    let _terms = k.terms();
    let rule = match k.rule_numbered(s) {
        Some(rule) => rule,
        None => return Err(Fault::Refused(Refusal::WrongForm)),
    };
    let ty = match type_of_conclusion(k, rule) {
        Some(ty) => ty,
        None => return Err(Fault::Refused(Refusal::WrongForm)),
    };
    let instance = instance(alloc, k, rule, e)?;
    match k.instantiate(ty, &instance) {
        Ok(natural) => Ok(natural),
        Err(fault) => Err(Fault::from(fault)),
    }
}

// The type in the boundary of the metavariable, at its terms. At fewer terms than the boundary has
// domains there is none.
fn type_of_metavariable(k: &mut Kernel, m: u64, e: E) -> Result<E, Fault>
    requires below { e < length k.old.trees }
    requires metavariable { node_of (tree k.old.trees e) ≡ Meta m }
    ensures within { IfOk result (λ n. n < length k.new.trees) }
    ensures finds { FindsType k.new.trees
        (type_by_declaration (declared_by k.old.items) (tree k.old.trees e)) result }
    ensures stays { Stays k.old k.new }
{
    let _terms = k.terms();
    let met = match k.met_numbered(m) {
        Some(met) => met,
        None => return Err(Fault::Refused(Refusal::WrongForm)),
    };
    let (ty, domains) = match type_of_boundary(k, met) {
        Some(found) => found,
        None => return Err(Fault::Refused(Refusal::WrongForm)),
    };
    if k.terms().count(e) < domains {
        return Err(Fault::Refused(Refusal::WrongForm));
    }
    match open_all(k, ty, domains, e) {
        Ok(natural) => Ok(natural),
        Err(fault) => Err(Fault::from(fault)),
    }
}

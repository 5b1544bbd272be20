//! The heads of theses put for the metavariables of a rule, in a table of their own.

ghost use Rattle.std.specs.Prelude.{◌≡◌, ◌<◌, ℕ, List, Some, true, length, map, take, IfOk};
ghost use Rattle.ft_theory.specs.Expressions.{instantiate, symbol};
ghost use Rattle.ft_theory.specs.Rules.{instance_of};
ghost use Rattle.ft_theory.specs.Statements.{Statement};
ghost use Rattle.ft_items.specs.Equal.{equal_expressions, is_thesis, heads as heads_of};
ghost use Rattle.ft_items.specs.Store.{Assertion, each, entry_named, store_of};
ghost use Rattle.ft_items.specs.Rows.{statements};
ghost use Rattle.ft_items.specs.Good.{all_theses};
ghost use Rattle.ft_syntax.specs.Instances.{instance_in, PairsBelow};
ghost use Rattle.ft_syntax.specs.Table.{tree, Extends, argument_in, arguments_in, ArgumentsBelow, BodyBelow};
ghost use Rattle.ft_check.specs.Comparing.{all_same, paired as pairs_of, ComparedBelow};
ghost use Rattle.ft_check.specs.Putting.{head_argument, IsPutIn};

use crate::compare::Compared;
use crate::entry::{Entry, entry_before};
use ft_base::Memory;
use ft_judge::head_of;
use ft_stated::StatedItems;
use ft_syntax::{Arg, E, Instance, Pairs, SynFault, Terms};
use std::alloc::Global;

/// A table of its own with the arguments of a rule in it, and the instance that puts them for the rule's metavariables.
#[derive(Drop)]
pub struct Put {
    pub terms: Terms,
    pub instance: Instance,
    pub arguments: Vec<Arg>,
}

/// The argument of another table.
#[tactic(auto, using(ft_syntax::specs::Laws::extends_same))]
pub fn copy(terms: &mut Terms, other: &Terms, head: Arg) -> Result<Arg, Memory>
    requires { BodyBelow (length other.now) head.body }
    ensures is { IfOk result (λ x. argument_in terms.new x ≡ argument_in other.now head) }
    ensures below { IfOk result (λ x. BodyBelow (length terms.new) x.body) }
    ensures goes_on { Extends terms.old terms.new }
{
    match head.body {
        None => Ok(head),
        Some(e) => {
            let body = terms.copy_from(other, e)?;
            Ok(Arg {
                binders: head.binders,
                body: Some(body),
            })
        }
    }
}

// The head of an entry that is a thesis.
#[tactic(auto, using(ft_syntax::specs::Laws::extends_same, crate::proofs::HeadsPut::head_taken, crate::proofs::HeadsPut::head_below, crate::proofs::HeadsPut::no_entry, crate::proofs::HeadsPut::no_thesis))]
fn head_at(terms: &mut Terms, items: &StatedItems, i: u64, p: u64) -> Result<Arg, Memory>
    ensures head { (a : Assertion) → entry_named (store_of (take i items.now.items)) p ≡ Some a
        → is_thesis a.statement ≡ true → IfOk result (λ x. argument_in terms.new x ≡
        head_argument a.statement) }
    ensures below { IfOk result (λ x. BodyBelow (length terms.new) x.body) }
    ensures goes_on { Extends terms.old terms.new }
{
    match entry_before(items, i, p) {
        Some(Entry::Thesis(x, _)) => copy(terms, items.terms(), head_of(x)),
        Some(Entry::Boundary(..)) => Ok(Arg {
            binders: 0,
            body: None,
        }),
        None => Ok(Arg {
            binders: 0,
            body: None,
        }),
    }
}

// The heads of the entries.
#[tactic(auto, using(crate::proofs::HeadsPut::heading_start, crate::proofs::HeadsPut::heading_more, crate::proofs::HeadsPut::heading_end))]
fn heads_in(
    alloc: Global,
    terms: &mut Terms,
    items: &StatedItems,
    i: u64,
    ps: &[u64],
) -> Result<Vec<Arg>, Memory>
    ensures heads { (given : List Assertion) → each
        (entry_named (store_of (take i items.now.items))) ps.now ≡ Some given
        → all_theses given ≡ true → IfOk result (λ xs. arguments_in terms.new xs.items ≡
        heads_of (statements given)) }
    ensures below { IfOk result (λ xs. ArgumentsBelow (length terms.new) xs.items) }
{
    let mut list = Vec::new(alloc);
    for k in 0..ps.len() {
        let Arg { binders, body } = head_at(terms, items, i, ps[k])?;
        list.push(Arg { binders, body })?;
    }
    Ok(list)
}

/// Each metavariable with the argument in its place.
#[tactic(auto, using(crate::proofs::HeadsPut::pairing_more, crate::proofs::HeadsPut::pairing_end))]
pub fn paired(alloc: Global, ms: &[u64], arguments: &[Arg]) -> Result<Pairs, Memory>
    ensures { IfOk result (λ x. x ≡ pairs_of ms.now arguments.now) }
{
    let mut pairs = Pairs::new(alloc);
    let count = ms.len().min(arguments.len());
    for k in 0..count {
        pairs.push((ms[k], arguments[k]))?;
    }
    Ok(pairs)
}

/// The heads of the entries `ps`, put for the metavariables `ms`.
#[tactic(auto, using(crate::proofs::HeadsPut::pairs_below, crate::proofs::HeadsPut::instance_is))]
pub fn put_heads(
    alloc: Global,
    items: &StatedItems,
    i: u64,
    ms: &[u64],
    ps: &[u64],
) -> Result<Put, Memory>
    ensures heads { (given : List Assertion) → each
        (entry_named (store_of (take i items.now.items))) ps.now ≡ Some given
        → all_theses given ≡ true → IfOk result (λ x. arguments_in x.terms x.arguments.items ≡
        heads_of (statements given)) }
    ensures instance { (given : List Assertion) (qs : List (ℕ × Statement))
        → each (entry_named (store_of (take i items.now.items))) ps.now ≡ Some given
        → all_theses given ≡ true → map (λ (q : ℕ × Statement). q.0) qs ≡ ms.now
        → IfOk result (λ x. instance_in x.terms x.instance.pairs ≡
        instance_of qs (heads_of (statements given))) }
    ensures below { IfOk result (λ x. IsPutIn x) }
{
    let mut terms = Terms::new(alloc);
    let arguments = heads_in(alloc, &mut terms, items, i, ps)?;
    let pairs = paired(alloc, ms, &arguments)?;
    Ok(Put {
        terms,
        instance: Instance { pairs },
        arguments,
    })
}

// Whether the expression that is found is the instance of the one that is wanted.
#[tactic(auto, using(ft_syntax::specs::Laws::extends_trans, ft_syntax::specs::Laws::below_extends, ft_syntax::specs::Laws::pairs_below_extends, crate::proofs::PutTogether::instance_same, crate::proofs::PutTogether::instance_too_big))]
fn is_instance(
    put: &mut Terms,
    instance: &Instance,
    terms: &Terms,
    p: Compared,
) -> Result<bool, Memory>
    requires compared { (p.found < length terms.now) × (p.wanted < length terms.now) }
    requires pairs { PairsBelow (length put.old) instance.now.pairs }
    ensures is { IfOk result (λ yes. yes ≡ equal_expressions (tree terms.now p.found)
        (instantiate (instance_in put.old instance.now.pairs) (tree terms.now p.wanted))) }
    ensures goes_on { Extends put.old put.new }
{
    // what is found is small, so that an instance that is not small is another
    let _ = terms.depth(p.found);
    let wanted = put.copy_from(terms, p.wanted)?;
    match put.instantiate(wanted, instance) {
        Err(SynFault::TooBig) => Ok(false),
        Err(SynFault::Memory) => Err(Memory),
        Ok(wanted) => {
            let found = put.copy_from(terms, p.found)?;
            Ok(put.equal_expr(found, wanted))
        }
    }
}

// Whether each expression that is found is the instance of the one that is wanted.
#[tactic(auto, using(ft_syntax::specs::Laws::extends_same, ft_syntax::specs::Laws::extends_trans, ft_syntax::specs::Laws::pairs_below_extends, crate::proofs::HeadsPut::all_next, crate::proofs::HeadsPut::all_not, crate::proofs::HeadsPut::all_end, crate::proofs::HeadsPut::compared_at))]
fn all_instances(
    put: &mut Terms,
    instance: &Instance,
    terms: &Terms,
    list: &[Compared],
) -> Result<bool, Memory>
    requires compared { ComparedBelow (length terms.now) list.now }
    requires pairs { PairsBelow (length put.old) instance.now.pairs }
    ensures are { IfOk result (λ yes. yes ≡ all_same terms.now
        (instantiate (instance_in put.old instance.now.pairs)) list.now) }
    ensures goes_on { Extends put.old put.new }
{
    for k in 0..list.len() {
        if !is_instance(put, instance, terms, list[k])? {
            return Ok(false);
        }
    }
    Ok(true)
}

// Whether the expression is the symbol at the arguments.
#[tactic(auto, using(ft_syntax::specs::Laws::extends_trans, ft_syntax::specs::Laws::below_extends, crate::proofs::PutTogether::symbol_same, crate::proofs::PutTogether::too_big_differs))]
fn is_symbol(
    put: &mut Terms,
    arguments: &[Arg],
    terms: &Terms,
    r: u64,
    found: E,
) -> Result<bool, Memory>
    requires found { found < length terms.now }
    requires arguments { ArgumentsBelow (length put.old) arguments.now }
    ensures is { IfOk result (λ yes. yes ≡ equal_expressions (tree terms.now found)
        (symbol r (arguments_in put.old arguments.now))) }
    ensures goes_on { Extends put.old put.new }
{
    // what is found is small, so that an application that is not small is another
    let _ = terms.depth(found);
    match put.symbol(r, arguments) {
        Err(SynFault::TooBig) => Ok(false),
        Err(SynFault::Memory) => Err(Memory),
        Ok(wanted) => {
            let found = put.copy_from(terms, found)?;
            Ok(put.equal_expr(found, wanted))
        }
    }
}

impl Put {
    /// Whether each expression that is found is the instance of the one that is wanted.
    #[tactic(auto, using(ft_syntax::specs::Laws::pairs_below_extends, ft_syntax::specs::Laws::instance_extends, ft_syntax::specs::Laws::arguments_below_extends, crate::proofs::HeadsPut::arguments_stay))]
    pub fn are_instances(&mut self, terms: &Terms, list: &[Compared]) -> Result<bool, Memory>
        requires compared { ComparedBelow (length terms.now) list.now }
        requires below { IsPutIn self.old }
        ensures are { IfOk result (λ yes. yes ≡ all_same terms.now
            (instantiate (instance_in self.old.terms self.old.instance.pairs)) list.now) }
        ensures below { IsPutIn self.new }
        ensures instance { instance_in self.new.terms self.new.instance.pairs ≡
            instance_in self.old.terms self.old.instance.pairs }
        ensures arguments { arguments_in self.new.terms self.new.arguments.items ≡
            arguments_in self.old.terms self.old.arguments.items }
    {
        all_instances(&mut self.terms, &self.instance, terms, list)
    }

    /// Whether the expression is the symbol at the arguments.
    #[tactic(auto, using(ft_syntax::specs::Laws::pairs_below_extends, ft_syntax::specs::Laws::instance_extends, ft_syntax::specs::Laws::arguments_below_extends, crate::proofs::HeadsPut::arguments_stay))]
    pub fn is_applied(&mut self, terms: &Terms, r: u64, found: E) -> Result<bool, Memory>
        requires found { found < length terms.now }
        requires below { IsPutIn self.old }
        ensures is { IfOk result (λ yes. yes ≡ equal_expressions (tree terms.now found)
            (symbol r (arguments_in self.old.terms self.old.arguments.items))) }
        ensures below { IsPutIn self.new }
        ensures instance { instance_in self.new.terms self.new.instance.pairs ≡
            instance_in self.old.terms self.old.instance.pairs }
        ensures arguments { arguments_in self.new.terms self.new.arguments.items ≡
            arguments_in self.old.terms self.old.arguments.items }
    {
        is_symbol(&mut self.terms, &self.arguments, terms, r, found)
    }

    /// Whether the expression that is found is the instance of the one that is wanted.
    #[tactic(auto, using(ft_syntax::specs::Laws::pairs_below_extends, ft_syntax::specs::Laws::instance_extends, ft_syntax::specs::Laws::arguments_below_extends, crate::proofs::HeadsPut::arguments_stay))]
    pub fn has_instance(&mut self, terms: &Terms, p: Compared) -> Result<bool, Memory>
        requires compared { (p.found < length terms.now) × (p.wanted < length terms.now) }
        requires below { IsPutIn self.old }
        ensures is { IfOk result (λ yes. yes ≡ equal_expressions (tree terms.now p.found)
            (instantiate (instance_in self.old.terms self.old.instance.pairs)
            (tree terms.now p.wanted))) }
        ensures below { IsPutIn self.new }
        ensures instance { instance_in self.new.terms self.new.instance.pairs
            ≡ instance_in self.old.terms self.old.instance.pairs }
        ensures arguments { arguments_in self.new.terms self.new.arguments.items
            ≡ arguments_in self.old.terms self.old.arguments.items }
    {
        is_instance(&mut self.terms, &self.instance, terms, p)
    }
}

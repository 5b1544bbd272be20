//! Opening, closing and replacement of one variable.

ghost use Rattle.std.specs.Prelude.{◌≡◌, ℕ, ◌+◌, ◌<◌, List, length, map, option_map, IfOk, IfErr, ◌≢◌};
ghost use Rattle.ft_theory.specs.Expressions.{bound, free, open_at, close_at, substitute, in_place_of, rename};
ghost use Rattle.ft_theory.specs.Small.{IsSmall};
ghost use Rattle.ft_syntax.specs.Arguments.{node_of, arguments_of, applied, FitsNode, IsApplication};
ghost use Rattle.ft_syntax.specs.Table.{tree, Extends, argument_in, BodyBelow, ArgumentsBelow};
ghost use Rattle.ft_syntax.specs.Measures.{IsSmallBody};
ghost use Rattle.ft_syntax.specs.Changes.{changed, changed_argument, ChangeBelow};
ghost use Rattle.ft_syntax.specs.declared.syntax.SynFault.TheVariants.{TooBig, Memory};

use crate::syntax::{Arg, E, Node, SynFault};
use crate::table::Terms;

// What is put for a variable: the first for a loose bound variable, the second for a free variable, the third for the free
// variable of a number. The last raises the loose bound variables.
#[derive(Clone, Copy)]
pub enum Change {
    Open(E),
    Close(u64),
    Replace(u64, E),
    Raise(u64),
}

impl Terms {
    /// The expression with `t` for its loose bound variable `under`, which is read outside the expression's own binders.
    pub fn open_bound(&mut self, e: E, under: u64, t: E) -> Result<E, SynFault>
        requires { (e < length self.old) × (t < length self.old) }
        ensures within { IfOk result (λ r. r < length self.new) }
        ensures tree { IfOk result (λ r. tree self.new r ≡ open_at under (tree self.old t) (tree self.old e)) }
        ensures goes_on { Extends self.old self.new }
        ensures too_big { IfErr result (λ f. f ≡ TooBig → IsSmall (open_at under (tree self.old t) (tree self.old e)) → ⊥) }
    {
        self.change(e, under, &Change::Open(t))
    }

    /// The expression with the loose bound variable `under` for the free variable `v`.
    pub fn close_free(&mut self, e: E, under: u64, v: u64) -> Result<E, SynFault>
        requires { e < length self.old }
        ensures within { IfOk result (λ r. r < length self.new) }
        ensures tree { IfOk result (λ r. tree self.new r ≡ close_at under v (tree self.old e)) }
        ensures goes_on { Extends self.old self.new }
        ensures too_big { IfErr result (λ f. f ≡ TooBig → IsSmall (close_at under v (tree self.old e)) → ⊥) }
    {
        self.change(e, under, &Change::Close(v))
    }

    /// The expression with `t` for the free variable `v`.
    pub fn replace(&mut self, e: E, v: u64, t: E) -> Result<E, SynFault>
        requires { (e < length self.old) × (t < length self.old) }
        ensures within { IfOk result (λ r. r < length self.new) }
        ensures tree { IfOk result (λ r. tree self.new r ≡ substitute (in_place_of v (tree self.old t)) (tree self.old e)) }
        ensures goes_on { Extends self.old self.new }
        ensures too_big { IfErr result (λ f. f ≡ TooBig → IsSmall (substitute (in_place_of v (tree self.old t)) (tree self.old e)) → ⊥) }
    {
        self.change(e, 0, &Change::Replace(v, t))
    }

    // The expression with its loose bound variables raised.
    #[tactic(auto, unfolding(ft_theory::specs::Expressions::under_binders))]
    pub(crate) fn raise(&mut self, e: E, by: u64) -> Result<E, SynFault>
        requires { e < length self.old }
        ensures within { IfOk result (λ r. r < length self.new) }
        ensures tree { IfOk result (λ r. tree self.new r ≡ rename (λ i. i + by) (tree self.old e)) }
        ensures goes_on { Extends self.old self.new }
        ensures too_big { IfErr result (λ f. f ≡ TooBig → IsSmall (rename (λ i. i + by) (tree self.old e)) → ⊥) }
    {
        self.change(e, 0, &Change::Raise(by))
    }

    // The expression with the change made, below so many binders.
    #[cycle(changing)]
    #[tactic(auto, using(crate::proofs::Changes::node_bound, crate::proofs::Changes::node_free, crate::proofs::Changes::node_symbol, crate::proofs::Changes::node_meta, crate::specs::Laws::extends_same))]
    fn change(&mut self, e: E, under: u64, change: &Change) -> Result<E, SynFault>
        requires { (e < length self.old) × ChangeBelow (length self.old) change.now }
        ensures within { IfOk result (λ r. r < length self.new) }
        ensures tree { IfOk result (λ r. tree self.new r ≡ changed self.old change.now under (tree self.old e)) }
        ensures goes_on { Extends self.old self.new }
        ensures too_big { IfErr result (λ f. f ≡ TooBig → IsSmall (changed self.old change.now under (tree self.old e)) → ⊥) }
    {
        match self.node(e) {
            Node::Bound(i) => self.change_bound(e, i, under, change),
            Node::Free(v) => self.change_free(e, v, under, change),
            Node::Sym(_) => self.change_arguments(e, under, change),
            Node::Meta(_) => self.change_arguments(e, under, change),
        }
    }

    // The bound variable i, which is e, with the change made.
    #[tactic(auto, using(crate::proofs::Changes::opened_there, crate::proofs::Changes::opened_other, crate::proofs::Changes::closed_bound, crate::proofs::Changes::replaced_bound, crate::proofs::Changes::raised_within, crate::proofs::Changes::raised_past, crate::proofs::Changes::small_bound, crate::specs::Laws::extends_same))]
    fn change_bound(&mut self, e: E, i: u64, under: u64, change: &Change) -> Result<E, SynFault>
        requires within { (e < length self.old) × ChangeBelow (length self.old) change.now }
        requires is { tree self.old e ≡ bound i }
        requires small { IsSmall (tree self.old e) }
        ensures within { IfOk result (λ r. r < length self.new) }
        ensures tree { IfOk result (λ r. tree self.new r ≡ changed self.old change.now under (bound i)) }
        ensures goes_on { Extends self.old self.new }
        ensures too_big { IfErr result (λ f. f ≡ TooBig → IsSmall (changed self.old change.now under (bound i)) → ⊥) }
    {
        match *change {
            Change::Open(t) => if i == under { Ok(t) } else { Ok(e) },
            Change::Close(_) => Ok(e),
            Change::Replace(_, _) => Ok(e),
            Change::Raise(n) => {
                if i < under {
                    return Ok(e);
                }
                match i.checked_add(n) {
                    Some(raised) => self.bound(raised),
                    None => Err(SynFault::TooBig),
                }
            }
        }
    }

    // The free variable u, which is e, with the change made.
    #[tactic(auto, using(crate::proofs::Changes::opened_free, crate::proofs::Changes::raised_free, crate::proofs::Changes::closed_there, crate::proofs::Changes::closed_other, crate::proofs::Changes::replaced_there, crate::proofs::Changes::replaced_other, crate::specs::Laws::extends_same))]
    fn change_free(&mut self, e: E, u: u64, under: u64, change: &Change) -> Result<E, SynFault>
        requires within { (e < length self.old) × ChangeBelow (length self.old) change.now }
        requires is { tree self.old e ≡ free u }
        ensures within { IfOk result (λ r. r < length self.new) }
        ensures tree { IfOk result (λ r. tree self.new r ≡ changed self.old change.now under (free u)) }
        ensures goes_on { Extends self.old self.new }
        ensures too_big { IfErr result (λ f. f ≡ TooBig → IsSmall (changed self.old change.now under (free u)) → ⊥) }
    {
        match *change {
            Change::Open(_) => Ok(e),
            Change::Close(v) => if u == v { self.bound(under) } else { Ok(e) },
            Change::Replace(v, t) => if u == v { Ok(t) } else { Ok(e) },
            Change::Raise(_) => Ok(e),
        }
    }

    // The application e with the change made in its arguments.
    #[cycle(changing)]
    #[tactic(auto, using(crate::proofs::Changing::changing_start, crate::proofs::Changing::changing_more, crate::proofs::Changing::changing_refused, crate::proofs::Changing::applied_longer, crate::proofs::Changing::changing_fits, crate::proofs::Changing::mapped_body, crate::proofs::Changing::changing_below, crate::proofs::Changing::changing_end, crate::proofs::Changing::changing_too_big, crate::proofs::Changing::applied_falls))]
    fn change_arguments(&mut self, e: E, under: u64, change: &Change) -> Result<E, SynFault>
        requires within { (e < length self.old) × ChangeBelow (length self.old) change.now }
        requires application { IsApplication (node_of (tree self.old e)) }
        ensures within { IfOk result (λ r. r < length self.new) }
        ensures tree { IfOk result (λ r. tree self.new r ≡ changed self.old change.now under (tree self.old e)) }
        ensures goes_on { Extends self.old self.new }
        ensures too_big { IfErr result (λ f. f ≡ TooBig → IsSmall (changed self.old change.now under (tree self.old e)) → ⊥) }
    {
        let args = self.arguments(e)?;
        let mut list = Vec::new(self.allocator());
        for a in &args {
            let body = self.change_body(a.body, a.binders, under, change)?;
            list.push(Arg {
                binders: a.binders,
                body,
            })?;
        }
        self.rebuilt(e, &args, list)
    }

    // The body of an argument with the change made.
    #[cycle(changing)]
    #[tactic(auto, using(crate::proofs::Changes::cut_body, crate::proofs::Changes::cut_body_refused, crate::specs::Laws::extends_same))]
    fn change_body(
        &mut self,
        body: Option<E>,
        binders: u64,
        under: u64,
        change: &Change,
    ) -> Result<Option<E>, SynFault>
        requires { BodyBelow (length self.old) body × ChangeBelow (length self.old) change.now }
        ensures within { IfOk result (λ b. BodyBelow (length self.new) b) }
        ensures body { IfOk result (λ b. option_map (tree self.new) b ≡ option_map (changed self.old change.now (binders + under)) (option_map (tree self.old) body)) }
        ensures goes_on { Extends self.old self.new }
        ensures too_big { IfErr result (λ f. f ≡ TooBig → IsSmallBody (option_map (changed self.old change.now (binders + under)) (option_map (tree self.old) body)) → ⊥) }
    {
        match body {
            None => Ok(None),
            Some(e) => {
                // a tree of the table is small, so that no bound number in it is at its type's end
                let _ = self.depth(e);
                let changed = match self.change(e, binders.saturating_add(under), change) {
                    Ok(changed) => changed,
                    Err(fault) => return Err(fault),
                };
                let _ = self.depth(changed);
                Ok(Some(changed))
            }
        }
    }
}

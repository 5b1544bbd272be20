//! Instances put for metavariables.

ghost use Rattle.std.specs.Prelude.{◌≡◌, ◌≢◌, ℕ, ◌+◌, ◌<◌, List, None, length, map, option_map, unwrap_or, IfOk, IfErr};
ghost use Rattle.ft_theory.specs.Expressions.{bound, free, instantiate};
ghost use Rattle.ft_theory.specs.Small.{IsSmall};
ghost use Rattle.ft_syntax.specs.Arguments.{node_of, applied, FitsNode, IsApplication};
ghost use Rattle.ft_syntax.specs.Table.{tree, Extends, argument_in, BodyBelow, ArgumentsBelow};
ghost use Rattle.ft_syntax.specs.Measures.{IsSmallBody};
ghost use Rattle.ft_syntax.specs.Instances.{instance_in, body_for, PairsBelow, BodiesBelow, KeepsHead, IsPlanted, IsNeverSmall, IsPlantedBody, IsNeverSmallBody, IsTermOf, HasBody};
ghost use Rattle.ft_syntax.specs.declared.syntax.SynFault.TheVariants.{TooBig, Memory};

use crate::instance::{Instance, body_at};
use crate::syntax::{Arg, E, Node, SynFault};
use crate::table::Terms;

impl Terms {
    /// The expression with the bodies of the instance for its metavariables, and their terms for the bodies' variables: the last
    /// term for the variable of the innermost binder. A term that a body drops may be of any size.
    pub fn instantiate(&mut self, e: E, instance: &Instance) -> Result<E, SynFault>
        requires { (e < length self.old) × PairsBelow (length self.old) instance.now.pairs }
        ensures within { IfOk result (λ r. r < length self.new) }
        ensures tree { IfOk result (λ r. tree self.new r ≡ instantiate (instance_in self.old instance.now.pairs) (tree self.old e)) }
        ensures goes_on { Extends self.old self.new }
        ensures too_big { IfErr result (λ f. f ≡ TooBig → IsSmall (instantiate (instance_in self.old instance.now.pairs) (tree self.old e)) → ⊥) }
    {
        self.instantiated(e, instance.pairs.items())
    }

    // The expression with the instance of the pairs put in it.
    #[cycle(instantiating)]
    #[tactic(auto, using(crate::proofs::Changes::node_bound, crate::proofs::Changes::node_free, crate::proofs::Changes::node_symbol, crate::proofs::Changes::node_meta, crate::proofs::Instantiating::instantiated_bound, crate::proofs::Instantiating::instantiated_free, crate::proofs::Instantiating::keeps_symbol, crate::proofs::Instantiating::keeps_meta, crate::proofs::Instantiating::has_body, crate::specs::Laws::extends_same))]
    fn instantiated(&mut self, e: E, pairs: &[(u64, Arg)]) -> Result<E, SynFault>
        requires { (e < length self.old) × PairsBelow (length self.old) pairs.now }
        ensures within { IfOk result (λ r. r < length self.new) }
        ensures tree { IfOk result (λ r. tree self.new r ≡ instantiate (instance_in self.old pairs.now) (tree self.old e)) }
        ensures goes_on { Extends self.old self.new }
        ensures too_big { IfErr result (λ f. f ≡ TooBig → IsSmall (instantiate (instance_in self.old pairs.now) (tree self.old e)) → ⊥) }
    {
        match self.node(e) {
            Node::Bound(_) => Ok(e),
            Node::Free(_) => Ok(e),
            Node::Sym(_) => self.instantiate_arguments(e, pairs),
            Node::Meta(m) => match body_at(pairs, m, self.count(e)) {
                None => self.instantiate_arguments(e, pairs),
                Some(b) => self.instantiate_meta(e, b, pairs),
            },
        }
    }

    // The application e, whose head stays, with the instance put in its arguments.
    #[cycle(instantiating)]
    #[tactic(auto, using(crate::proofs::Instantiating::instantiating_start, crate::proofs::Instantiating::instantiating_more, crate::proofs::Instantiating::instantiating_refused, crate::proofs::Instantiating::instantiating_longer, crate::proofs::Instantiating::instantiating_fits, crate::proofs::Changing::mapped_body, crate::proofs::Instantiating::instantiating_below, crate::proofs::Instantiating::instantiating_end, crate::proofs::Instantiating::instantiating_too_big, crate::proofs::Changing::applied_falls))]
    fn instantiate_arguments(&mut self, e: E, pairs: &[(u64, Arg)]) -> Result<E, SynFault>
        requires within { (e < length self.old) × PairsBelow (length self.old) pairs.now }
        requires application { IsApplication (node_of (tree self.old e)) }
        requires kept { KeepsHead pairs.now (tree self.old e) }
        ensures within { IfOk result (λ r. r < length self.new) }
        ensures tree { IfOk result (λ r. tree self.new r ≡ instantiate (instance_in self.old pairs.now) (tree self.old e)) }
        ensures goes_on { Extends self.old self.new }
        ensures too_big { IfErr result (λ f. f ≡ TooBig → IsSmall (instantiate (instance_in self.old pairs.now) (tree self.old e)) → ⊥) }
    {
        let args = self.arguments(e)?;
        let mut list = Vec::new(self.allocator());
        for a in &args {
            let body = self.instantiate_body(a.body, pairs)?;
            list.push(Arg {
                binders: a.binders,
                body,
            })?;
        }
        self.rebuilt(e, &args, list)
    }

    // The body of an argument with the instance put in it.
    #[cycle(instantiating)]
    #[tactic(auto, using(crate::specs::Laws::extends_same, crate::proofs::Instantiating::some_body, crate::proofs::Instantiating::some_refused))]
    fn instantiate_body(
        &mut self,
        body: Option<E>,
        pairs: &[(u64, Arg)],
    ) -> Result<Option<E>, SynFault>
        requires { BodyBelow (length self.old) body × PairsBelow (length self.old) pairs.now }
        ensures within { IfOk result (λ b. BodyBelow (length self.new) b) }
        ensures body { IfOk result (λ b. option_map (tree self.new) b ≡ option_map (instantiate (instance_in self.old pairs.now)) (option_map (tree self.old) body)) }
        ensures goes_on { Extends self.old self.new }
        ensures too_big { IfErr result (λ f. f ≡ TooBig → IsSmallBody (option_map (instantiate (instance_in self.old pairs.now)) (option_map (tree self.old) body)) → ⊥) }
    {
        match body {
            None => Ok(None),
            Some(e) => match self.instantiated(e, pairs) {
                Ok(r) => Ok(Some(r)),
                Err(fault) => Err(fault),
            },
        }
    }

    // The metavariable e at terms, for which the body b is put.
    #[cycle(instantiating)]
    #[tactic(auto, using(crate::proofs::Instantiating::gathering_start, crate::proofs::Instantiating::gathering_more, crate::proofs::Instantiating::gathering_below, crate::proofs::Instantiating::gathering_body, crate::proofs::Instantiating::gathering_term, crate::proofs::Instantiating::gathered_body, crate::proofs::Instantiating::gathered_tree, crate::proofs::Instantiating::gathered_too_big, crate::proofs::Instantiating::gathered_goes_on, crate::proofs::Changing::applied_falls, crate::proofs::Instantiating::meta_application))]
    fn instantiate_meta(&mut self, e: E, b: E, pairs: &[(u64, Arg)]) -> Result<E, SynFault>
        requires within { (e < length self.old) × PairsBelow (length self.old) pairs.now }
        requires body { HasBody pairs.now (tree self.old e) b }
        ensures within { IfOk result (λ r. r < length self.new) }
        ensures tree { IfOk result (λ r. tree self.new r ≡ instantiate (instance_in self.old pairs.now) (tree self.old e)) }
        ensures goes_on { Extends self.old self.new }
        ensures too_big { IfErr result (λ f. f ≡ TooBig → IsSmall (instantiate (instance_in self.old pairs.now) (tree self.old e)) → ⊥) }
    {
        let args = self.arguments(e)?;
        let mut terms = Vec::new(self.allocator());
        for a in &args {
            let term = self.instantiate_term(a.body, pairs)?;
            terms.push(term)?;
        }
        self.plug(b, 0, &terms)
    }

    // The term with the instance put in it, or none where this is not small: the body may drop it.
    #[cycle(instantiating)]
    #[tactic(auto, using(crate::proofs::Instantiating::term_some, crate::proofs::Instantiating::term_none))]
    fn instantiate_term(
        &mut self,
        body: Option<E>,
        pairs: &[(u64, Arg)],
    ) -> Result<Option<E>, SynFault>
        requires within { BodyBelow (length self.old) body × PairsBelow (length self.old) pairs.now }
        requires term { body ≢ None }
        ensures within { IfOk result (λ t. BodyBelow (length self.new) t) }
        ensures term { IfOk result (λ t. IsTermOf self.new t (instantiate (instance_in self.old pairs.now) (unwrap_or (option_map (tree self.old) body) (bound 0)))) }
        ensures goes_on { Extends self.old self.new }
        ensures memory { IfErr result (λ f. f ≡ Memory) }
    {
        match body {
            None => unreachable!(),
            Some(e) => match self.instantiated(e, pairs) {
                Ok(r) => Ok(Some(r)),
                Err(SynFault::TooBig) => Ok(None),
                Err(SynFault::Memory) => Err(SynFault::Memory),
            },
        }
    }

    // The expression, below so many binders, with terms for the variables that point past these: the last for the first.
    #[cycle(plugging)]
    #[tactic(auto, using(crate::proofs::Changes::node_bound, crate::proofs::Changes::node_free, crate::proofs::Changes::node_symbol, crate::proofs::Changes::node_meta, crate::proofs::Planting::plug_free, crate::specs::Laws::extends_same))]
    fn plug(&mut self, e: E, under: u64, terms: &[Option<E>]) -> Result<E, SynFault>
        requires { (e < length self.old) × BodiesBelow (length self.old) terms.now }
        ensures within { IfOk result (λ r. r < length self.new) }
        ensures tree { IfOk result (λ r. IsPlanted self.old terms.now under (tree self.old e) (tree self.new r)) }
        ensures goes_on { Extends self.old self.new }
        ensures too_big { IfErr result (λ f. f ≡ TooBig → IsNeverSmall self.old terms.now under (tree self.old e)) }
    {
        match self.node(e) {
            Node::Bound(i) => self.plug_bound(e, i, under, terms),
            Node::Free(_) => Ok(e),
            Node::Sym(_) => self.plug_arguments(e, under, terms),
            Node::Meta(_) => self.plug_arguments(e, under, terms),
        }
    }

    // The bound variable i, which is e, with terms put.
    #[tactic(auto, using(crate::proofs::Planting::plug_within, crate::proofs::Planting::plug_some, crate::proofs::Planting::plug_refused, crate::proofs::Planting::plug_none, crate::proofs::Planting::plug_past, crate::proofs::Planting::plug_past_small, crate::proofs::Planting::term_below, crate::specs::Laws::extends_same))]
    fn plug_bound(&mut self, e: E, i: u64, under: u64, terms: &[Option<E>]) -> Result<E, SynFault>
        requires within { (e < length self.old) × BodiesBelow (length self.old) terms.now }
        requires is { tree self.old e ≡ bound i }
        requires small { IsSmall (tree self.old e) }
        ensures within { IfOk result (λ r. r < length self.new) }
        ensures tree { IfOk result (λ r. IsPlanted self.old terms.now under (tree self.old e) (tree self.new r)) }
        ensures goes_on { Extends self.old self.new }
        ensures too_big { IfErr result (λ f. f ≡ TooBig → IsNeverSmall self.old terms.now under (tree self.old e)) }
    {
        if i < under {
            return Ok(e);
        }
        let count = terms.len() as u64;
        if i - under >= count {
            return self.bound(i - count);
        }
        let place = (count - 1 - (i - under)) as usize;
        let term = terms[place];
        match term {
            Some(t) => self.raise(t, under),
            None => Err(SynFault::TooBig),
        }
    }

    // The application e with terms put in its arguments.
    #[cycle(plugging)]
    #[tactic(auto, using(crate::proofs::Planting::planting_start, crate::proofs::Planting::planting_more, crate::proofs::Planting::planting_refused, crate::proofs::Planting::planting_longer, crate::proofs::Planting::planting_fits, crate::proofs::Planting::planting_body, crate::proofs::Planting::planting_below, crate::proofs::Planting::planting_end, crate::proofs::Planting::planting_too_big, crate::proofs::Changing::applied_falls))]
    fn plug_arguments(&mut self, e: E, under: u64, terms: &[Option<E>]) -> Result<E, SynFault>
        requires within { (e < length self.old) × BodiesBelow (length self.old) terms.now }
        requires application { IsApplication (node_of (tree self.old e)) }
        ensures within { IfOk result (λ r. r < length self.new) }
        ensures tree { IfOk result (λ r. IsPlanted self.old terms.now under (tree self.old e) (tree self.new r)) }
        ensures goes_on { Extends self.old self.new }
        ensures too_big { IfErr result (λ f. f ≡ TooBig → IsNeverSmall self.old terms.now under (tree self.old e)) }
    {
        let args = self.arguments(e)?;
        let mut list = Vec::new(self.allocator());
        for a in &args {
            let body = self.plug_body(a.body, a.binders, under, terms)?;
            list.push(Arg {
                binders: a.binders,
                body,
            })?;
        }
        self.rebuilt(e, &args, list)
    }

    // The body of an argument with terms put in it.
    #[cycle(plugging)]
    #[tactic(auto, using(crate::proofs::Planting::plug_none_body, crate::proofs::Planting::plug_body, crate::proofs::Planting::plug_body_refused, crate::specs::Laws::extends_same))]
    fn plug_body(
        &mut self,
        body: Option<E>,
        binders: u64,
        under: u64,
        terms: &[Option<E>],
    ) -> Result<Option<E>, SynFault>
        requires { BodyBelow (length self.old) body × BodiesBelow (length self.old) terms.now }
        ensures within { IfOk result (λ b. BodyBelow (length self.new) b) }
        ensures body { IfOk result (λ b. IsPlantedBody self.old terms.now (binders + under) (option_map (tree self.old) body) (option_map (tree self.new) b)) }
        ensures goes_on { Extends self.old self.new }
        ensures too_big { IfErr result (λ f. f ≡ TooBig → IsNeverSmallBody self.old terms.now (binders + under) (option_map (tree self.old) body)) }
    {
        match body {
            None => Ok(None),
            Some(e) => {
                // a tree of the table is small, so that no bound number in it is at its type's end
                let _ = self.depth(e);
                match self.plug(e, binders.saturating_add(under), terms) {
                    Ok(r) => Ok(Some(r)),
                    Err(fault) => Err(fault),
                }
            }
        }
    }
}

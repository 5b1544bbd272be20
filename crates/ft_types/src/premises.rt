//! The types of premises and conclusions.

ghost use Rattle.std.specs.Prelude.{◌≡◌, [], map, OnOk};
ghost use Rattle.ft_meaning.specs.Trees.{binder, premise, equation_body};
ghost use Rattle.ft_meaning.specs.CommandTyping.{binders_scope, body_typed, premise_typed};
ghost use Rattle.ft_meaning.specs.CommandTyping.{premises_scope, makes_symbol};
ghost use Rattle.ft_types.specs.Checking.{scope_of, Keeps, Passes, last_first, SeesNext};
ghost use Rattle.ft_types.specs.Commands.{Enters, name_in, body_in, conclusion_in, premise_has};

use crate::checker::{Checker, new_name};
use crate::fault::TypeFault;
use crate::types::KnownType;
use ft_base::Name;
use ft_grammar::{Ast, Binder, Body, Conclusion, Named, Premise};
use std::alloc::Global;

// The name of a premise with this body.
fn name_of(body: &Body) -> &Named
    ensures { result.now ≡ name_in body.now }
{
    match body {
        Body::Type(_, name) | Body::Term(_, name, _) | Body::Equation(_, _, _, _, name) => name,
    }
}

/// Whether a rule with this conclusion makes a symbol.
pub fn makes_symbol(conclusion: &Conclusion) -> bool
    ensures { result ≡ makes_symbol (conclusion_in conclusion.now) }
{
    match conclusion {
        Conclusion::Type(_) | Conclusion::Term(..) => true,
        Conclusion::Equation(..) => false,
    }
}

impl Checker {
    // Binders in turn, each of which is then a name within the command.
    #[tactic(auto, using(crate::proofs::Rules::keeping, crate::proofs::Rules::adding))]
    fn binders(&mut self, bs: &[Binder]) -> Result<(), TypeFault>
        ensures keeps { Keeps self.old self.new }
        ensures enters { Enters (binders_scope (map binder bs.now) (scope_of self.old))
            result self.old self.new }
    {
        for b in bs {
            self.judgement(&b.domain)?;
            self.push(&b.name.name, KnownType::Judgement)?;
        }
        Ok(())
    }

    // The parts of an equation, at a type where one is written, are judgements.
    #[tactic(auto, using(crate::proofs::Rules::keeping))]
    fn equation(&mut self, e: &Ast, f: &Ast, a: &Option<Ast>) -> Result<(), TypeFault>
        ensures keeps { Keeps self.old self.new }
        ensures passes { Passes (body_typed (equation_body e.now f.now a.now) (scope_of self.old))
            result self.old self.new }
    {
        self.judgement(e)?;
        self.judgement(f)?;
        match a {
            Some(a) => self.judgement(a),
            None => Ok(()),
        }
    }

    /// The parts of a conclusion are judgements.
    #[tactic(auto, using(crate::proofs::Rules::keeping))]
    pub fn conclusion(&mut self, conclusion: &Conclusion) -> Result<(), TypeFault>
        ensures keeps { Keeps self.old self.new }
        ensures passes { Passes (body_typed (conclusion_in conclusion.now) (scope_of self.old))
            result self.old self.new }
    {
        match conclusion {
            Conclusion::Type(_) => Ok(()),
            Conclusion::Term(_, a) => self.judgement(a),
            Conclusion::Equation(_, e, f, a) => self.equation(e, f, a),
        }
    }

    // The body of a premise, whose name is not among those that were seen, and is then one of them.
    #[tactic(auto, using(crate::proofs::Rules::keeping, crate::proofs::PremiseSteps::typed_equation))]
    fn premise_body(&mut self, body: &Body, seen: &mut Vec<Name>) -> Result<(), TypeFault>
        ensures keeps { Keeps self.old self.new }
        ensures passes { Passes
            (premise_typed (name_in body.now) (last_first seen.old.items) (body_in body.now)
            (scope_of self.old))
            result self.old self.new }
        ensures seen { OnOk result
            (SeesNext (name_in body.now).name seen.old.items seen.new.items) }
    {
        match body {
            Body::Type(_, name) => new_name(name, seen),
            Body::Term(_, name, a) => {
                new_name(name, seen)?;
                self.judgement(a)
            }
            Body::Equation(_, e, f, a, name) => {
                self.equation(e, f, a)?;
                new_name(name, seen)
            }
        }
    }

    // A premise, within which its binders are names.
    #[tactic(auto, using(crate::proofs::Rules::keeping, crate::proofs::Rules::adding), unfolding(crate::specs::Commands::premise_has))]
    fn premise(&mut self, p: &Premise, seen: &mut Vec<Name>) -> Result<(), TypeFault>
        ensures keeps { Keeps self.old self.new }
        ensures passes { Passes (premise_has p.now (last_first seen.old.items) (scope_of self.old))
            result self.old self.new }
        ensures seen { OnOk result
            (SeesNext (name_in p.now.body).name seen.old.items seen.new.items) }
    {
        let count = self.local_count();
        self.binders(p.binders.as_slice())?;
        self.premise_body(&p.body, seen)?;
        self.leave(count);
        Ok(())
    }

    /// Premises in turn, each of which is then a name within the command.
    #[tactic(auto, using(crate::proofs::Rules::keeping, crate::proofs::Rules::adding, crate::proofs::PremiseSteps::next_premise, crate::proofs::PremiseSteps::premise_fails))]
    pub fn premises(&mut self, alloc: Global, ps: &[Premise]) -> Result<(), TypeFault>
        ensures keeps { Keeps self.old self.new }
        ensures enters { Enters (premises_scope (map premise ps.now) [] (scope_of self.old))
            result self.old self.new }
    {
        let mut seen = Vec::new(alloc);
        for p in ps {
            self.premise(p, &mut seen)?;
            self.push(&name_of(&p.body).name, KnownType::Judgement)?;
        }
        Ok(())
    }
}

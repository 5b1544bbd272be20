// The laws of a type theory's wide steps. Each function states one law over the definitions alone.
#![tactic(auto)]

ghost use Rattle.ft_laws.specs.Laws.{KindIsAdmissible, Law, LawInstantiate, LawEqualInstantiate};
ghost use Rattle.ft_laws.specs.Syntax.{OpenUndoesClose, CloseUndoesOpen, OpenUndoesCloseInStatement, CloseUndoesOpenInStatement, SubstitutionAfterSubstitution, SubstitutionOfAbsent, OpenIsSubstitution, InstanceOfInstance, InstanceOfRuleInstance};
ghost use Rattle.ft_laws.specs.Derivations.{DerivableIsPrimitive, FinitaryAtEachLevel, LawScope, LawRenaming, LawSimultaneousSubstitution, LawDomain, LawDomainAtEach, LawLongerTheory, LawLongerTheoryPrimitive, LawUniqueType};
ghost use Rattle.ft_laws.specs.Instances.{LawLaterArguments, LawGeneralInstance, LawGeneralEqualInstances, LawRightInstance};
ghost use Rattle.ft_laws.specs.Examples.{TermsInOrder, ConclusionOfApplication, PremisesOfApplication, TwoIsNatural, ProductsAreFinitary, BetaIsDerivable, NothingFromIllFormedBoundary, NothingFromIllFormedAnnotation, NothingFromIllFormedEquation, NoAbsentVariable, NoLooseVariable, NoughtIsNoType, NoughtIsNotInNought};
ghost use Rattle.ft_laws.specs.Counterexamples.{LawNeedsFinitary, SidesNeedTheBoundary, SubstitutionNeedsVariableFree, NoStrengthening};

/// Weakening, kind 1: a statement may be taken to larger maps.
/// In a finitary theory these steps are admissible, and derivable by kinds up to 1 is derivable by primitive steps.
pub fn law_weaken()
    ensures kind { KindIsAdmissible 1 }
    ensures levels { Law 1 }
{}

/// Substitution, kind 2: a term may be put for the variable of the first domain.
/// In a finitary theory these steps are admissible, and derivable by kinds up to 2 is derivable by primitive steps.
pub fn law_substitute()
    ensures kind { KindIsAdmissible 2 }
    ensures levels { Law 2 }
{}

/// Sides, kind 3: what a derivable statement presupposes is derivable.
/// In a finitary theory these steps are admissible, and derivable by kinds up to 3 is derivable by primitive steps.
pub fn law_sides()
    ensures kind { KindIsAdmissible 3 }
    ensures levels { Law 3 }
{}

/// Equal substitution, kind 4: equal terms may be put for the variable of the first domain.
/// In a finitary theory these steps are admissible, and derivable by kinds up to 4 is derivable by primitive steps.
pub fn law_equal_substitution()
    ensures kind { KindIsAdmissible 4 }
    ensures levels { Law 4 }
{}

/// Instances, kind 5: the boundaries of a rule are derivable at its arguments.
/// In a finitary theory these steps are admissible, and derivable by kinds up to 5 is derivable by primitive steps.
pub fn law_instance()
    ensures kind { KindIsAdmissible 5 }
    ensures levels { Law 5 }
{}

/// Equal instances, kind 6: equal arguments give equal applications, and heads move between equal boundaries.
/// In a finitary theory these steps are admissible, and derivable by kinds up to 6 is derivable by primitive steps.
pub fn law_equal_instance()
    ensures kind { KindIsAdmissible 6 }
    ensures levels { Law 6 }
{}

/// Inversion, kind 7: the arguments and the natural type of an application are derivable.
/// In a finitary theory these steps are admissible, and derivable by kinds up to 7 is derivable by primitive steps.
pub fn law_inversion()
    ensures kind { KindIsAdmissible 7 }
    ensures levels { Law 7 }
{}

/// What is derivable over further metavariables is derivable at arguments for them.
pub fn law_instantiate()
    ensures law { LawInstantiate 7 }
{}

/// What is derivable over further metavariables is derivable at equal arguments for them.
pub fn law_equal_instantiate()
    ensures law { LawEqualInstantiate 7 }
{}

/// Opening at a variable undoes closing over it, and closing undoes opening, in expressions and in statements.
pub fn law_opening()
    ensures open_undoes_close { OpenUndoesClose }
    ensures close_undoes_open { CloseUndoesOpen }
    ensures open_undoes_close_in_statement { OpenUndoesCloseInStatement }
    ensures close_undoes_open_in_statement { CloseUndoesOpenInStatement }
{}

/// Substitution is simultaneous, changes nothing where the variable is absent, and opening is a substitution for a variable.
pub fn law_substitution_of_expressions()
    ensures after { SubstitutionAfterSubstitution }
    ensures absent { SubstitutionOfAbsent }
    ensures opening { OpenIsSubstitution }
{}

/// An instance of an instance is an instance, also for the boundaries of rules.
pub fn law_instance_of_instance()
    ensures instance { InstanceOfInstance }
    ensures rule { InstanceOfRuleInstance }
{}

/// In a finitary theory, derivable is primitively derivable; and a theory is finitary at one level exactly where it is so at each.
pub fn law_derivable_is_primitive()
    ensures law { DerivableIsPrimitive }
    ensures levels { FinitaryAtEachLevel }
{}

/// What is primitively derivable over any theory is closed and mentions only what its sequent has.
pub fn law_scope()
    ensures law { LawScope }
{}

/// What is derivable is derivable with its variables renamed.
pub fn law_renaming()
    ensures law { LawRenaming }
{}

/// What is derivable is derivable with derivable terms put for its variables, all at once.
pub fn law_simultaneous_substitution()
    ensures law { LawSimultaneousSubstitution }
{}

/// A statement under a domain comes from the statement at a new variable.
pub fn law_domain()
    ensures some { LawDomain }
    ensures each { LawDomainAtEach }
{}

/// What is derivable over a theory is derivable over every longer one.
pub fn law_longer_theory()
    ensures law { LawLongerTheory }
    ensures primitive { LawLongerTheoryPrimitive }
{}

/// All types of a term are equal.
pub fn law_unique_type()
    ensures law { LawUniqueType }
{}

/// Later arguments of a rule change nothing in the boundaries before them.
pub fn law_later_arguments()
    ensures law { LawLaterArguments }
{}

/// What is derivable is derivable at an instance, where some metavariables are given arguments and the others stay.
pub fn law_general_instance()
    ensures law { LawGeneralInstance }
{}

/// At two equal instances heads are equal, and what is derivable is derivable at the right one.
pub fn law_general_equal_instances()
    ensures heads { LawGeneralEqualInstances }
    ensures right { LawRightInstance }
{}

/// Instances and substitutions by computation.
pub fn example_computations()
    ensures order { TermsInOrder }
    ensures conclusion { ConclusionOfApplication }
    ensures premises { PremisesOfApplication }
{}

/// Over the natural numbers, `S(S(O)) : Nat` is primitively derivable.
pub fn example_naturals()
    ensures two { TwoIsNatural }
{}

/// The theory of natural numbers and dependent products with their beta rule is finitary, and an instance of the beta rule is derivable over it.
pub fn example_products()
    ensures finitary { ProductsAreFinitary }
    ensures beta { BetaIsDerivable }
{}

/// An ill-formed boundary of a metavariable, or an ill-formed type of a variable, gives nothing; and no ill-formed equation is derivable.
pub fn example_ill_formed()
    ensures boundary { NothingFromIllFormedBoundary }
    ensures annotation { NothingFromIllFormedAnnotation }
    ensures equation { NothingFromIllFormedEquation }
{}

/// No variable is derivable that the sequent lacks, and no bound variable without its binder.
pub fn example_out_of_scope()
    ensures absent { NoAbsentVariable }
    ensures loose { NoLooseVariable }
{}

/// Over the natural numbers `O type` and `O : O` are not derivable.
pub fn example_ill_typed()
    ensures no_type { NoughtIsNoType }
    ensures not_in_itself { NoughtIsNotInNought }
{}

/// From level one on the law is false for theories that are not finitary.
pub fn counterexample_not_finitary()
    ensures law { LawNeedsFinitary }
{}

/// Without the premise that a metavariable's boundary is derivable, the law on sides is false.
pub fn counterexample_loose_metavariable()
    ensures law { SidesNeedTheBoundary }
{}

/// Without the condition that a metavariable's boundary has no free variables, the law on substitution is false.
pub fn counterexample_free_variable_in_boundary()
    ensures law { SubstitutionNeedsVariableFree }
{}

/// A variable that a derivable statement does not mention cannot always be dropped.
pub fn counterexample_strengthening()
    ensures law { NoStrengthening }
{}

//! The calls of the nucleus over natural numbers.

use crate::calls::{One, Two};
use crate::script::Call::{self, *};
use crate::script::first_wrong;
use ft_nucleus::Which;

// Natural numbers, a family F over them, and the equation O == S(O); a variable x of Nat and y of F(x).
const NATURALS: [(Call, &str); 29] = [
    (Type, ""),
    (Begin("Nat"), ""),
    (Finish(0), ""),
    (Apply(1, &[]), "|- Nat type"),
    (Term(2), ""),
    (Begin("O"), ""),
    (Finish(3), ""),
    (Apply(4, &[]), "|- O : Nat"),
    (Begin("S"), ""),
    (Premise("n", 3), ""),
    (Finish(3), ""),
    (Apply(7, &[5]), "|- S(O) : Nat"),
    (NewVar("x", 2), ""),
    (Variable(9), "x#0 : Nat |- x#0 : Nat"),
    (Apply(7, &[10]), "x#0 : Nat |- S(x#0) : Nat"),
    (Bind(9, 11), "|- {@0 : Nat} S(@0) : Nat"),
    (Begin("F"), ""),
    (Premise("m", 3), ""),
    (Finish(0), ""),
    (Apply(14, &[10]), "x#0 : Nat |- F(x#0) type"),
    (Apply(14, &[5]), "|- F(O) type"),
    (NewVar("y", 15), ""),
    (Variable(17), "x#0 : Nat, y#1 : F(x#0) |- y#1 : F(x#0)"),
    (Of(One::Refl, 2), "|- Nat == Nat"),
    (Of(One::Refl, 8), "|- S(O) == S(O) : Nat"),
    (Terms(2, 5, 8), ""),
    (Begin("E"), ""),
    (Finish(21), ""),
    (Apply(22, &[]), "|- O == S(O) : Nat"),
];

// Answers of the calls for variables, substitution, equality, conversion, sides and boundaries.
const STRUCTURE: [(Call, &str); 26] = [
    (Of(One::Sym, 23), "|- S(O) == O : Nat"),
    (With(Two::Trans, 23, 24), "|- O == O : Nat"),
    (With(Two::Trans, 19, 19), "|- Nat == Nat"),
    (With(Two::Convert, 8, 19), "|- S(O) : Nat"),
    (With(Two::ConvertEquation, 23, 19), "|- O == S(O) : Nat"),
    (Of(One::Side(Which::Left), 23), "|- O : Nat"),
    (Of(One::Side(Which::Right), 23), "|- S(O) : Nat"),
    (Of(One::Side(Which::Right), 19), "|- Nat type"),
    (Of(One::Side(Which::Ty), 8), "|- Nat type"),
    (Of(One::Side(Which::Domain), 12), "|- Nat type"),
    (Of(One::Refl, 12), "|- {@0 : Nat} S(@0) == S(@0) : Nat"),
    (
        With(Two::Widen, 8, 18),
        "x#0 : Nat, y#1 : F(x#0) |- S(O) : Nat",
    ),
    (With(Two::Substitute, 12, 8), "|- S(S(O)) : Nat"),
    (
        With(Two::SubstituteEqual, 12, 23),
        "|- S(O) == S(S(O)) : Nat",
    ),
    (Bind(17, 18), "x#0 : Nat |- {@0 : F(x#0)} @0 : F(x#0)"),
    (Bind(9, 38), "|- {@0 : Nat} {@1 : F(@0)} @1 : F(@0)"),
    (With(Two::Substitute, 39, 5), "|- {@0 : F(O)} @0 : F(O)"),
    (Boundary(12), ""),
    (Part(Which::Ty, 41), "|- {@0 : Nat} Nat type"),
    (Part(Which::Domain, 41), "|- Nat type"),
    (PutBoundary(41, 5), ""),
    (Part(Which::Ty, 44), "|- Nat type"),
    (Types(2, 16), ""),
    (Part(Which::Left, 46), "|- Nat type"),
    (Part(Which::Right, 46), "|- F(O) type"),
    (Part(Which::Right, 21), "|- S(O) : Nat"),
];

// Their refusals; the answers between them are for these.
const NO_STRUCTURE: [(Call, &str); 38] = [
    (Of(One::Refl, 23), "WrongForm"),
    (Of(One::Sym, 8), "WrongForm"),
    (Of(One::Sym, 12), "WrongForm"),
    (With(Two::Trans, 23, 19), "WrongForm"),
    (
        With(Two::Trans, 23, 23),
        "SidesDiffer: found O, wanted S(O)",
    ),
    (With(Two::Convert, 2, 19), "WrongForm"),
    (With(Two::ConvertEquation, 8, 19), "WrongForm"),
    (Of(One::Refl, 16), "|- F(O) == F(O)"),
    (
        With(Two::Convert, 8, 24),
        "TypeDiffers: found Nat, wanted F(O)",
    ),
    (
        With(Two::ConvertEquation, 23, 24),
        "TypeDiffers: found Nat, wanted F(O)",
    ),
    (Of(One::Side(Which::Left), 8), "WrongForm"),
    (Of(One::Side(Which::Right), 8), "WrongForm"),
    (Of(One::Side(Which::Ty), 2), "WrongForm"),
    (Of(One::Side(Which::Domain), 8), "NotAbstracted"),
    (Part(Which::Ty, 0), "WrongForm"),
    (With(Two::Substitute, 8, 5), "NotAbstracted"),
    (With(Two::Substitute, 12, 2), "WrongForm"),
    (
        With(Two::Substitute, 12, 18),
        "TypeDiffers: found F(x#0), wanted Nat",
    ),
    (With(Two::SubstituteEqual, 8, 23), "NotAbstracted"),
    (With(Two::SubstituteEqual, 12, 5), "WrongForm"),
    (With(Two::SubstituteEqual, 12, 19), "WrongForm"),
    (Bind(9, 18), "DependentVariable: y#0"),
    (Term(15), ""),
    (NewMeta("M", 25), "OpenBoundary: x#0"),
    (NewVar("z", 5), "WrongForm"),
    (Term(5), "WrongForm"),
    (Types(2, 5), "WrongForm"),
    (Terms(2, 5, 2), "WrongForm"),
    (Terms(16, 5, 8), "TypeDiffers: found Nat, wanted F(O)"),
    (Terms(2, 5, 18), "TypeDiffers: found F(x#0), wanted Nat"),
    (NewVar("z", 16), ""),
    (Variable(26), "z#0 : F(O) |- z#0 : F(O)"),
    (Of(One::Refl, 27), "z#0 : F(O) |- z#0 == z#0 : F(O)"),
    (
        With(Two::Trans, 23, 28),
        "TypeDiffers: found F(O), wanted Nat",
    ),
    (
        With(Two::SubstituteEqual, 12, 28),
        "TypeDiffers: found F(O), wanted Nat",
    ),
    (Boundary(12), ""),
    (PutBoundary(29, 2), "WrongForm"),
    (PutBoundary(3, 5), "NotAbstracted"),
];

// Answers of the calls on rules: G takes a number and a member of its F, P a family of types, Q an equation.
const RULES: [(Call, &str); 38] = [
    (ApplyWith(7, 3, &[8]), "|- S(S(O)) : Nat"),
    (Next(7, &[]), ""),
    (Part(Which::Ty, 25), "|- Nat type"),
    (Next(22, &[]), ""),
    (Part(Which::Left, 27), "|- O : Nat"),
    (Congruence(7, &[5], &[23]), "|- S(O) == S(S(O)) : Nat"),
    (Congruence(14, &[5], &[23]), "|- F(O) == F(S(O))"),
    (Argument(8, 1), "|- O : Nat"),
    (Argument(15, 1), "x#0 : Nat |- x#0 : Nat"),
    (Of(One::Natural, 8), "|- Nat == Nat"),
    (
        Of(One::Natural, 18),
        "x#0 : Nat, y#1 : F(x#0) |- F(x#0) == F(x#0)",
    ),
    (Begin("G"), ""),
    (Premise("n", 3), ""),
    (Generic(35), "n?2 := _ : Nat |- n?2 : Nat"),
    (Apply(14, &[36]), "n?2 := _ : Nat |- F(n?2) type"),
    (Term(37), ""),
    (Premise("a", 38), ""),
    (
        Generic(39),
        "n?2 := _ : Nat, a?3 := _ : F(n?2) |- a?3 : F(n?2)",
    ),
    (Finish(0), ""),
    (NewVar("z", 16), ""),
    (Variable(42), "z#0 : F(O) |- z#0 : F(O)"),
    (Apply(41, &[5, 43]), "z#0 : F(O) |- G(O, z#0) type"),
    (
        Move(41, &[5], &[23], 43, false),
        "z#0 : F(O) |- z#0 : F(S(O))",
    ),
    (Apply(41, &[8, 45]), "z#0 : F(O) |- G(S(O), z#0) type"),
    (Move(41, &[5], &[23], 45, true), "z#0 : F(O) |- z#0 : F(O)"),
    (Next(41, &[8]), ""),
    (Part(Which::Ty, 48), "|- F(S(O)) type"),
    (Of(One::Refl, 43), "z#0 : F(O) |- z#0 == z#0 : F(O)"),
    (BindBoundary(9, 0), ""),
    (Begin("P"), ""),
    (Premise("a", 51), ""),
    (Finish(0), ""),
    (Bind(9, 15), "|- {@0 : Nat} F(@0) type"),
    (Apply(53, &[54]), "|- P({@0} F(@0)) type"),
    (Begin("Q"), ""),
    (Premise("e", 21), ""),
    (Finish(0), ""),
    (Apply(57, &[23]), "|- Q(*) type"),
];

// Refusals of rules and of their calls.
const NO_RULES: [(Call, &str); 41] = [
    (Apply(7, &[]), "ArgumentCount: 0 given, 1 wanted"),
    (Apply(7, &[5, 5]), "ArgumentCount: 2 given, 1 wanted"),
    (Apply(7, &[2]), "WrongForm"),
    (Apply(7, &[12]), "WrongForm"),
    (Apply(7, &[18]), "TypeDiffers: found F(x#0), wanted Nat"),
    (ApplyWith(7, 3, &[]), "ArgumentCount: 0 given, 1 wanted"),
    (ApplyWith(7, 0, &[5]), "WrongForm"),
    (Term(16), ""),
    (
        ApplyWith(7, 24, &[5]),
        "TypeDiffers: found F(O), wanted Nat",
    ),
    (Next(7, &[5, 5]), "ArgumentCount: 2 given, 1 wanted"),
    (Next(7, &[18]), "TypeDiffers: found F(x#0), wanted Nat"),
    (Congruence(22, &[], &[]), "WrongForm"),
    (Congruence(7, &[], &[]), "ArgumentCount: 0 given, 1 wanted"),
    (Congruence(7, &[5], &[]), "ArgumentCount: 0 given, 1 wanted"),
    (Congruence(7, &[5], &[19]), "WrongForm"),
    (
        Congruence(7, &[8], &[23]),
        "SidesDiffer: found O, wanted S(O)",
    ),
    (
        Move(7, &[5], &[23], 5, false),
        "ArgumentCount: 1 given, 1 wanted",
    ),
    (
        Move(7, &[], &[23], 5, false),
        "ArgumentCount: 1 given, 0 wanted",
    ),
    (Move(7, &[], &[], 2, false), "WrongForm"),
    (Move(7, &[], &[], 5, false), "|- O : Nat"),
    (Argument(23, 1), "WrongForm"),
    (Argument(10, 1), "NotApplication"),
    (Argument(8, 0), "ArgumentCount: 0 given, 1 wanted"),
    (Argument(8, 2), "ArgumentCount: 2 given, 1 wanted"),
    (Of(One::Natural, 2), "WrongForm"),
    (Begin("S"), "rule S declared twice"),
    (Begin("H"), ""),
    (Term(15), ""),
    (Premise("p", 26), "premise 1 keeps x#0"),
    (Finish(26), "conclusion keeps x#0"),
    (Premise("p", 3), ""),
    (Generic(27), "p?2 := _ : Nat |- p?2 : Nat"),
    (Apply(14, &[28]), "p?2 := _ : Nat |- F(p?2) type"),
    (Term(29), ""),
    (Begin("K"), ""),
    (Premise("q", 30), "premise 1 keeps p?2"),
    (Premise("q", 3), ""),
    (Premise("r", 30), "premise 2 keeps p?2"),
    (Finish(30), "conclusion keeps p?2"),
    (Finish(3), ""),
    (Finish(3), "rule K declared twice"),
];

// Calls on metavariables, and their refusals.
const METAVARIABLES: [(Call, &str); 24] = [
    (BindBoundary(9, 0), ""),
    (NewMeta("C", 24), ""),
    (
        Generic(25),
        "C?2 := {@0 : Nat} _ type |- {@0 : Nat} C?2(@0) type",
    ),
    (Meta(25, &[5]), "C?2 := {@0 : Nat} _ type |- C?2(O) type"),
    (
        MetaCongruence(25, &[23]),
        "C?2 := {@0 : Nat} _ type |- C?2(O) == C?2(S(O))",
    ),
    (Argument(27, 1), "C?2 := {@0 : Nat} _ type |- O : Nat"),
    (BindBoundary(9, 3), ""),
    (NewMeta("f", 30), ""),
    (Meta(31, &[5]), "f?3 := {@0 : Nat} _ : Nat |- f?3(O) : Nat"),
    (
        Of(One::Natural, 32),
        "f?3 := {@0 : Nat} _ : Nat |- Nat == Nat",
    ),
    (NewMeta("e", 21), ""),
    (Generic(34), "e?4 := O == S(O) : Nat |- O == S(O) : Nat"),
    (NewMeta("a", 0), ""),
    (Generic(36), "a?5 := _ type |- a?5 type"),
    (Meta(25, &[]), "ArgumentCount: 0 given, 1 wanted"),
    (Meta(25, &[2]), "WrongForm"),
    (Meta(25, &[18]), "TypeDiffers: found F(x#0), wanted Nat"),
    (MetaCongruence(34, &[]), "WrongForm"),
    (MetaCongruence(25, &[]), "ArgumentCount: 0 given, 1 wanted"),
    (MetaCongruence(25, &[5]), "WrongForm"),
    (NewVar("z", 16), ""),
    (Variable(38), "z#0 : F(O) |- z#0 : F(O)"),
    (Of(One::Refl, 39), "z#0 : F(O) |- z#0 == z#0 : F(O)"),
    (
        MetaCongruence(25, &[40]),
        "TypeDiffers: found F(O), wanted Nat",
    ),
];

#[test]
fn structural_calls_answer(rt: HostRuntime) {
    assert_eq!(rt; first_wrong(rt.alloc(), &NATURALS, &STRUCTURE), None);
}

#[test]
fn structural_calls_refuse(rt: HostRuntime) {
    assert_eq!(rt; first_wrong(rt.alloc(), &NATURALS, &NO_STRUCTURE), None);
}

#[test]
fn calls_on_rules_answer(rt: HostRuntime) {
    assert_eq!(rt; first_wrong(rt.alloc(), &NATURALS, &RULES), None);
}

#[test]
fn calls_on_rules_refuse(rt: HostRuntime) {
    assert_eq!(rt; first_wrong(rt.alloc(), &NATURALS, &NO_RULES), None);
}

#[test]
fn calls_on_metavariables_answer_or_refuse(rt: HostRuntime) {
    assert_eq!(rt; first_wrong(rt.alloc(), &NATURALS, &METAVARIABLES), None);
}

//! Steps of derivation files with their verdicts: variables, substitution, equations and conversion.

use crate::files::checks;
use std::alloc::Global;
use std::test::Fail;

// A file whose 52 items are allowed. Its ten rules are `Nat`, `O`, `S`, `one : O == S(O)`, `F` of a
// natural number, `two : F(O) == F(S(O))`, `p : F(O)`, `Q` with a type over a variable and an
// equation among its premises, `T` of a number `n` and an `F(n)`, and `U(n) : F(n)`. The
// metavariables are `n : Nat`, `G type` over a variable, `e : O == S(O)` and `z : F(n)`. The
// variables 4 and 5 are here `x : Nat` and `y : F(x)`. The entries, each by its number:
//
//  0: `_ type`             1: `Nat type`           2: `_ : Nat`            3: `O : Nat`
//  4: `x : Nat`            5: `S(O) : Nat`         6: the goal of 7        7: `O == S(O) : Nat`
//  8: `F(O) type`          9: `F(S(O)) type`      10: the goal of 11      11: `F(O) == F(S(O))`
// 12: `_ : F(O)`          13: `p : F(O)`          14: `p : F(S(O))`       15: `F(x) type`
// 16: 15, abstracted      17: 4, abstracted       18: 0, abstracted       19: `n : Nat`
// 20: `F(n) type`         21: `_ : F(n)`          22: `y : F(x)`          23: 7, exchanged
// 24: 7, abstracted       25: `F(x) == F(x)`      26: 25, abstracted      27: `p == p : F(O)`
// 28: `_ : F(x)`          29: `U(x) : F(x)`       30: 29, abstracted      31: 11, exchanged
// 32: `p == p : F(S(O))`  33: 1, resting on `x`   34: 2, resting on `x`   35: `x == x : Nat`
const BEGIN: &str = "andromeda derivation 1
B T [] btype
R Nat ; 0
J T s0() [] rule 0
B t s0() [] bterm 1
R O ; 2
J t s1() s0() [] rulewith 1 2
M n 2
R S 0 ; 2
V 4 x 1
J t v4 s0() [v4] var 4
J t s2(0.s1()) s0() [] rulewith 2 2 3
B e s1() s2(0.s1()) s0() [] beqtm 1 3 5
R one ; 6
J e s1() s2(0.s1()) s0() [] rulewith 3 6
R F 0 ; 0
J T s4(0.s1()) [] rule 4 3
J T s4(0.s2(0.s1())) [] rule 4 5
B E s4(0.s1()) s4(0.s2(0.s1())) [] beqty 8 9
R two ; 10
J E s4(0.s1()) s4(0.s2(0.s1())) [] rulewith 5 10
B t s4(0.s1()) [] bterm 8
R p ; 12
J t s6() s4(0.s1()) [] rulewith 6 12
J t s6() s4(0.s2(0.s1())) [] conv 13 11
J T s4(0.v4) [v4] rule 4 4
J {s0()}T s4(0.b0) [] abs 4 15
J {s0()}t b0 s0() [] abs 4 4
B {s0()}T [] abs 4 0
M G 18
M e 6
R Q 0 1 2 ; 0
J t m0() s0() [m0] generic 0
J T s4(0.m0()) [m0] rule 4 19
B t s4(0.m0()) [m0] bterm 20
M z 21
R T 0 3 ; 2
R U 0 ; 21
V 5 y 15
J t v5 s4(0.v4) [v4,v5] var 5
J e s2(0.s1()) s1() s0() [] sym 7
J {s0()}e s1() s2(0.s1()) s0() [] abs 4 7
J E s4(0.v4) s4(0.v4) [v4] refl 15
J {s0()}E s4(0.b0) s4(0.b0) [] abs 4 25
J e s6() s6() s4(0.s1()) [] refl 13
B t s4(0.v4) [v4] bterm 15
J t s9(0.v4) s4(0.v4) [v4] rulewith 9 28 4
J {s0()}t s9(0.b0) s4(0.b0) [] abs 4 29
J E s4(0.s2(0.s1())) s4(0.s1()) [] sym 11
J e s6() s6() s4(0.s2(0.s1())) [] conveq 27 11
J T s0() [v4] widen 1 4
B t s0() [v4] bterm 33
J e v4 v4 s0() [v4] refl 4
";

// The verdict on the file with one more entry, but for the level or the reason.
const ACCEPTED: &str = "accepted 10 rules, 37 entries, 0 shown, ";

const REJECTED: &str = "rejected 52 ";

/// Whether `check` answers so for the file with this line after the others: with a level where it
/// accepts the line, else with the reason against it.
pub fn answers(alloc: Global, line: &str, answer: &str) -> Result<bool, Fail> {
    answers_after(alloc, "", (ACCEPTED, REJECTED), line, answer)
}

/// The same with further lines before this one, where verdicts begin so: that which accepts, and
/// that which rejects.
pub fn answers_after(
    alloc: Global,
    more: &str,
    fronts: (&str, &str),
    line: &str,
    answer: &str,
) -> Result<bool, Fail> {
    let front = if answer.starts_with("level ") {
        fronts.0
    } else {
        fronts.1
    };
    let file = format!(in alloc; "{BEGIN}{more}{line}\nend\n")?;
    let verdict = format!(in alloc; "{front}{answer}")?;
    checks(alloc, file.as_bytes(), &verdict)
}

// Variables and metavariables.
const VARIABLES: [(&str, &str); 34] = [
    // A variable.
    ("J t v5 s4(0.v4) [v4,v5] var 5", "level 1"),
    ("J t v5 s4(0.v4) [v4,v5] var 3", "reference"),
    ("B t s4(0.v4) [v4,v5] var 5", "kind"),
    ("J t v4 s4(0.v4) [v4,v5] var 5", "conclusion"),
    ("J t v5 s0() [v4,v5] var 5", "conclusion"),
    ("J t v5 s4(0.v4) [v5] var 5", "set"),
    ("J t v5 s4(0.v4) [v4] var 5", "set"),
    ("J t v4 s0() [v5] var 4", "set"),
    // A metavariable at the variables of its own domains.
    ("J {s0()}T m1(b0) [m1] generic 1", "level 1"),
    ("J e s1() s2(0.s1()) s0() [m2] generic 2", "level 1"),
    ("J t m3() s4(0.m0()) [m0,m3] generic 3", "level 1"),
    ("J {s0()}T m1(b0) [m1] generic 4", "reference"),
    ("B {s0()}T [m1] generic 1", "kind"),
    ("J {s0()}T m1(s1()) [m1] generic 1", "conclusion"),
    ("J T m1(b0) [m1] generic 1", "conclusion"),
    ("J {s0()}T m1(b0) [] generic 1", "set"),
    ("J t m3() s4(0.m0()) [m3] generic 3", "set"),
    // A metavariable at terms.
    ("J T m1(s1()) [m1] meta 1 3", "level 1"),
    ("J T m1(v4) [m1,v4] meta 1 4", "level 1"),
    ("J t m3() s4(0.m0()) [m0,m3] meta 3", "level 1"),
    ("J T m1(s1()) [m1] meta 4 3", "reference"),
    ("J T m1(s1()) [m1] meta 1 36", "reference"),
    ("J T m1(s1()) [m1] meta 1 2", "kind"),
    ("B T [m1] meta 1 3", "kind"),
    ("J T m1() [m1] meta 1", "premise"),
    ("J T m1(s1(),s1()) [m1] meta 1 3 3", "premise"),
    ("J T m1(s6()) [m1] meta 1 13", "premise"),
    ("J T m1(s0()) [m1] meta 1 1", "premise"),
    ("J T m1(b0) [m1] meta 1 17", "premise"),
    ("J T m1(s2(0.s1())) [m1] meta 1 3", "conclusion"),
    ("J T m1(s1()) [] meta 1 3", "set"),
    ("J T m1(v4) [m1] meta 1 4", "set"),
    ("J T m1(v4) [m0,v4] meta 1 4", "set"),
    ("J t m3() s4(0.m0()) [m3] meta 3", "set"),
];

#[test]
fn each_step_at_a_variable_or_a_metavariable_has_its_verdict(rt: HostRuntime) -> Result<(), Fail> {
    for (line, answer) in VARIABLES {
        assert!(rt; answers(rt.alloc(), line, answer)?, "{line}");
    }
    Ok(())
}

// A metavariable at equations, and substitution of equations.
const CONGRUENT: [(&str, &str); 35] = [
    // A metavariable at equal terms.
    ("J E m1(s1()) m1(s2(0.s1())) [m1] metacong 1 7", "level 6"),
    ("J E m1(v4) m1(v4) [m1,v4] metacong 1 35", "level 6"),
    ("J e m3() m3() s4(0.m0()) [m0,m3] metacong 3", "level 6"),
    ("J E m1(s1()) m1(s2(0.s1())) [m1] metacong 4 7", "reference"),
    (
        "J E m1(s1()) m1(s2(0.s1())) [m1] metacong 1 36",
        "reference",
    ),
    ("J E m1(s1()) m1(s2(0.s1())) [m1] metacong 1 6", "kind"),
    ("B E m1(s1()) m1(s2(0.s1())) [m1] metacong 1 7", "kind"),
    ("J E m1() m1() [m1] metacong 1", "premise"),
    ("J E m1(s1()) m1(s2(0.s1())) [m1] metacong 1 7 7", "premise"),
    ("J E m1(s1()) m1(s1()) [m1] metacong 1 3", "premise"),
    (
        "J E m1(s4(0.s1())) m1(s4(0.s2(0.s1()))) [m1] metacong 1 11",
        "premise",
    ),
    ("J E m1(s6()) m1(s6()) [m1] metacong 1 27", "premise"),
    ("J E m1(s1()) m1(s2(0.s1())) [m1] metacong 1 24", "premise"),
    ("J e s1() s2(0.s1()) s0() [m2] metacong 2", "premise"),
    (
        "J E m1(s2(0.s1())) m1(s1()) [m1] metacong 1 7",
        "conclusion",
    ),
    ("J E m1(s1()) m1(s2(0.s1())) [] metacong 1 7", "set"),
    ("J E m1(v4) m1(v4) [m1] metacong 1 35", "set"),
    ("J e m3() m3() s4(0.m0()) [m3] metacong 3", "set"),
    // Equal terms for the variable of the first domain.
    ("J E s4(0.s1()) s4(0.s2(0.s1())) [] substeq 16 7", "level 4"),
    ("J e s1() s2(0.s1()) s0() [] substeq 17 7", "level 4"),
    (
        "J e s9(0.s1()) s9(0.s2(0.s1())) s4(0.s1()) [] substeq 30 7",
        "level 4",
    ),
    ("J E s4(0.v4) s4(0.v4) [v4] substeq 16 35", "level 4"),
    (
        "J E s4(0.s1()) s4(0.s2(0.s1())) [] substeq 36 7",
        "reference",
    ),
    (
        "J E s4(0.s1()) s4(0.s2(0.s1())) [] substeq 16 36",
        "reference",
    ),
    ("J E s4(0.s1()) s4(0.s2(0.s1())) [] substeq 18 7", "kind"),
    ("J E s4(0.s1()) s4(0.s2(0.s1())) [] substeq 16 6", "kind"),
    ("B E s4(0.s1()) s4(0.s2(0.s1())) [] substeq 16 7", "kind"),
    ("J E s4(0.v4) s4(0.v4) [v4] substeq 15 7", "premise"),
    ("J e s1() s2(0.s1()) s0() [] substeq 24 7", "premise"),
    ("J E s4(0.s1()) s4(0.s1()) [] substeq 16 3", "premise"),
    (
        "J E s4(0.s1()) s4(0.s2(0.s1())) [] substeq 16 27",
        "premise",
    ),
    (
        "J E s4(0.s1()) s4(0.s2(0.s1())) [] substeq 16 24",
        "premise",
    ),
    (
        "J E s4(0.s2(0.s1())) s4(0.s1()) [] substeq 16 7",
        "conclusion",
    ),
    (
        "J e s9(0.s1()) s9(0.s2(0.s1())) s4(0.s2(0.s1())) [] substeq 30 7",
        "conclusion",
    ),
    ("J E s4(0.v4) s4(0.v4) [] substeq 16 35", "set"),
];

#[test]
fn each_congruence_of_a_metavariable_has_its_verdict(rt: HostRuntime) -> Result<(), Fail> {
    for (line, answer) in CONGRUENT {
        assert!(rt; answers(rt.alloc(), line, answer)?, "{line}");
    }
    Ok(())
}

// Abstraction and substitution.
const SUBSTITUTED: [(&str, &str); 34] = [
    // A variable bound.
    ("J {s0()}t b0 s0() [] abs 4 4", "level 1"),
    ("J {s0()}T s4(0.s1()) [] abs 4 8", "level 1"),
    ("J {s4(0.v4)}t b0 s4(0.v4) [v4] abs 5 22", "level 1"),
    ("J {s4(0.v4)}T s0() [v4] abs 5 1", "level 1"),
    ("B {s0()}t s0() [] abs 4 34", "level 1"),
    ("J {s0()}t b0 s0() [] abs 3 4", "reference"),
    ("J {s0()}t b0 s0() [] abs 4 36", "reference"),
    ("B {s0()}t s0() [] abs 4 4", "kind"),
    ("J {s0()}T s0() [] abs 4 0", "kind"),
    ("J {s0()}t v5 s4(0.b0) [v5] abs 4 22", "premise"),
    ("J {s0()}t v4 s0() [] abs 4 4", "conclusion"),
    ("J t v4 s0() [] abs 4 4", "conclusion"),
    ("J {s4(0.s1())}t b0 s0() [] abs 4 4", "conclusion"),
    ("J {s0()}t b0 s0() [v4] abs 4 4", "set"),
    ("J {s4(0.v4)}t b0 s4(0.v4) [] abs 5 22", "set"),
    ("J {s4(0.v4)}T s0() [] abs 5 1", "set"),
    // A term for the variable of the first domain.
    ("J T s4(0.s1()) [] subst 16 3", "level 2"),
    ("J t s2(0.s1()) s0() [] subst 17 5", "level 2"),
    ("J T s4(0.v4) [v4] subst 16 4", "level 2"),
    ("B T [] subst 18 3", "level 2"),
    ("J T s4(0.s1()) [] subst 36 3", "reference"),
    ("J T s4(0.s1()) [] subst 16 36", "reference"),
    ("J T s4(0.s1()) [] subst 16 2", "kind"),
    ("B T [] subst 16 3", "kind"),
    ("J T s4(0.s1()) [] subst 18 3", "kind"),
    ("J T s4(0.v4) [v4] subst 15 3", "premise"),
    ("J T s4(0.s6()) [] subst 16 13", "premise"),
    ("J T s4(0.s0()) [] subst 16 1", "premise"),
    ("J T s4(0.s1()) [] subst 16 17", "premise"),
    ("J T s4(0.s1()) [] subst 16 7", "premise"),
    ("J T s4(0.s2(0.s1())) [] subst 16 3", "conclusion"),
    ("J {s0()}T s4(0.s1()) [] subst 16 3", "conclusion"),
    ("J T s4(0.v4) [] subst 16 4", "set"),
    ("J T s4(0.s1()) [v4] subst 16 3", "set"),
];

#[test]
fn each_abstraction_and_substitution_has_its_verdict(rt: HostRuntime) -> Result<(), Fail> {
    for (line, answer) in SUBSTITUTED {
        assert!(rt; answers(rt.alloc(), line, answer)?, "{line}");
    }
    Ok(())
}

// Equations.
const EQUATIONS: [(&str, &str); 35] = [
    // A type or term is equal to itself.
    ("J E s0() s0() [] refl 1", "level 1"),
    ("J e v4 v4 s0() [v4] refl 4", "level 1"),
    ("J {s0()}E s4(0.b0) s4(0.b0) [] refl 16", "level 3"),
    ("J E s0() s0() [] refl 36", "reference"),
    ("J E s0() s0() [] refl 0", "kind"),
    ("B E s0() s0() [] refl 1", "kind"),
    ("J e s1() s2(0.s1()) s0() [] refl 7", "premise"),
    ("J {s0()}e s1() s2(0.s1()) s0() [] refl 24", "premise"),
    ("J e s1() s2(0.s1()) s0() [] refl 3", "conclusion"),
    ("J E s4(0.b0) s4(0.b0) [] refl 16", "conclusion"),
    ("J e v4 v4 s0() [] refl 4", "set"),
    // The sides exchanged.
    ("J e s2(0.s1()) s1() s0() [] sym 7", "level 1"),
    ("J E s4(0.s2(0.s1())) s4(0.s1()) [] sym 11", "level 1"),
    ("J e s2(0.s1()) s1() s0() [] sym 36", "reference"),
    ("J e s2(0.s1()) s1() s0() [] sym 6", "kind"),
    ("B e s2(0.s1()) s1() s0() [] sym 7", "kind"),
    ("J t s1() s0() [] sym 3", "premise"),
    ("J {s0()}e s2(0.s1()) s1() s0() [] sym 24", "premise"),
    ("J e s1() s2(0.s1()) s0() [] sym 7", "conclusion"),
    ("J e s2(0.s1()) s1() s0() [v4] sym 7", "set"),
    // Two equations with the same side in the middle.
    ("J e s1() s1() s0() [] trans 7 23", "level 1"),
    ("J E s4(0.s1()) s4(0.s1()) [] trans 11 31", "level 1"),
    ("J e s1() s1() s0() [] trans 36 23", "reference"),
    ("J e s1() s1() s0() [] trans 7 36", "reference"),
    ("J e s1() s1() s0() [] trans 6 23", "kind"),
    ("J e s1() s1() s0() [] trans 7 6", "kind"),
    ("B e s1() s1() s0() [] trans 7 23", "kind"),
    ("J e s1() s2(0.s1()) s0() [] trans 7 7", "premise"),
    ("J E s4(0.s1()) s4(0.s2(0.s1())) [] trans 11 11", "premise"),
    ("J e s6() s6() s4(0.s1()) [] trans 27 32", "premise"),
    ("J e s1() s4(0.s2(0.s1())) s0() [] trans 7 11", "premise"),
    ("J e s1() s1() s0() [] trans 7 3", "premise"),
    ("J {s0()}e s1() s1() s0() [] trans 24 23", "premise"),
    ("J e s1() s2(0.s1()) s0() [] trans 7 23", "conclusion"),
    ("J e s1() s1() s0() [v4] trans 7 23", "set"),
];

#[test]
fn each_step_of_an_equation_has_its_verdict(rt: HostRuntime) -> Result<(), Fail> {
    for (line, answer) in EQUATIONS {
        assert!(rt; answers(rt.alloc(), line, answer)?, "{line}");
    }
    Ok(())
}

// Conversion.
const CONVERTED: [(&str, &str); 30] = [
    // A term at an equal type.
    ("J t s6() s4(0.s2(0.s1())) [] conv 13 11", "level 1"),
    ("J t s6() s4(0.s1()) [] conv 14 31", "level 1"),
    ("J t v5 s4(0.v4) [v4,v5] conv 22 25", "level 1"),
    ("J t s6() s4(0.s2(0.s1())) [] conv 36 11", "reference"),
    ("J t s6() s4(0.s2(0.s1())) [] conv 13 36", "reference"),
    ("J t s6() s4(0.s2(0.s1())) [] conv 12 11", "kind"),
    ("J t s6() s4(0.s2(0.s1())) [] conv 13 10", "kind"),
    ("B t s4(0.s2(0.s1())) [] conv 13 11", "kind"),
    ("J t s6() s4(0.s2(0.s1())) [] conv 14 11", "premise"),
    ("J t s6() s4(0.s1()) [] conv 13 31", "premise"),
    ("J T s4(0.s2(0.s1())) [] conv 8 11", "premise"),
    ("J t s1() s2(0.s1()) [] conv 3 7", "premise"),
    ("J e s6() s6() s4(0.s2(0.s1())) [] conv 27 11", "premise"),
    ("J t s6() s4(0.s1()) [] conv 13 11", "conclusion"),
    ("J t s6() s4(0.s2(0.s1())) [v4] conv 13 11", "set"),
    ("J t v5 s4(0.v4) [v5] conv 22 25", "set"),
    // An equation at an equal type.
    ("J e s6() s6() s4(0.s2(0.s1())) [] conveq 27 11", "level 1"),
    ("J e s6() s6() s4(0.s1()) [] conveq 32 31", "level 1"),
    (
        "J e s6() s6() s4(0.s2(0.s1())) [] conveq 36 11",
        "reference",
    ),
    (
        "J e s6() s6() s4(0.s2(0.s1())) [] conveq 27 36",
        "reference",
    ),
    ("J e s6() s6() s4(0.s2(0.s1())) [] conveq 12 11", "kind"),
    ("J e s6() s6() s4(0.s2(0.s1())) [] conveq 27 10", "kind"),
    ("B e s6() s6() s4(0.s2(0.s1())) [] conveq 27 11", "kind"),
    ("J e s6() s6() s4(0.s2(0.s1())) [] conveq 32 11", "premise"),
    ("J e s6() s6() s4(0.s1()) [] conveq 27 31", "premise"),
    ("J t s6() s4(0.s2(0.s1())) [] conveq 13 11", "premise"),
    ("J E s4(0.s1()) s4(0.s2(0.s1())) [] conveq 11 11", "premise"),
    ("J e s1() s2(0.s1()) s2(0.s1()) [] conveq 7 7", "premise"),
    ("J e s6() s6() s4(0.s1()) [] conveq 27 11", "conclusion"),
    ("J e s6() s6() s4(0.s2(0.s1())) [m0] conveq 27 11", "set"),
];

#[test]
fn each_conversion_has_its_verdict(rt: HostRuntime) -> Result<(), Fail> {
    for (line, answer) in CONVERTED {
        assert!(rt; answers(rt.alloc(), line, answer)?, "{line}");
    }
    Ok(())
}

// Lines with several reasons against them, of which the first is told.
const SEVERAL: [(&str, &str); 8] = [
    ("B t s0() [v4] conv 10 36", "reference"),
    ("J T s4(0.s1()) [] rulewith 4 1 36", "reference"),
    (
        "J E s4(0.s1()) s4(0.s2(0.s1())) [] cong 10 2 / 6",
        "reference",
    ),
    ("B e s1() s2(0.s1()) s0() [v4] trans 3 7", "kind"),
    ("J T s4(0.s1()) [] rule 4 2 3", "kind"),
    ("J t s2(0.s1()) s4(0.s1()) [v5] conv 14 11", "premise"),
    ("J {s0()}t v5 s4(0.b0) [] abs 4 22", "premise"),
    ("J t v4 s0() [] widen 3 4", "conclusion"),
];

#[test]
fn the_first_of_several_reasons_is_told(rt: HostRuntime) -> Result<(), Fail> {
    for (line, answer) in SEVERAL {
        assert!(rt; answers(rt.alloc(), line, answer)?, "{line}");
    }
    Ok(())
}

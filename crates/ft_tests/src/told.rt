//! Steps of derivation files with their verdicts: what a term tells by what it is made of.

use crate::files::checks;
use crate::steps::answers_after;
use std::alloc::Global;
use std::test::Fail;

// Further lines, which are allowed after those of the other tables. The metavariable 4 is
// `H(x, y) : F(x)`, over `x : Nat` and `y : F(x)`. The entries, each by its number:
//
// 36: `Q(O, {x}F(x), *) type`    37: `G(O) type`      38: `T(O, p) : Nat`
// 39: `{y : F(x)} _ : F(x)`      40: 39, abstracted   41: `H(O, p) : F(O)`
// 42: `H(O, p) : F(S(O))`
const MORE: &str = "J T s7(0.s1(),1.s4(0.b0),0.*) [] rule 7 3 16 7
J T m1(s1()) [m1] meta 1 3
J t s8(0.s1(),0.s6()) s0() [] rule 8 3 13
B {s4(0.v4)}t s4(0.v4) [v4] abs 5 28
B {s0()}{s4(0.b0)}t s4(0.b1) [] abs 4 39
M H 40
J t m4(s1(),s6()) s4(0.s1()) [m4] meta 4 3 13
J t m4(s1(),s6()) s4(0.s2(0.s1())) [m4] conv 41 11
";

// The verdict on the file with one more entry, but for the level or the reason.
const FRONTS: (&str, &str) = ("accepted 10 rules, 44 entries, 0 shown, ", "rejected 60 ");

fn tells(alloc: Global, line: &str, answer: &str) -> Result<bool, Fail> {
    answers_after(alloc, MORE, FRONTS, line, answer)
}

// The arguments of an application, counted from 1.
const ARGUMENTS: [(&str, &str); 39] = [
    // Of a symbol.
    ("J t s1() s0() [] arg 1 8", "level 7"),
    ("J t s1() s0() [] arg 1 5", "level 7"),
    ("J t v4 s0() [v4] arg 1 15", "level 7"),
    ("J t s1() s0() [] arg 1 36", "level 7"),
    ("J {s0()}T s4(0.b0) [] arg 2 36", "level 7"),
    ("J e s1() s2(0.s1()) s0() [] arg 3 36", "level 7"),
    ("J t s6() s4(0.s1()) [] arg 2 38", "level 7"),
    // Of a metavariable.
    ("J t s1() s0() [m1] arg 1 37", "level 7"),
    ("J t s1() s0() [m4] arg 1 41", "level 7"),
    ("J t s6() s4(0.s1()) [m4] arg 2 41", "level 7"),
    ("J t s6() s4(0.s1()) [m4] arg 2 42", "level 7"),
    ("J t s1() s0() [] arg 1 43", "reference"),
    ("J t s1() s0() [] arg 1 0", "kind"),
    ("B t s0() [] arg 1 8", "kind"),
    ("J t s1() s0() [] arg 0 8", "premise"),
    ("J t s1() s0() [] arg 2 8", "premise"),
    ("J t s1() s0() [] arg 1 3", "premise"),
    ("J t v4 s0() [v4] arg 1 4", "premise"),
    ("J t s1() s0() [] arg 1 7", "premise"),
    ("J {s0()}t b0 s0() [] arg 1 16", "premise"),
    ("J t m0() s0() [m0] arg 1 19", "premise"),
    ("J e s1() s2(0.s1()) s0() [] arg 4 36", "premise"),
    ("J t s6() s4(0.s1()) [m4] arg 0 41", "premise"),
    ("J t s6() s4(0.s1()) [m4] arg 3 41", "premise"),
    (
        "J t s6() s4(0.s1()) [m4] arg 18446744073709551615 41",
        "premise",
    ),
    ("J t s2(0.s1()) s0() [] arg 1 8", "conclusion"),
    ("J T s0() [] arg 1 8", "conclusion"),
    ("J {s0()}t s1() s0() [] arg 1 8", "conclusion"),
    ("J {s0()}T s0() [] arg 2 36", "conclusion"),
    ("J T s4(0.s1()) [] arg 2 36", "conclusion"),
    ("J {s4(0.s1())}T s4(0.b0) [] arg 2 36", "conclusion"),
    ("J e s2(0.s1()) s1() s0() [] arg 3 36", "conclusion"),
    ("J t s6() s4(0.s2(0.s1())) [] arg 2 38", "conclusion"),
    ("J t s6() s4(0.s2(0.s1())) [m4] arg 2 41", "conclusion"),
    ("J t s1() s0() [m4] arg 2 41", "conclusion"),
    ("J {s0()}t s6() s4(0.s1()) [m4] arg 2 41", "conclusion"),
    ("J t s1() s0() [v4] arg 1 8", "set"),
    ("J t v4 s0() [] arg 1 15", "set"),
    ("J t s1() s0() [] arg 1 37", "set"),
];

#[test]
fn each_argument_has_its_verdict(rt: HostRuntime) -> Result<(), Fail> {
    for (line, answer) in ARGUMENTS {
        assert!(rt; tells(rt.alloc(), line, answer)?, "{line}");
    }
    Ok(())
}

// The equation between the type that a term has by its declaration and the stated one.
const NATURALS: [(&str, &str); 28] = [
    // Of a variable.
    ("J E s0() s0() [v4] natural 4", "level 7"),
    ("J E s4(0.v4) s4(0.v4) [v4,v5] natural 22", "level 7"),
    // Of a symbol.
    ("J E s4(0.s1()) s4(0.s1()) [] natural 13", "level 7"),
    ("J E s4(0.s1()) s4(0.s2(0.s1())) [] natural 14", "level 7"),
    ("J E s4(0.v4) s4(0.v4) [v4] natural 29", "level 7"),
    ("J E s0() s0() [] natural 38", "level 7"),
    // Of a metavariable.
    ("J E s0() s0() [m0] natural 19", "level 7"),
    ("J E s4(0.s1()) s4(0.s1()) [m4] natural 41", "level 7"),
    ("J E s4(0.s1()) s4(0.s2(0.s1())) [m4] natural 42", "level 7"),
    ("J E s0() s0() [] natural 43", "reference"),
    ("J E s0() s0() [] natural 2", "kind"),
    ("B E s0() s0() [] natural 3", "kind"),
    ("J E s0() s0() [] natural 1", "premise"),
    ("J E s0() s0() [] natural 7", "premise"),
    ("J E s0() s0() [] natural 17", "premise"),
    (
        "J E s4(0.s2(0.s1())) s4(0.s1()) [] natural 14",
        "conclusion",
    ),
    (
        "J E s4(0.s2(0.s1())) s4(0.s2(0.s1())) [] natural 14",
        "conclusion",
    ),
    ("J E s4(0.s1()) s4(0.s1()) [] natural 14", "conclusion"),
    (
        "J E s4(0.s2(0.s1())) s4(0.s1()) [m4] natural 42",
        "conclusion",
    ),
    ("J E s4(0.m0()) s4(0.s1()) [m4] natural 41", "conclusion"),
    ("J E s4(0.m0()) s4(0.s1()) [] natural 13", "conclusion"),
    ("J E s4(0.v4) s0() [v4] natural 4", "conclusion"),
    ("J T s0() [] natural 3", "conclusion"),
    ("J {s0()}E s0() s0() [] natural 3", "conclusion"),
    ("J e s1() s1() s0() [] natural 3", "conclusion"),
    ("J E s0() s0() [] natural 4", "set"),
    ("J E s4(0.v4) s4(0.v4) [v5] natural 22", "set"),
    ("J E s4(0.s1()) s4(0.s2(0.s1())) [m4] natural 14", "set"),
];

#[test]
fn each_natural_type_has_its_verdict(rt: HostRuntime) -> Result<(), Fail> {
    for (line, answer) in NATURALS {
        assert!(rt; tells(rt.alloc(), line, answer)?, "{line}");
    }
    Ok(())
}

// The derivation of `Nat`, `O` and the shown `O : Nat`, without its end.
const SHOWN: &str = "andromeda derivation 1
B T [] btype
R Nat ; 0
J T s0() [] rule 0
B t s0() [] bterm 1
R O ; 2
J t s1() s0() [] rulewith 1 2
W 3
";

// Lines after these, with the verdict.
const ENDS: [(&str, &str); 2] = [
    (
        "J e s1() s1() s0() [] cong 1 /\nend\n",
        "accepted 2 rules, 5 entries, 1 shown, level 6",
    ),
    (
        "J e s1() s1() s0() [] cong 1 /\nJ E s0() s0() [] natural 3\nend\n",
        "accepted 2 rules, 6 entries, 1 shown, level 7",
    ),
];

#[test]
fn the_highest_levels_are_counted(rt: HostRuntime) -> Result<(), Fail> {
    for (end, verdict) in ENDS {
        let file = format!(in rt.alloc(); "{SHOWN}{end}")?;
        assert!(rt; checks(rt.alloc(), file.as_bytes(), verdict)?, "{end}");
    }
    Ok(())
}

//! Steps of derivation files with their verdicts: rules at arguments and at equations.

use crate::steps::answers;
use std::test::Fail;

// Rules at arguments.
const APPLIED: [(&str, &str); 34] = [
    // Without the boundary of the conclusion.
    ("J T s4(0.s1()) [] rule 4 3", "level 1"),
    ("J T s4(0.v4) [v4] rule 4 4", "level 1"),
    ("J T s7(0.s1(),1.s4(0.b0),0.*) [] rule 7 3 16 7", "level 1"),
    ("J t s8(0.s2(0.s1()),0.s6()) s0() [] rule 8 5 14", "level 5"),
    ("J e s1() s2(0.s1()) s0() [] rule 3", "level 5"),
    ("J T s4(0.s1()) [] rule 10 3", "reference"),
    ("J T s4(0.s1()) [] rule 4 36", "reference"),
    ("J T s4(0.s1()) [] rule 4 2", "kind"),
    ("B T [] rule 4 3", "kind"),
    ("J T s4() [] rule 4", "premise"),
    ("J T s4(0.s1(),0.s1()) [] rule 4 3 3", "premise"),
    ("J T s4(0.s6()) [] rule 4 13", "premise"),
    ("J t s8(0.s2(0.s1()),0.s6()) s0() [] rule 8 5 13", "premise"),
    ("J T s7(0.s1(),1.s4(0.b0),0.*) [] rule 7 3 15 7", "premise"),
    ("J T s7(0.s1(),1.s4(0.b0),0.*) [] rule 7 3 16 23", "premise"),
    ("J T s7(0.s1(),1.s4(0.b0),0.*) [] rule 7 3 16 3", "premise"),
    ("J T s4(0.s2(0.s1())) [] rule 4 3", "conclusion"),
    (
        "J T s7(0.s1(),1.s4(0.b0),0.s1()) [] rule 7 3 16 7",
        "conclusion",
    ),
    ("J T s4(0.v4) [] rule 4 4", "set"),
    // With it.
    ("J T s4(0.s1()) [] rulewith 4 0 3", "level 1"),
    ("J t s9(0.s1()) s4(0.s1()) [] rulewith 9 12 3", "level 1"),
    ("J t s2(0.s1()) s0() [v4] rulewith 2 34 3", "level 1"),
    ("J e s1() s2(0.s1()) s0() [] rulewith 3 6", "level 1"),
    ("J T s4(0.s1()) [] rulewith 10 0 3", "reference"),
    ("J T s4(0.s1()) [] rulewith 4 36 3", "reference"),
    ("J T s4(0.s1()) [] rulewith 4 0 36", "reference"),
    ("J T s4(0.s1()) [] rulewith 4 1 3", "kind"),
    ("J T s4(0.s1()) [] rulewith 4 0 2", "kind"),
    ("B T [] rulewith 4 0 3", "kind"),
    (
        "J t s9(0.s2(0.s1())) s4(0.s1()) [] rulewith 9 12 5",
        "premise",
    ),
    ("J t s9(0.s1()) s0() [] rulewith 9 2 3", "premise"),
    ("J T s4() [] rulewith 4 0", "premise"),
    (
        "J t s9(0.s1()) s4(0.s2(0.s1())) [] rulewith 9 12 3",
        "conclusion",
    ),
    ("J t s2(0.s1()) s0() [] rulewith 2 34 3", "set"),
];

#[test]
fn each_rule_at_arguments_has_its_verdict(rt: HostRuntime) -> Result<(), Fail> {
    for (line, answer) in APPLIED {
        assert!(rt; answers(rt.alloc(), line, answer)?, "{line}");
    }
    Ok(())
}

// The boundary after arguments for the first premises of a rule.
const INSTANCES: [(&str, &str); 17] = [
    // None, some and all.
    ("B t s0() [] inst 8", "level 5"),
    ("B t s4(0.s1()) [] inst 8 3", "level 5"),
    ("B t s4(0.v4) [v4] inst 8 4", "level 5"),
    ("B t s0() [] inst 8 3 13", "level 5"),
    ("B {s0()}T [] inst 7 3", "level 5"),
    ("B e s1() s2(0.s1()) s0() [] inst 7 3 16", "level 5"),
    ("B T [] inst 7 3 16 7", "level 5"),
    ("B t s0() [] inst 10", "reference"),
    ("B t s4(0.s1()) [] inst 8 36", "reference"),
    ("B t s4(0.s1()) [] inst 8 2", "kind"),
    ("J t s1() s0() [] inst 8", "kind"),
    ("B t s4(0.s1()) [] inst 8 13", "premise"),
    ("B t s0() [] inst 8 5 13", "premise"),
    ("B t s0() [] inst 8 3 13 3", "premise"),
    ("B t s4(0.s2(0.s1())) [] inst 8 3", "conclusion"),
    ("B t s0() [] inst 8 3", "conclusion"),
    ("B t s4(0.v4) [] inst 8 4", "set"),
];

#[test]
fn each_next_boundary_has_its_verdict(rt: HostRuntime) -> Result<(), Fail> {
    for (line, answer) in INSTANCES {
        assert!(rt; answers(rt.alloc(), line, answer)?, "{line}");
    }
    Ok(())
}

// A rule at arguments and at the right sides of equations.
const CONGRUENCES: [(&str, &str); 28] = [
    // One equation for each object premise.
    ("J E s4(0.s1()) s4(0.s2(0.s1())) [] cong 4 3 / 7", "level 6"),
    ("J E s4(0.v4) s4(0.v4) [v4] cong 4 4 / 35", "level 6"),
    ("J e s1() s1() s0() [] cong 1 /", "level 6"),
    (
        "J e s9(0.s1()) s9(0.s2(0.s1())) s4(0.s1()) [] cong 9 3 / 7",
        "level 6",
    ),
    (
        "J e s8(0.s1(),0.s6()) s8(0.s2(0.s1()),0.s6()) s0() [] cong 8 3 13 / 7 27",
        "level 6",
    ),
    (
        "J E s7(0.s1(),1.s4(0.b0),0.*) s7(0.s2(0.s1()),1.s4(0.b0),0.*) [] cong 7 3 16 7 / 7 26",
        "level 6",
    ),
    (
        "J E s4(0.s1()) s4(0.s2(0.s1())) [] cong 10 3 / 7",
        "reference",
    ),
    (
        "J E s4(0.s1()) s4(0.s2(0.s1())) [] cong 4 36 / 7",
        "reference",
    ),
    (
        "J E s4(0.s1()) s4(0.s2(0.s1())) [] cong 4 3 / 36",
        "reference",
    ),
    ("J E s4(0.s1()) s4(0.s2(0.s1())) [] cong 4 2 / 7", "kind"),
    ("J E s4(0.s1()) s4(0.s2(0.s1())) [] cong 4 3 / 6", "kind"),
    ("B E s4(0.s1()) s4(0.s2(0.s1())) [] cong 4 3 / 7", "kind"),
    ("J e s1() s2(0.s1()) s0() [] cong 3 /", "premise"),
    ("J E s4(0.s1()) s4(0.s2(0.s1())) [] cong 4 / 7", "premise"),
    ("J E s4(0.s1()) s4(0.s1()) [] cong 4 3 /", "premise"),
    (
        "J E s4(0.s1()) s4(0.s2(0.s1())) [] cong 4 3 / 7 7",
        "premise",
    ),
    ("J E s4(0.s2(0.s1())) s4(0.s1()) [] cong 4 5 / 7", "premise"),
    ("J E s4(0.s1()) s4(0.s1()) [] cong 4 3 / 3", "premise"),
    (
        "J E s4(0.s1()) s4(0.s2(0.s1())) [] cong 4 3 / 24",
        "premise",
    ),
    (
        "J E s4(0.s1()) s4(0.s2(0.s1())) [] cong 4 13 / 27",
        "premise",
    ),
    (
        "J e s8(0.s1(),0.s6()) s8(0.s2(0.s1()),0.s6()) s0() [] cong 8 3 13 / 7 32",
        "premise",
    ),
    (
        "J E s7(0.s1(),1.s4(0.b0),0.*) s7(0.s2(0.s1()),1.s4(0.b0),0.*) [] cong 7 3 16 7 / 26 7",
        "premise",
    ),
    (
        "J E s7(0.s1(),1.s4(0.b0),0.*) s7(0.s2(0.s1()),1.s4(0.b0),0.*) [] cong 7 3 16 7 / 7 26 7",
        "premise",
    ),
    (
        "J E s7(0.s1(),1.s4(0.b0),0.*) s7(0.s2(0.s1()),1.s4(0.b0),0.*) [] cong 7 3 16 23 / 7 26",
        "premise",
    ),
    (
        "J E s4(0.s2(0.s1())) s4(0.s1()) [] cong 4 3 / 7",
        "conclusion",
    ),
    (
        "J e s9(0.s1()) s9(0.s2(0.s1())) s4(0.s2(0.s1())) [] cong 9 3 / 7",
        "conclusion",
    ),
    ("J E s4(0.s1()) s4(0.s2(0.s1())) [v4] cong 4 3 / 7", "set"),
    ("J E s4(0.v4) s4(0.v4) [] cong 4 4 / 35", "set"),
];

#[test]
fn each_congruence_of_a_rule_has_its_verdict(rt: HostRuntime) -> Result<(), Fail> {
    for (line, answer) in CONGRUENCES {
        assert!(rt; answers(rt.alloc(), line, answer)?, "{line}");
    }
    Ok(())
}

// An argument for the next premise, moved to the right sides of equations.
const MOVED: [(&str, &str); 23] = [
    (
        "J t s6() s4(0.s2(0.s1())) [] convprem 8 3 / 7 / 13",
        "level 6",
    ),
    ("J t s1() s0() [] convprem 8 / / 3", "level 6"),
    ("J t v4 s0() [v4] convprem 8 / / 4", "level 6"),
    ("J {s0()}T s4(0.b0) [] convprem 7 3 / 7 / 16", "level 6"),
    (
        "J e s1() s2(0.s1()) s0() [] convprem 7 3 16 / 7 26 / 7",
        "level 6",
    ),
    (
        "J t s6() s4(0.s2(0.s1())) [] convprem 10 3 / 7 / 13",
        "reference",
    ),
    (
        "J t s6() s4(0.s2(0.s1())) [] convprem 8 36 / 7 / 13",
        "reference",
    ),
    (
        "J t s6() s4(0.s2(0.s1())) [] convprem 8 3 / 36 / 13",
        "reference",
    ),
    (
        "J t s6() s4(0.s2(0.s1())) [] convprem 8 3 / 7 / 36",
        "reference",
    ),
    ("J t s6() s4(0.s2(0.s1())) [] convprem 8 2 / 7 / 13", "kind"),
    ("J t s6() s4(0.s2(0.s1())) [] convprem 8 3 / 6 / 13", "kind"),
    ("J t s6() s4(0.s2(0.s1())) [] convprem 8 3 / 7 / 12", "kind"),
    ("B t s4(0.s2(0.s1())) [] convprem 8 3 / 7 / 13", "kind"),
    (
        "J t s6() s4(0.s2(0.s1())) [] convprem 8 3 / 7 / 14",
        "premise",
    ),
    (
        "J t s6() s4(0.s2(0.s1())) [] convprem 8 3 / / 13",
        "premise",
    ),
    (
        "J t s6() s4(0.s2(0.s1())) [] convprem 8 3 / 7 7 / 13",
        "premise",
    ),
    (
        "J t s6() s4(0.s2(0.s1())) [] convprem 8 5 / 7 / 13",
        "premise",
    ),
    (
        "J t s6() s4(0.s2(0.s1())) [] convprem 8 3 / 23 / 13",
        "premise",
    ),
    (
        "J t s6() s4(0.s2(0.s1())) [] convprem 8 3 / 7 / 8",
        "premise",
    ),
    ("J t s1() s0() [] convprem 8 3 13 / 7 27 / 3", "premise"),
    ("J t s6() s4(0.s1()) [] convprem 8 3 / 7 / 13", "conclusion"),
    (
        "J t s6() s4(0.s2(0.s1())) [v4] convprem 8 3 / 7 / 13",
        "set",
    ),
    ("J t v4 s0() [] convprem 8 / / 4", "set"),
];

#[test]
fn each_moved_argument_has_its_verdict(rt: HostRuntime) -> Result<(), Fail> {
    for (line, answer) in MOVED {
        assert!(rt; answers(rt.alloc(), line, answer)?, "{line}");
    }
    Ok(())
}

// An argument for the next premise, moved back from the right sides of equations.
const MOVED_BACK: [(&str, &str); 23] = [
    ("J t s6() s4(0.s1()) [] convback 8 3 / 7 / 14", "level 6"),
    ("J t s1() s0() [] convback 8 / / 3", "level 6"),
    ("J t v4 s0() [v4] convback 8 / / 4", "level 6"),
    ("J {s0()}T s4(0.b0) [] convback 7 3 / 7 / 16", "level 6"),
    (
        "J e s1() s2(0.s1()) s0() [] convback 7 3 16 / 7 26 / 7",
        "level 6",
    ),
    ("J t s6() s4(0.s1()) [] convback 10 3 / 7 / 14", "reference"),
    ("J t s6() s4(0.s1()) [] convback 8 36 / 7 / 14", "reference"),
    ("J t s6() s4(0.s1()) [] convback 8 3 / 36 / 14", "reference"),
    ("J t s6() s4(0.s1()) [] convback 8 3 / 7 / 36", "reference"),
    ("J t s6() s4(0.s1()) [] convback 8 2 / 7 / 14", "kind"),
    ("J t s6() s4(0.s1()) [] convback 8 3 / 6 / 14", "kind"),
    ("J t s6() s4(0.s1()) [] convback 8 3 / 7 / 12", "kind"),
    ("B t s4(0.s1()) [] convback 8 3 / 7 / 14", "kind"),
    ("J t s6() s4(0.s1()) [] convback 8 3 / 7 / 13", "premise"),
    ("J t s6() s4(0.s1()) [] convback 8 3 / / 14", "premise"),
    ("J t s6() s4(0.s1()) [] convback 8 3 / 7 7 / 14", "premise"),
    ("J t s6() s4(0.s1()) [] convback 8 5 / 7 / 14", "premise"),
    ("J t s6() s4(0.s1()) [] convback 8 3 / 23 / 14", "premise"),
    ("J t s6() s4(0.s1()) [] convback 8 3 / 7 / 8", "premise"),
    ("J t s1() s0() [] convback 8 3 13 / 7 27 / 3", "premise"),
    (
        "J t s6() s4(0.s2(0.s1())) [] convback 8 3 / 7 / 14",
        "conclusion",
    ),
    ("J t s6() s4(0.s1()) [v4] convback 8 3 / 7 / 14", "set"),
    ("J t v4 s0() [] convback 8 / / 4", "set"),
];

#[test]
fn each_argument_moved_back_has_its_verdict(rt: HostRuntime) -> Result<(), Fail> {
    for (line, answer) in MOVED_BACK {
        assert!(rt; answers(rt.alloc(), line, answer)?, "{line}");
    }
    Ok(())
}

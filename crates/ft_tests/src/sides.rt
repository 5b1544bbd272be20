//! Steps of derivation files with their verdicts: sides, parts and boundaries.

use crate::steps::answers;
use std::test::Fail;

// Sides, types and domains.
const SIDES: [(&str, &str); 24] = [
    // The left side.
    ("J t s1() s0() [] left 7", "level 3"),
    ("J T s4(0.s1()) [] left 10", "level 3"),
    ("J {s0()}t s1() s0() [] left 24", "level 3"),
    ("J T s4(0.v4) [v4] left 25", "level 3"),
    ("J t s1() s0() [] left 36", "reference"),
    ("B t s0() [] left 7", "kind"),
    ("J t s1() s0() [] left 3", "premise"),
    ("J {s0()}T s4(0.b0) [] left 16", "premise"),
    ("J T s0() [] left 0", "premise"),
    ("J t s2(0.s1()) s0() [] left 7", "conclusion"),
    ("J t s1() s0() [] left 24", "conclusion"),
    ("J T s4(0.v4) [] left 25", "set"),
    // The right side.
    ("J t s2(0.s1()) s0() [] right 6", "level 3"),
    ("J T s4(0.s2(0.s1())) [] right 11", "level 3"),
    ("J {s0()}t s2(0.s1()) s0() [] right 24", "level 3"),
    ("J t v4 s0() [v4] right 35", "level 3"),
    ("J t s2(0.s1()) s0() [] right 36", "reference"),
    ("B t s0() [] right 7", "kind"),
    ("J t s1() s0() [] right 3", "premise"),
    ("J {s0()}T s4(0.b0) [] right 16", "premise"),
    ("J t s1() s0() [] right 2", "premise"),
    ("J t s1() s0() [] right 7", "conclusion"),
    ("J t s2(0.s1()) s0() [] right 24", "conclusion"),
    ("J t v4 s0() [] right 35", "set"),
];

#[test]
fn each_side_has_its_verdict(rt: HostRuntime) -> Result<(), Fail> {
    for (line, answer) in SIDES {
        assert!(rt; answers(rt.alloc(), line, answer)?, "{line}");
    }
    Ok(())
}

// Types, domains and boundaries of what stands before.
const PARTS: [(&str, &str); 31] = [
    // The type of a term.
    ("J T s0() [] typeof 3", "level 3"),
    ("J T s0() [] typeof 6", "level 3"),
    ("J T s0() [] typeof 7", "level 3"),
    ("J T s4(0.v4) [v4] typeof 28", "level 3"),
    ("J {s0()}T s4(0.b0) [] typeof 30", "level 3"),
    ("J T s0() [] typeof 36", "reference"),
    ("B T [] typeof 3", "kind"),
    ("J T s0() [] typeof 1", "premise"),
    ("J T s4(0.s1()) [] typeof 11", "premise"),
    ("J T s4(0.s1()) [] typeof 10", "premise"),
    ("J T s4(0.s1()) [] typeof 3", "conclusion"),
    ("J T s4(0.b0) [] typeof 30", "conclusion"),
    ("J T s4(0.v4) [] typeof 28", "set"),
    // The first domain.
    ("J T s0() [] domain 16", "level 3"),
    ("J T s0() [] domain 18", "level 3"),
    ("J T s0() [] domain 24", "level 3"),
    ("J T s0() [] domain 36", "reference"),
    ("B T [] domain 16", "kind"),
    ("J T s0() [] domain 1", "premise"),
    ("J T s0() [] domain 2", "premise"),
    ("J T s4(0.s1()) [] domain 16", "conclusion"),
    ("J T s0() [v4] domain 16", "set"),
    // The boundary of a thesis.
    ("B T [] boundary 1", "level 3"),
    ("B t s4(0.v4) [v4,v5] boundary 22", "level 3"),
    ("B {s0()}e s1() s2(0.s1()) s0() [] boundary 24", "level 3"),
    ("B T [] boundary 36", "reference"),
    ("B T [] boundary 0", "kind"),
    ("J T s0() [] boundary 1", "kind"),
    ("B T [] boundary 3", "conclusion"),
    ("B e s1() s2(0.s1()) s0() [] boundary 24", "conclusion"),
    ("B t s4(0.v4) [v5] boundary 22", "set"),
];

#[test]
fn each_part_has_its_verdict(rt: HostRuntime) -> Result<(), Fail> {
    for (line, answer) in PARTS {
        assert!(rt; answers(rt.alloc(), line, answer)?, "{line}");
    }
    Ok(())
}

// Boundaries, and a thesis over more assumptions.
const BOUNDARIES: [(&str, &str); 24] = [
    // A thesis over the assumptions of another.
    ("J t s1() s0() [v4] widen 3 4", "level 1"),
    ("J t v4 s0() [v4] widen 4 3", "level 1"),
    ("J t s1() s0() [v4] widen 36 4", "reference"),
    ("J t s1() s0() [v4] widen 3 36", "reference"),
    ("J t s1() s0() [v4] widen 2 4", "kind"),
    ("J t s1() s0() [v4] widen 3 34", "kind"),
    ("B t s0() [v4] widen 3 4", "kind"),
    ("J t v4 s0() [v4] widen 3 4", "conclusion"),
    ("J t s1() s0() [] widen 3 4", "set"),
    ("J t s1() s0() [v5] widen 3 4", "set"),
    // The boundary of a type.
    ("B T [] btype", "level 1"),
    ("J T s0() [] btype", "kind"),
    ("B t s0() [] btype", "conclusion"),
    ("B {s0()}T [] btype", "conclusion"),
    ("B T [v4] btype", "set"),
    // The boundary of a term.
    ("B t s0() [] bterm 1", "level 1"),
    ("B t s4(0.v4) [v4] bterm 15", "level 1"),
    ("B t s0() [] bterm 36", "reference"),
    ("B t s0() [] bterm 0", "kind"),
    ("J T s0() [] bterm 1", "kind"),
    ("B t s0() [] bterm 3", "premise"),
    ("B {s0()}t s4(0.b0) [] bterm 16", "premise"),
    ("B t s4(0.s1()) [] bterm 1", "conclusion"),
    ("B t s4(0.v4) [] bterm 15", "set"),
];

#[test]
fn each_boundary_has_its_verdict(rt: HostRuntime) -> Result<(), Fail> {
    for (line, answer) in BOUNDARIES {
        assert!(rt; answers(rt.alloc(), line, answer)?, "{line}");
    }
    Ok(())
}

// Boundaries of equations.
const EQUATED: [(&str, &str); 30] = [
    // Of two types.
    ("B E s4(0.s1()) s4(0.s2(0.s1())) [] beqty 8 9", "level 1"),
    ("B E s0() s4(0.v4) [v4] beqty 1 15", "level 1"),
    ("B E s0() s0() [] beqty 36 1", "reference"),
    ("B E s0() s0() [] beqty 1 36", "reference"),
    ("B E s0() s0() [] beqty 0 1", "kind"),
    ("B E s0() s0() [] beqty 1 0", "kind"),
    ("J E s4(0.s1()) s4(0.s2(0.s1())) [] beqty 8 9", "kind"),
    ("B E s1() s0() [] beqty 3 1", "premise"),
    ("B E s0() s1() [] beqty 1 3", "premise"),
    ("B E s4(0.b0) s0() [] beqty 16 1", "premise"),
    ("B E s4(0.s2(0.s1())) s4(0.s1()) [] beqty 8 9", "conclusion"),
    ("B E s0() s4(0.v4) [] beqty 1 15", "set"),
    // Of two terms at a type.
    ("B e s1() s2(0.s1()) s0() [] beqtm 1 3 5", "level 1"),
    ("B e s1() v4 s0() [v4] beqtm 1 3 4", "level 1"),
    ("B e s1() s2(0.s1()) s0() [v4] beqtm 33 3 5", "level 1"),
    ("B e s1() s2(0.s1()) s0() [] beqtm 36 3 5", "reference"),
    ("B e s1() s2(0.s1()) s0() [] beqtm 1 36 5", "reference"),
    ("B e s1() s2(0.s1()) s0() [] beqtm 1 3 36", "reference"),
    ("B e s1() s2(0.s1()) s0() [] beqtm 0 3 5", "kind"),
    ("B e s1() s2(0.s1()) s0() [] beqtm 1 2 5", "kind"),
    ("B e s1() s2(0.s1()) s0() [] beqtm 1 3 2", "kind"),
    ("J e s1() s2(0.s1()) s0() [] beqtm 1 3 5", "kind"),
    ("B e s1() s2(0.s1()) s4(0.s1()) [] beqtm 8 3 5", "premise"),
    ("B e s6() s1() s0() [] beqtm 1 13 3", "premise"),
    ("B e s1() s6() s0() [] beqtm 1 3 13", "premise"),
    ("B e s1() s2(0.s1()) s1() [] beqtm 3 3 5", "premise"),
    ("B e s0() s2(0.s1()) s0() [] beqtm 1 1 5", "premise"),
    ("B e s2(0.s1()) s1() s0() [] beqtm 1 3 5", "conclusion"),
    (
        "B e s1() s2(0.s1()) s4(0.s1()) [] beqtm 1 3 5",
        "conclusion",
    ),
    ("B e s1() v4 s0() [] beqtm 1 3 4", "set"),
];

#[test]
fn each_boundary_of_an_equation_has_its_verdict(rt: HostRuntime) -> Result<(), Fail> {
    for (line, answer) in EQUATED {
        assert!(rt; answers(rt.alloc(), line, answer)?, "{line}");
    }
    Ok(())
}

//! Lines of derivation files: those that are of an item, and those that are of none.

use crate::files::{FILE, checks};
use std::alloc::Global;
use std::process::Abort;
use std::test::Fail;

// Expects the line for each text that is put between two others, after the file's lines.
fn expect(
    rt: &impl Abort,
    alloc: Global,
    front: &str,
    texts: &[&str],
    back: &str,
    line: &str,
) -> Result<(), Fail> {
    for text in texts {
        let file = format!(in alloc; "{FILE}{front}{text}{back}\nend\n")?;
        assert!(rt; checks(alloc, file.as_bytes(), line)?, "{text}");
    }
    Ok(())
}

// Steps, of which each names something that does not stand before it: entries go to 3, metavariables to 0, rules to 2, and
// the one variable is 4.
const UNKNOWN: [&str; 58] = [
    "var 3",
    "generic 1",
    "meta 1",
    "meta 0 9",
    "metacong 1",
    "metacong 0 3 9",
    "abs 3 3",
    "abs 4 4",
    "subst 4 3",
    "subst 3 4",
    "substeq 4 3",
    "substeq 3 4",
    "refl 4",
    "sym 4",
    "trans 4 3",
    "trans 3 4",
    "conv 4 3",
    "conv 3 4",
    "conveq 4 3",
    "conveq 3 4",
    "left 4",
    "right 4",
    "typeof 4",
    "domain 4",
    "boundary 4",
    "widen 4 3",
    "widen 3 4",
    "bterm 4",
    "beqty 4 1",
    "beqty 1 4",
    "beqtm 4 3 3",
    "beqtm 1 4 3",
    "beqtm 1 3 4",
    "rule 3",
    "rule 2 4",
    "rulewith 3 2",
    "rulewith 2 4 3",
    "rulewith 2 2 4",
    "inst 3",
    "inst 2 4",
    "cong 3 /",
    "cong 2 4 / 3",
    "cong 2 3 / 4",
    "cong 2 3 3 4 /",
    "cong 2 / 3 3 4",
    "convprem 3 / / 3",
    "convprem 2 4 / / 3",
    "convprem 2 3 / 4 / 3",
    "convprem 2 / / 4",
    "convprem 2 3 3 / 3 3 / 4",
    "convback 3 / / 3",
    "convback 2 4 / / 3",
    "convback 2 3 / 4 / 3",
    "convback 2 / / 4",
    "arg 1 4",
    "arg 9 4",
    "natural 4",
    "natural 18446744073709551615",
];

#[test]
fn the_numbers_of_each_step_name_what_stands_before_it(rt: HostRuntime) -> Result<(), Fail> {
    expect(
        &rt,
        rt.alloc(),
        "J T s0() [] ",
        &UNKNOWN,
        "",
        "rejected 9 reference",
    )
}

// Steps of which each has a part too few or too many, or another fault.
const MISFORMED: [&str; 76] = [
    "var",
    "var 4 3",
    "generic",
    "generic 0 3",
    "meta",
    "metacong",
    "abs 4",
    "abs 4 3 3",
    "subst 3",
    "subst 3 3 3",
    "substeq 3",
    "substeq 3 3 3",
    "refl",
    "refl 3 3",
    "sym",
    "sym 3 3",
    "trans 3",
    "trans 3 3 3",
    "conv 3",
    "conv 3 3 3",
    "conveq 3",
    "conveq 3 3 3",
    "left",
    "left 3 3",
    "right",
    "right 3 3",
    "typeof",
    "typeof 3 3",
    "domain",
    "domain 3 3",
    "boundary",
    "boundary 3 3",
    "widen 3",
    "widen 3 3 3",
    "btype 3",
    "bterm",
    "bterm 1 1",
    "beqty 1",
    "beqty 1 1 1",
    "beqtm 1 3",
    "beqtm 1 3 3 3",
    "rule",
    "rule 2 / 3",
    "rulewith 2",
    "rulewith",
    "inst",
    "cong",
    "cong 2",
    "cong 2 3",
    "cong / 3",
    "cong 2 3 / 3 /",
    "convprem 2 / 3",
    "convprem 2 / /",
    "convprem 2 / / 3 3",
    "convprem / / 3",
    "convprem 2 / / / 3",
    "convback 2 / 3",
    "convback 2 / /",
    "convback 2 / / 3 3",
    "arg 1",
    "arg 1 3 3",
    "natural",
    "natural 3 3",
    "metainst 3 0 / 3",
    "metainst 3 /",
    "Var 4",
    "variable 4",
    "",
    " btype",
    "btype ",
    "rule  1",
    "rule 1 ",
    "rule 01",
    "rule 2\t3",
    "rule x",
    "rule 18446744073709551616",
];

#[test]
fn other_steps_are_a_fault_of_their_line(rt: HostRuntime) -> Result<(), Fail> {
    expect(
        &rt,
        rt.alloc(),
        "J T s0() [] ",
        &MISFORMED,
        "",
        "error line 11 form",
    )
}

// Statements and sets that are read: the step behind them does not conclude these.
const STATED: [&str; 34] = [
    // Theses, with their forms and domains.
    "J T s0() []",
    "J t v7 s0() []",
    "J E s0() s1() []",
    "J e v1 v2 s0() []",
    "J {s0()}T s0() []",
    "J {s0()}{b0}t b1 v7 []",
    "J {s0()}e b0 s12(1.b0,0.*) m3(v4,b1) [m0,v7]",
    // Boundaries.
    "B T []",
    "B t s0() []",
    "B E s0() s1() []",
    "B e v1 v2 s0() []",
    "B {s0()}T []",
    "B {s0()}{b0}E s0() b1 [m0,v7]",
    // Expressions.
    "J T b0 []",
    "J T v0 []",
    "J T m0() []",
    "J T m0(v1) []",
    "J T s7(0.*) []",
    "J T s7(2.s1(),0.b3,1.*) []",
    "J T s7(2.s1(0.m0(m1(),m2(b0,b1)))) []",
    "J T b18446744073709551614 []",
    "J T v18446744073709551615 []",
    "J T s18446744073709551615() []",
    "J T m18446744073709551615() []",
    "J T s0(4294967295.b0) []",
    "J T s0(4294967295.*) []",
    // Sets.
    "J T s0() [m0]",
    "J T s0() [v0]",
    "J T s0() [m0,m1]",
    "J T s0() [v0,v1]",
    "J T s0() [m7,v3]",
    "J T s0() [m0,m3,v7,v12]",
    "J T s0() [v9,v10]",
    "J T s0() [m18446744073709551615,v18446744073709551615]",
];

#[test]
fn each_statement_is_read_with_its_set(rt: HostRuntime) -> Result<(), Fail> {
    expect(
        &rt,
        rt.alloc(),
        "",
        &STATED,
        " refl 4",
        "rejected 9 reference",
    )
}

// Lines of no item.
const OTHER: [&str; 80] = [
    "",
    " ",
    "X 1",
    "w 3",
    "-- a comment",
    // Marks.
    "W",
    "W ",
    "W 3 ",
    " W 3",
    "W  3",
    "W 03",
    "W 3 3",
    "W x",
    "W -1",
    "W 3\r",
    "W 18446744073709551616",
    // Variables.
    "V 7 x",
    "V x 7 1",
    "V 7 _ 1",
    "V 7 type 1",
    "V 7 1x 1",
    "V 7 x 1 1",
    "V 07 x 1",
    "V 18446744073709551616 x 1",
    // Metavariables.
    "M 0",
    "M A",
    "M type 0",
    "M A 0 0",
    "M A B 0",
    "M A! 0",
    // Rules.
    "R Nat; 0",
    "R Nat ;0",
    "R Nat  ; 0",
    "R Nat 0",
    "R Nat ;",
    "R ; 0",
    "R rule ; 0",
    "R Nat 00 ; 0",
    "R Nat 0 ; 0 ; 0",
    "R Nat 0 ; 0 0",
    // Theses.
    "J",
    "J T s0()",
    "J T s0() []",
    "J T s0()[] rule 0",
    "J T  s0() [] rule 0",
    "J s0() [] rule 0",
    "J T [] rule 0",
    "J T s0() s0() [] rule 0",
    "J t s0() [] rule 0",
    "J E s0() [] rule 0",
    "J e s0() s0() [] rule 0",
    "J {s0()} T s0() [] rule 0",
    "J {T s0() [] rule 0",
    "J {}T s0() [] rule 0",
    // Boundaries.
    "B",
    "B T",
    "B T btype",
    "B T s0() [] btype",
    "B t [] btype",
    "B E s0() [] btype",
    "B e s0() s0() [] btype",
    // Expressions.
    "J T s0 [] rule 0",
    "J T s() [] rule 0",
    "J T s0( ) [] rule 0",
    "J T s0(b0) [] rule 0",
    "J T s0(0.b0,) [] rule 0",
    "J T s0(0.) [] rule 0",
    "J T m0 [] rule 0",
    "J T m0(*) [] rule 0",
    "J T m0(0.b0) [] rule 0",
    "J T b [] rule 0",
    "J T b00 [] rule 0",
    "J T b18446744073709551615 [] rule 0",
    "J T v18446744073709551616 [] rule 0",
    "J T s0(4294967296.b0) [] rule 0",
    "J T s0(4294967296.*) [] rule 0",
    // Sets.
    "J T s0() [m0,m0] rule 0",
    "J T s0() [v7,m0] rule 0",
    "J T s0() [v10,v9] rule 0",
    "J T s0() [m0, v7] rule 0",
];

#[test]
fn lines_of_no_item_are_a_fault(rt: HostRuntime) -> Result<(), Fail> {
    expect(&rt, rt.alloc(), "", &OTHER, "", "error line 11 form")
}

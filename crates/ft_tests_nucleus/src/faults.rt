//! Refusals, and why a run ends.

use crate::told::{declared, is, name};
use ft_assume::Atom;
use ft_base::{Memory, Text};
use ft_judge::{Differ, Refusal};
use ft_print::{
    bad_left_text, duplicate_rule_text, equation_premise_text, no_match_text, not_equation_text,
    open_conclusion_text, open_premise_text, refusal_text, refused_text, too_many_rules_text,
    undetermined_text, unhandled_text,
};
use ft_syntax::SynFault;
use std::alloc::Global;
use std::test::Fail;

// Refusals that name no expression.
const REFUSALS: [(Refusal, &str); 7] = [
    (Refusal::WrongForm, "refused WrongForm"),
    (Refusal::NotAbstracted, "refused NotAbstracted"),
    (
        Refusal::DependentVariable(7),
        "refused DependentVariable: #0",
    ),
    (Refusal::OpenBoundary(7), "refused OpenBoundary: #0"),
    (
        Refusal::ArgumentCount(0, 1),
        "refused ArgumentCount: 0 given, 1 wanted",
    ),
    (Refusal::TooBig, "refused TooBig"),
    (Refusal::NotApplication, "refused NotApplication"),
];

// The text of a refusal that names no expression.
fn told(alloc: Global, r: Refusal) -> Result<Text, Memory> {
    let k = declared(alloc)?;
    match r {
        Refusal::TypeDiffers(_) | Refusal::SidesDiffer(_) => Ok(Text::new(alloc)),
        _ => Ok(refused_text(alloc, &k, &r)?),
    }
}

#[test]
fn a_refusal_has_its_text(rt: HostRuntime) -> Result<(), Fail> {
    for (r, wanted) in REFUSALS {
        let found = told(rt.alloc(), r)?;
        assert!(rt; found.bytes() == wanted.as_bytes(), "{wanted}");
    }
    Ok(())
}

// The text of sides that differ: a variable, where `M` is wanted.
fn told_sides(alloc: Global) -> Result<Text, SynFault> {
    let mut k = declared(alloc)?;
    let found = k.free(7)?;
    let wanted = k.meta(0, &[])?;
    let differ = Differ {
        found,
        wanted,
        under: 0,
    };
    Ok(refusal_text(alloc, &k, &Refusal::SidesDiffer(differ))?)
}

#[test]
fn sides_that_differ_have_their_text(rt: HostRuntime) -> Result<(), Fail> {
    let found = told_sides(rt.alloc())?;
    assert!(rt; found.bytes() == b"SidesDiffer: found #0, wanted M?0".as_slice());
    Ok(())
}

#[test]
fn a_run_that_ends_tells_why(rt: HostRuntime) -> Result<(), Fail> {
    let alloc = rt.alloc();
    let coerce = name(alloc, "coerce")?;
    assert!(rt; is(unhandled_text(alloc, &coerce), "unhandled coerce"));
    assert!(rt; is(no_match_text(alloc), "no match"));
    Ok(())
}

#[test]
fn a_rule_that_is_not_declared_tells_why(rt: HostRuntime) -> Result<(), Fail> {
    let alloc = rt.alloc();
    let nat = name(alloc, "Nat")?;
    let kernel = declared(alloc)?;
    let k = &kernel;
    assert!(rt; is(duplicate_rule_text(alloc, &nat), "rule Nat declared twice"));
    assert!(rt; is(too_many_rules_text(alloc), "too many rules"));
    assert!(rt;
        is(
            open_premise_text(alloc, k, 1, Atom::Var(7)),
            "premise 1 keeps #0"
        )
    );
    assert!(rt;
        is(
            open_premise_text(alloc, k, 2, Atom::Met(0)),
            "premise 2 keeps M?0"
        )
    );
    assert!(rt;
        is(
            open_conclusion_text(alloc, k, Atom::Var(7)),
            "conclusion keeps #0"
        )
    );
    assert!(rt;
        is(
            open_conclusion_text(alloc, k, Atom::Met(0)),
            "conclusion keeps M?0"
        )
    );
    Ok(())
}

#[test]
fn a_rule_without_the_shape_tells_why(rt: HostRuntime) {
    let alloc = rt.alloc();
    assert!(rt; is(not_equation_text(alloc), "shape: not an equation"));
    assert!(rt; is(equation_premise_text(alloc, 2), "shape: equation premise 2"));
    assert!(rt; is(bad_left_text(alloc), "shape: bad left side"));
    assert!(rt; is(undetermined_text(alloc, 1), "shape: premise 1 undetermined"));
}

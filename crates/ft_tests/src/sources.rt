//! Sources, with what `run` writes for them, and what `check` says of what `export` writes for them.

use crate::called::{NATURALS, called};
use std::test::Fail;

// A source, the status of its run and its export, its transcript, and how many rules and judgements that tells of.
const RUN: [(&str, u8, &str, u64, u64); 9] = [
    ("", 0, "", 0, 0),
    (
        "rule Nat type\nrule O : Nat\nrule S (n : Nat) : Nat\nshow S (S O)\nshow S (O)\nshow Nat\n",
        0,
        "accepted Nat\naccepted O\naccepted S\n|- S(S(O)) : Nat\n|- S(O) : Nat\n|- Nat type\n",
        3,
        3,
    ),
    // Arguments stand in their order.
    (
        "rule N type rule O : N rule Pair (A type) (n : N) type show Pair N O",
        0,
        "accepted N\naccepted O\naccepted Pair\n|- Pair(N, O) type\n",
        3,
        1,
    ),
    (
        "rule Nat type\nrule List (A type) type\nshow List Nat",
        0,
        "accepted Nat\naccepted List\n|- List(Nat) type\n",
        2,
        1,
    ),
    // A premise may have the name of a rule, which those after it cannot name then.
    (
        "rule Nat type rule F (Nat : Nat) type",
        0,
        "accepted Nat\naccepted F\n",
        2,
        0,
    ),
    // A rule of the name of an earlier one ends the run.
    (
        "rule Nat type\nrule Nat type\n",
        9,
        "accepted Nat\nerror rule Nat declared twice\n",
        1,
        0,
    ),
    (
        "rule Nat type\nrule Nat (x : Nat) type\nshow Nat\n",
        9,
        "accepted Nat\nerror rule Nat declared twice\n",
        1,
        0,
    ),
    (
        "rule Nat type\nrule O : Nat\nshow O\nrule O type\nshow O\n",
        9,
        "accepted Nat\naccepted O\n|- O : Nat\nerror rule O declared twice\n",
        2,
        1,
    ),
    (
        "rule Nat type rule Nat (A type) type rule O : Nat show O",
        9,
        "accepted Nat\nerror rule Nat declared twice\n",
        1,
        0,
    ),
];

#[test]
fn each_source_has_its_transcript_and_its_derivation(rt: HostRuntime) -> Result<(), Fail> {
    let alloc = rt.alloc();
    for (source, status, text, rules, shown) in RUN {
        let run = called(alloc, "run", source.as_bytes())?;
        assert!(rt; run.is(status, text), "{source}");
        let exported = called(alloc, "export", source.as_bytes())?;
        assert_eq!(rt; exported.status, status, "{source}");
        assert!(rt; exported.text.len() <= 4_096, "{source}");
        let checked = called(alloc, "check", &exported.text)?;
        let front = format!(in alloc; "accepted {rules} rules, ")?;
        let inside = format!(in alloc; " entries, {shown} shown, level ")?;
        assert!(rt; checked.has(0, &front, &inside), "{source}");
    }
    Ok(())
}

// Commands that are not in the language, or not built over the rules of the natural numbers.
const NOT_YET: [&str; 27] = [
    // The grammar.
    "show (O)",
    "show",
    "show O)",
    "show (S O",
    "show S ()",
    "rule rule type",
    "rule Zero :: Nat",
    "rule 1x type",
    "rule F A type",
    "rule F ({x : Nat} A type) type",
    "let zero = O",
    // The characters.
    "show O -- zero",
    "show\tO",
    "rule a_b type",
    "rule été type",
    // Names, counts of arguments, and types.
    "show T",
    "show S",
    "show S O O",
    "show S Nat",
    "rule Bit type rule Zero : Bit show S Zero",
    "rule P (n : Nat) : n",
    "rule P : O",
    "rule F (Nat : Nat) (n : Nat) type",
    "rule F (Nat : Nat) : Nat",
    "rule F (A type) (A type) type",
    // After a rule of the name of an earlier one.
    "rule Nat type show Nat Nat",
    "rule Nat : O",
];

#[test]
fn what_is_not_built_has_one_line_and_no_derivation(rt: HostRuntime) -> Result<(), Fail> {
    let alloc = rt.alloc();
    for commands in NOT_YET {
        let source = format!(in alloc; "{NATURALS}{commands}\n")?;
        let run = called(alloc, "run", source.as_bytes())?;
        assert!(rt; run.is(7, "error not yet\n"), "{commands}");
        let exported = called(alloc, "export", source.as_bytes())?;
        assert!(rt; exported.is(7, ""), "{commands}");
    }
    Ok(())
}

#[test]
fn the_derivation_of_the_empty_source_has_two_lines(rt: HostRuntime) -> Result<(), Fail> {
    let exported = called(rt.alloc(), "export", b"")?;
    assert!(rt; exported.is(0, "andromeda derivation 1\nend\n"));
    Ok(())
}

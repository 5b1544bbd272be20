//! Sources with the first fault of their types, in tables.

use crate::faults::{NATURALS, first_fault};
use ft_grammar::SyntaxFault;
use std::alloc::Global;

// Each table has sources with their first fault, where they stand after the four rules.

// names without a meaning, and names that are declared twice
const NAMES: [(&str, &str); 30] = [
    ("show x", "5:6 unbound x"),
    ("computation R", "5:13 unbound R"),
    ("extensionality R", "5:16 unbound R"),
    ("let a = () computation a", "5:24 unbound a"),
    (
        "show congruence R (nil judgement) (nil judgement)",
        "5:17 unbound R",
    ),
    ("show perform f ()", "5:14 unbound f"),
    ("rule f type show perform f ()", "5:26 unbound f"),
    ("operation f unit : bool show f", "5:30 unbound f"),
    ("let a = match O with | @ T -> () end", "5:26 unbound T"),
    ("let a = match O with | @ eq -> () end", "5:26 unbound eq"),
    (
        "let a = (true, match true with | x -> x end) show x",
        "5:51 unbound x",
    ),
    (
        "let a = match (true, true) with | (x, y) -> () | z -> x end",
        "5:55 unbound x",
    ),
    ("let a = ({x : Nat} x, x)", "5:23 unbound x"),
    ("let a = handle () with | f x -> () end", "5:26 unbound f"),
    ("rule R ({y : Nat} x type) : y", "5:29 unbound y"),
    ("let a = let x = x in x", "5:17 unbound x"),
    ("let a = a", "5:9 unbound a"),
    ("rule R : R", "5:10 unbound R"),
    ("operation f unit : bool computation f", "5:37 unbound f"),
    (
        "let a = () let b = match O with | @ a -> () end",
        "5:37 unbound a",
    ),
    (
        "let a = handle () with | val x -> x end show x",
        "5:46 unbound x",
    ),
    (
        "operation f unit : unit let a = handle () with | f x -> () end show x",
        "5:69 unbound x",
    ),
    ("rule R (x type) type show x", "5:27 unbound x"),
    ("let a = handle x with | val x -> x end", "5:16 unbound x"),
    // names that are declared twice
    (
        "operation f unit : bool operation f unit : unit",
        "5:35 f declared twice",
    ),
    ("operation coerce unit : unit", "5:11 coerce declared twice"),
    ("rule R (x type) (x type) type", "5:18 x declared twice"),
    (
        "rule R (x type) (O == O : Nat by x) type",
        "5:34 x declared twice",
    ),
    (
        "let a = (true, true) show match a with | (x, x) -> x end",
        "5:46 x declared twice",
    ),
    (
        "operation f unit : unit let a = handle () with | f x -> () | f y -> () end",
        "5:62 f declared twice",
    ),
];

// numbers of arguments, and what is shown
const COUNTS: [(&str, &str); 17] = [
    ("show Nat Nat", "5:6 Nat takes 0, given 1"),
    ("show S", "5:6 S takes 1, given 0"),
    ("let a = () show a ()", "5:17 a takes 0, given 1"),
    (
        "let a = match O with | @ S -> () end",
        "5:26 S takes 1, given 0",
    ),
    ("show S O O", "5:6 S takes 1, given 2"),
    ("let S = () show S O", "5:17 S takes 0, given 1"),
    ("show eq O", "5:6 eq takes 0, given 1"),
    (
        "let a = match O with | @ S x y -> () end",
        "5:26 S takes 1, given 2",
    ),
    // what is shown
    (
        "show (O, O)",
        "5:6 type judgement * judgement, wanted judgement",
    ),
    ("show some true", "5:6 type option bool, wanted judgement"),
    (
        "show nil (bool * unit)",
        "5:6 type list (bool * unit), wanted judgement",
    ),
    (
        "show none (list boundary)",
        "5:6 type option list boundary, wanted judgement",
    ),
    ("show boundaryof O", "5:6 type boundary, wanted judgement"),
    (
        "show ((true, ()), true)",
        "5:6 type (bool * unit) * bool, wanted judgement",
    ),
    (
        "let a = true let a = () show a",
        "5:30 type unit, wanted judgement",
    ),
    (
        "rule a type let a = () show a",
        "5:29 type unit, wanted judgement",
    ),
    ("let a = true\nshow\n  a", "7:3 type bool, wanted judgement"),
];

// rules
const RULES: [(&str, &str); 11] = [
    ("rule R : true", "5:10 type bool, wanted judgement"),
    ("rule R : true == true", "5:10 type bool, wanted judgement"),
    ("rule R : O == O : true", "5:19 type bool, wanted judgement"),
    ("rule R (x : true) type", "5:13 type bool, wanted judgement"),
    (
        "rule R ({y : true} x type) type",
        "5:14 type bool, wanted judgement",
    ),
    (
        "rule R (true == true by x) type",
        "5:9 type bool, wanted judgement",
    ),
    ("rule R : O == true", "5:15 type bool, wanted judgement"),
    (
        "rule R (O == true by x) type",
        "5:14 type bool, wanted judgement",
    ),
    (
        "rule R (O == O : true by x) type",
        "5:18 type bool, wanted judgement",
    ),
    (
        "rule R (x : Nat) (y : boundaryof x) type",
        "5:23 type boundary, wanted judgement",
    ),
    (
        "rule R (x type) (y type) type show R O true",
        "5:40 type bool, wanted judgement",
    ),
];

// matching and handling
const CASES: [(&str, &str); 23] = [
    (
        "let a = match true with | true -> () | false -> true end",
        "5:49 type bool, wanted unit",
    ),
    (
        "let a = match true with | (x, y) -> () end",
        "5:27 type bool, wanted pair",
    ),
    (
        "let a = match true with | x :: y -> () end",
        "5:27 type bool, wanted list",
    ),
    (
        "let a = match true with | some x -> () end",
        "5:27 type bool, wanted option",
    ),
    (
        "let a = match true with | none -> () end",
        "5:27 type bool, wanted option",
    ),
    (
        "let a = match true with | nil -> () end",
        "5:27 type bool, wanted list",
    ),
    (
        "let a = match () with | true -> () end",
        "5:25 type unit, wanted bool",
    ),
    (
        "let a = match true with | () -> () end",
        "5:27 type bool, wanted unit",
    ),
    (
        "let a = match true with | @ S x -> () end",
        "5:27 type bool, wanted judgement",
    ),
    (
        "let a = match O with | @ S (x, y) -> () end",
        "5:28 type judgement, wanted pair",
    ),
    (
        "operation f bool : unit let a = handle () with | f x -> x end",
        "5:57 type bool, wanted unit",
    ),
    (
        "operation f bool : unit let a = handle () with | val y -> true | f x -> () end",
        "5:73 type unit, wanted bool",
    ),
    (
        "let a = match refl true with | x -> x end",
        "5:20 type bool, wanted judgement",
    ),
    (
        "let a = match true with | x -> refl x end",
        "5:37 type bool, wanted judgement",
    ),
    (
        "let a = match (true, ()) with | (x, y) -> refl y end",
        "5:48 type unit, wanted judgement",
    ),
    (
        "let a = match true :: nil bool with | x :: y -> refl y end",
        "5:54 type list bool, wanted judgement",
    ),
    (
        "let a = match some true with | some x -> refl x end",
        "5:47 type bool, wanted judgement",
    ),
    (
        "let a = match O with | @ S x -> boundaryof (boundaryof x) end",
        "5:45 type boundary, wanted judgement",
    ),
    (
        "let a = handle true with | val x -> refl x end",
        "5:42 type bool, wanted judgement",
    ),
    (
        "operation f bool : unit let a = handle O with | f x -> refl x end",
        "5:61 type bool, wanted judgement",
    ),
    (
        "let a = handle refl true with end",
        "5:21 type bool, wanted judgement",
    ),
    (
        "let a = handle O with | coerce p -> p end",
        "5:37 type judgement * boundary, wanted judgement",
    ),
    (
        "let a = match (nil bool, ()) with | (nil, _) -> () | (none, _) -> () end",
        "5:55 type list bool, wanted option",
    ),
];

// other forms
const FORMS: [(&str, &str); 39] = [
    (
        "operation f unit : bool show perform f true",
        "5:40 type bool, wanted unit",
    ),
    (
        "show if () then true else false",
        "5:9 type unit, wanted bool",
    ),
    (
        "show if true then true else ()",
        "5:29 type unit, wanted bool",
    ),
    ("show {x : true} x", "5:11 type bool, wanted judgement"),
    ("show {x : Nat} true", "5:16 type bool, wanted judgement"),
    ("show true{true}", "5:6 type bool, wanted judgement"),
    ("show O{true}", "5:8 type bool, wanted judgement"),
    ("show refl true", "5:11 type bool, wanted judgement"),
    ("show sym ()", "5:10 type unit, wanted judgement"),
    ("show left true", "5:11 type bool, wanted judgement"),
    ("show right true", "5:12 type bool, wanted judgement"),
    ("show typeof true", "5:13 type bool, wanted judgement"),
    ("show domain true", "5:13 type bool, wanted judgement"),
    (
        "show natural (boundaryof O)",
        "5:15 type boundary, wanted judgement",
    ),
    (
        "show normal (boundaryof O)",
        "5:14 type boundary, wanted judgement",
    ),
    (
        "show boundaryof (boundaryof O)",
        "5:18 type boundary, wanted judgement",
    ),
    ("show trans O true", "5:14 type bool, wanted judgement"),
    ("show convert true O", "5:14 type bool, wanted judgement"),
    ("show equal O true", "5:14 type bool, wanted judgement"),
    ("show widen true O", "5:12 type bool, wanted judgement"),
    ("show rewrite O true", "5:16 type bool, wanted judgement"),
    ("show fill O O", "5:11 type judgement, wanted boundary"),
    (
        "show fill (boundaryof O) true",
        "5:26 type bool, wanted judgement",
    ),
    ("show argument true 1", "5:15 type bool, wanted judgement"),
    (
        "show congruence S O (nil judgement)",
        "5:19 type judgement, wanted list judgement",
    ),
    (
        "show congruence S (nil judgement) (nil bool)",
        "5:36 type list bool, wanted list judgement",
    ),
    (
        "let a = true :: nil judgement",
        "5:17 type list judgement, wanted list bool",
    ),
    ("show S true", "5:8 type bool, wanted judgement"),
    (
        "let a = let x = true in refl x",
        "5:30 type bool, wanted judgement",
    ),
    (
        "let a = (refl true, true)",
        "5:15 type bool, wanted judgement",
    ),
    (
        "let a = (true, refl true)",
        "5:21 type bool, wanted judgement",
    ),
    (
        "let a = some (refl true)",
        "5:20 type bool, wanted judgement",
    ),
    ("show trans true O", "5:12 type bool, wanted judgement"),
    ("show convert O true", "5:16 type bool, wanted judgement"),
    ("show equal true O", "5:12 type bool, wanted judgement"),
    ("show widen O true", "5:14 type bool, wanted judgement"),
    ("show rewrite true O", "5:14 type bool, wanted judgement"),
    ("show O{O}{true}", "5:11 type bool, wanted judgement"),
    ("let a = () :: true", "5:15 type bool, wanted list unit"),
];

// of two faults the earlier one
const ORDER: [(&str, &str); 15] = [
    ("show S true true", "5:6 S takes 1, given 2"),
    ("show congruence R true true", "5:17 unbound R"),
    ("show perform f (refl true)", "5:14 unbound f"),
    (
        "let a = match (true, true) with | (x, ()) -> y end",
        "5:39 type bool, wanted unit",
    ),
    (
        "let a = match () with | (x, x) -> () end",
        "5:25 type unit, wanted pair",
    ),
    (
        "let a = match () with | @ T -> () end",
        "5:25 type unit, wanted judgement",
    ),
    ("let a = match O with | @ eq x -> () end", "5:26 unbound eq"),
    (
        "let a = match O with | x -> refl true | (x, x) -> () end",
        "5:34 type bool, wanted judgement",
    ),
    ("rule R (x type) (x : true) type", "5:18 x declared twice"),
    (
        "rule R (x type) (true == true by x) type",
        "5:18 type bool, wanted judgement",
    ),
    (
        "rule R ({y : true} x type) (x type) type",
        "5:14 type bool, wanted judgement",
    ),
    (
        "operation f unit : unit let a = handle () with | g x -> () | f x -> true end",
        "5:50 unbound g",
    ),
    (
        "operation f unit : unit let a = handle () with | f x -> true | f x -> () end",
        "5:57 type bool, wanted unit",
    ),
    (
        "operation f unit : unit let a = handle () with | f x -> () | f x -> true end",
        "5:62 f declared twice",
    ),
    (
        "show if true then refl () else refl true",
        "5:24 type unit, wanted judgement",
    ),
];

// Whether this is told of the commands after the four rules.
fn is_told(alloc: Global, commands: &str, wanted: &str) -> Result<bool, SyntaxFault> {
    let source = format!(in alloc; "{NATURALS}{commands}")?;
    let found = first_fault(alloc, &source)?;
    Ok(found.bytes() == wanted.as_bytes())
}

#[test]
fn a_name_without_a_meaning_or_declared_twice_is_a_fault(
    rt: HostRuntime,
) -> Result<(), SyntaxFault> {
    let alloc = rt.alloc();
    for (commands, wanted) in NAMES {
        assert!(rt; is_told(alloc, commands, wanted)?, "{commands}");
    }
    Ok(())
}

#[test]
fn a_wrong_count_and_what_cannot_be_shown_are_faults(rt: HostRuntime) -> Result<(), SyntaxFault> {
    let alloc = rt.alloc();
    for (commands, wanted) in COUNTS {
        assert!(rt; is_told(alloc, commands, wanted)?, "{commands}");
    }
    Ok(())
}

#[test]
fn a_rule_that_has_no_type_is_a_fault(rt: HostRuntime) -> Result<(), SyntaxFault> {
    let alloc = rt.alloc();
    for (commands, wanted) in RULES {
        assert!(rt; is_told(alloc, commands, wanted)?, "{commands}");
    }
    Ok(())
}

#[test]
fn a_case_that_has_no_type_is_a_fault(rt: HostRuntime) -> Result<(), SyntaxFault> {
    let alloc = rt.alloc();
    for (commands, wanted) in CASES {
        assert!(rt; is_told(alloc, commands, wanted)?, "{commands}");
    }
    Ok(())
}

#[test]
fn a_form_that_has_no_type_is_a_fault(rt: HostRuntime) -> Result<(), SyntaxFault> {
    let alloc = rt.alloc();
    for (commands, wanted) in FORMS {
        assert!(rt; is_told(alloc, commands, wanted)?, "{commands}");
    }
    Ok(())
}

#[test]
fn of_two_faults_the_earlier_one_is_told(rt: HostRuntime) -> Result<(), SyntaxFault> {
    let alloc = rt.alloc();
    for (commands, wanted) in ORDER {
        assert!(rt; is_told(alloc, commands, wanted)?, "{commands}");
    }
    Ok(())
}

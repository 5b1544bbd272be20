//! Budgets that end at each kind of place. The rules of the natural numbers use three units.

use crate::theories::{NATURALS, NOTHING, writes_within};
use ft_base::Memory;

// Sources after the natural numbers, each with its budget, its status and its lines: names, calls, local values and branches.
const SPENT: [(&str, u64, u8, &str); 18] = [
    ("show O", 3, 13, "error 4:6 budget spent\n"),
    ("show O", 4, 0, "|- O : Nat\n"),
    // Parentheses need no unit.
    ("show (((O)))", 3, 13, "error 4:9 budget spent\n"),
    ("show (((O)))", 4, 0, "|- O : Nat\n"),
    ("show S (S O)", 5, 13, "error 4:11 budget spent\n"),
    ("show S (S O)", 6, 0, "|- S(S(O)) : Nat\n"),
    (
        "show O show O",
        4,
        13,
        "|- O : Nat\nerror 4:13 budget spent\n",
    ),
    ("let x = O show x", 4, 13, "error 4:16 budget spent\n"),
    ("let x = O show x", 5, 0, "|- O : Nat\n"),
    ("show let x = O in x", 3, 13, "error 4:6 budget spent\n"),
    ("show let x = O in x", 4, 13, "error 4:14 budget spent\n"),
    ("show let x = O in x", 5, 13, "error 4:19 budget spent\n"),
    ("show let x = O in x", 6, 0, "|- O : Nat\n"),
    (
        "show if true then O else S O",
        3,
        13,
        "error 4:6 budget spent\n",
    ),
    (
        "show if true then O else S O",
        4,
        13,
        "error 4:9 budget spent\n",
    ),
    (
        "show if true then O else S O",
        5,
        13,
        "error 4:19 budget spent\n",
    ),
    // The other branch needs none.
    ("show if true then O else S O", 6, 0, "|- O : Nat\n"),
    (
        "show if false then O else S O",
        6,
        13,
        "error 4:29 budget spent\n",
    ),
];

#[test]
fn a_budget_ends_where_a_unit_is_missing(rt: HostRuntime) -> Result<(), Memory> {
    for (commands, budget, status, lines) in SPENT {
        assert!(rt;
            writes_within(rt.alloc(), &NATURALS, commands, budget, status, lines)?,
            "{commands} {budget}"
        );
    }
    Ok(())
}

// Matches and handlers.
const CASES: [(&str, u64, u8, &str); 19] = [
    (
        "show match O with | x -> x end",
        3,
        13,
        "error 4:6 budget spent\n",
    ),
    (
        "show match O with | x -> x end",
        4,
        13,
        "error 4:12 budget spent\n",
    ),
    (
        "show match O with | x -> x end",
        5,
        13,
        "error 4:26 budget spent\n",
    ),
    ("show match O with | x -> x end", 6, 0, "|- O : Nat\n"),
    // Patterns need none.
    (
        "show match S O with | @ O -> O | @ S (@ O) -> O end",
        6,
        13,
        "error 4:47 budget spent\n",
    ),
    (
        "show match S O with | @ O -> O | @ S (@ O) -> O end",
        7,
        0,
        "|- O : Nat\n",
    ),
    (
        "show match true with | false -> O end",
        5,
        12,
        "error 4:6 no match\n",
    ),
    ("show handle O with end", 3, 13, "error 4:6 budget spent\n"),
    // No handler takes it.
    (
        "show handle O with | val x -> x | coerce p -> O end",
        4,
        13,
        "error 4:13 budget spent\n",
    ),
    (
        "show handle O with | val x -> S x end",
        5,
        13,
        "error 4:31 budget spent\n",
    ),
    (
        "show handle O with | val x -> S x end",
        6,
        13,
        "error 4:33 budget spent\n",
    ),
    (
        "show handle O with | val x -> S x end",
        7,
        0,
        "|- S(O) : Nat\n",
    ),
    (
        "show handle perform coerce (O, boundaryof O) with | coerce p -> O end",
        4,
        13,
        "error 4:13 budget spent\n",
    ),
    (
        "show handle perform coerce (O, boundaryof O) with | coerce p -> O end",
        5,
        13,
        "error 4:28 budget spent\n",
    ),
    (
        "show handle perform coerce (O, boundaryof O) with | coerce p -> O end",
        8,
        13,
        "error 4:43 budget spent\n",
    ),
    (
        "show handle perform coerce (O, boundaryof O) with | coerce p -> O end",
        9,
        13,
        "error 4:65 budget spent\n",
    ),
    (
        "show handle perform coerce (O, boundaryof O) with | coerce p -> O end",
        10,
        0,
        "|- O : Nat\n",
    ),
    // An operation that an argument performs needs none.
    (
        "show handle S Nat with | coerce p -> O end",
        6,
        13,
        "error 4:38 budget spent\n",
    ),
    (
        "show handle S Nat with | coerce p -> O end",
        7,
        0,
        "|- O : Nat\n",
    ),
];

#[test]
fn a_budget_ends_in_a_match_or_a_handler(rt: HostRuntime) -> Result<(), Memory> {
    for (commands, budget, status, lines) in CASES {
        assert!(rt;
            writes_within(rt.alloc(), &NATURALS, commands, budget, status, lines)?,
            "{commands} {budget}"
        );
    }
    Ok(())
}

// Abstractions, lists and words.
const BINDING: [(&str, u64, u8, &str); 26] = [
    ("show {x : Nat} x", 3, 13, "error 4:6 budget spent\n"),
    ("show {x : Nat} x", 4, 13, "error 4:11 budget spent\n"),
    // The unit of the variable.
    ("show {x : Nat} x", 5, 13, "error 4:6 budget spent\n"),
    ("show {x : Nat} x", 6, 13, "error 4:16 budget spent\n"),
    ("show {x : Nat} x", 7, 0, "|- {@0 : Nat} @0 : Nat\n"),
    // It is spent before the type is refused.
    ("show {x : O} x", 5, 13, "error 4:6 budget spent\n"),
    ("show {x : O} x", 6, 11, "error 4:6 refused WrongForm\n"),
    // Of the list.
    ("show O :: nil judgement", 3, 13, "error 4:6 budget spent\n"),
    // Of its first member.
    ("show O :: nil judgement", 4, 13, "error 4:6 budget spent\n"),
    (
        "show O :: nil judgement",
        5,
        13,
        "error 4:11 budget spent\n",
    ),
    ("show O :: nil judgement", 6, 0, "|- O : Nat\n"),
    ("show refl O", 3, 13, "error 4:6 budget spent\n"),
    ("show refl O", 4, 13, "error 4:11 budget spent\n"),
    ("show refl O", 5, 0, "|- O == O : Nat\n"),
    ("show sym O", 5, 11, "error 4:6 refused WrongForm\n"),
    (
        "show trans (refl O) (refl O)",
        3,
        13,
        "error 4:6 budget spent\n",
    ),
    (
        "show trans (refl O) (refl O)",
        4,
        13,
        "error 4:13 budget spent\n",
    ),
    (
        "show trans (refl O) (refl O)",
        6,
        13,
        "error 4:22 budget spent\n",
    ),
    ("show trans (refl O) (refl O)", 8, 0, "|- O == O : Nat\n"),
    ("show argument (S O) 1", 3, 13, "error 4:6 budget spent\n"),
    ("show argument (S O) 1", 5, 13, "error 4:18 budget spent\n"),
    ("show argument (S O) 1", 6, 0, "|- O : Nat\n"),
    (
        "show congruence O (nil judgement) (nil judgement)",
        3,
        13,
        "error 4:6 budget spent\n",
    ),
    (
        "show congruence O (nil judgement) (nil judgement)",
        5,
        13,
        "error 4:36 budget spent\n",
    ),
    (
        "show congruence O (nil judgement) (nil judgement)",
        6,
        0,
        "|- O == O : Nat\n",
    ),
    ("show some O", 4, 13, "error 4:11 budget spent\n"),
];

#[test]
fn a_budget_ends_in_an_abstraction_or_a_word(rt: HostRuntime) -> Result<(), Memory> {
    for (commands, budget, status, lines) in BINDING {
        assert!(rt;
            writes_within(rt.alloc(), &NATURALS, commands, budget, status, lines)?,
            "{commands} {budget}"
        );
    }
    Ok(())
}

// Substitutions and constants.
const PUT: [(&str, u64, u8, &str); 17] = [
    ("show ({x : Nat} x){O}", 3, 13, "error 4:6 budget spent\n"),
    ("show ({x : Nat} x){O}", 4, 13, "error 4:7 budget spent\n"),
    ("show ({x : Nat} x){O}", 5, 13, "error 4:12 budget spent\n"),
    ("show ({x : Nat} x){O}", 6, 13, "error 4:7 budget spent\n"),
    ("show ({x : Nat} x){O}", 7, 13, "error 4:17 budget spent\n"),
    ("show ({x : Nat} x){O}", 8, 13, "error 4:20 budget spent\n"),
    ("show ({x : Nat} x){O}", 9, 0, "|- O : Nat\n"),
    ("let p = (O, true)", 3, 13, "error 4:9 budget spent\n"),
    ("let p = (O, true)", 4, 13, "error 4:10 budget spent\n"),
    ("let p = (O, true)", 5, 13, "error 4:13 budget spent\n"),
    ("let p = (O, true) show O", 7, 0, "|- O : Nat\n"),
    ("let p = ()", 3, 13, "error 4:9 budget spent\n"),
    ("let p = false", 3, 13, "error 4:9 budget spent\n"),
    ("let p = none bool", 3, 13, "error 4:9 budget spent\n"),
    ("let p = nil bool", 3, 13, "error 4:9 budget spent\n"),
    (
        "operation ask unit : judgement let p = perform ask ()",
        3,
        13,
        "error 4:40 budget spent\n",
    ),
    // An operation without a handler needs none.
    (
        "operation ask unit : judgement let p = perform ask ()",
        5,
        10,
        "error 4:40 unhandled ask\n",
    ),
];

#[test]
fn a_budget_ends_in_a_substitution_or_a_constant(rt: HostRuntime) -> Result<(), Memory> {
    for (commands, budget, status, lines) in PUT {
        assert!(rt;
            writes_within(rt.alloc(), &NATURALS, commands, budget, status, lines)?,
            "{commands} {budget}"
        );
    }
    Ok(())
}

// Rules, in the middle of a premise and behind it.
const RULES: [(&str, u64, u8, &str); 20] = [
    // In the middle of a premise.
    (
        "rule R ({x : Nat} {y : Nat} n : Nat) : Nat",
        3,
        13,
        "error 4:14 budget spent\n",
    ),
    // The variable of a binder.
    (
        "rule R ({x : Nat} {y : Nat} n : Nat) : Nat",
        4,
        13,
        "error 4:10 budget spent\n",
    ),
    (
        "rule R ({x : Nat} {y : Nat} n : Nat) : Nat",
        5,
        13,
        "error 4:24 budget spent\n",
    ),
    (
        "rule R ({x : Nat} {y : Nat} n : Nat) : Nat",
        6,
        13,
        "error 4:20 budget spent\n",
    ),
    (
        "rule R ({x : Nat} {y : Nat} n : Nat) : Nat",
        7,
        13,
        "error 4:33 budget spent\n",
    ),
    (
        "rule R ({x : Nat} {y : Nat} n : Nat) : Nat",
        8,
        13,
        "error 4:40 budget spent\n",
    ),
    (
        "rule R ({x : Nat} {y : Nat} n : Nat) : Nat",
        9,
        0,
        "accepted R\n",
    ),
    (
        "rule R ({x : O} A type) type",
        4,
        13,
        "error 4:10 budget spent\n",
    ),
    (
        "rule R ({x : O} A type) type",
        5,
        11,
        "error 4:10 refused WrongForm\n",
    ),
    (
        "rule R (Nat == Nat by e) (A type) : A == A",
        3,
        13,
        "error 4:9 budget spent\n",
    ),
    (
        "rule R (Nat == Nat by e) (A type) : A == A",
        4,
        13,
        "error 4:16 budget spent\n",
    ),
    (
        "rule R (Nat == Nat by e) (A type) : A == A",
        5,
        13,
        "error 4:37 budget spent\n",
    ),
    (
        "rule R (Nat == Nat by e) (A type) : A == A",
        6,
        13,
        "error 4:42 budget spent\n",
    ),
    (
        "rule R (Nat == Nat by e) (A type) : A == A",
        7,
        0,
        "accepted R\n",
    ),
    (
        "rule R (O == S O : Nat by e) : O == O : Nat",
        4,
        13,
        "error 4:14 budget spent\n",
    ),
    // The type comes after the sides.
    (
        "rule R (O == S O : Nat by e) : O == O : Nat",
        6,
        13,
        "error 4:20 budget spent\n",
    ),
    (
        "rule R (O == S O : Nat by e) : O == O : Nat",
        8,
        13,
        "error 4:37 budget spent\n",
    ),
    (
        "rule R (O == S O : Nat by e) : O == O : Nat",
        10,
        0,
        "accepted R\n",
    ),
    // What takes no unit is done without one.
    ("rule O type", 3, 9, "error 4:6 rule O declared twice\n"),
    ("show x", 3, 8, "error 4:6 unbound x\n"),
];

#[test]
fn a_budget_ends_in_a_rule(rt: HostRuntime) -> Result<(), Memory> {
    for (commands, budget, status, lines) in RULES {
        assert!(rt;
            writes_within(rt.alloc(), &NATURALS, commands, budget, status, lines)?,
            "{commands} {budget}"
        );
    }
    Ok(())
}

// Whole sources.
const FIRST: [(&str, u64, u8, &str); 6] = [
    (
        "rule Nat type\nrule O : Nat\nrule S (n : Nat) : Nat\nshow S (S O)",
        1,
        13,
        "accepted Nat\naccepted O\nerror 3:13 budget spent\n",
    ),
    (
        "rule Nat type\nrule O : Nat\nrule S (n : Nat) : Nat\nshow S (S O)",
        2,
        13,
        "accepted Nat\naccepted O\nerror 3:20 budget spent\n",
    ),
    (
        "rule Nat type\nrule O : Nat\nrule S (n : Nat) : Nat\nshow S (S O)",
        5,
        13,
        "accepted Nat\naccepted O\naccepted S\nerror 4:11 budget spent\n",
    ),
    (
        "rule Nat type\nrule O : Nat\nrule S (n : Nat) : Nat\nshow S (S O)",
        6,
        0,
        "accepted Nat\naccepted O\naccepted S\n|- S(S(O)) : Nat\n",
    ),
    // A source without commands.
    ("", 1, 0, ""),
    (
        "rule A type rule B (x type) type operation o unit : bool",
        1,
        0,
        "accepted A\naccepted B\n",
    ),
];

#[test]
fn a_budget_ends_in_the_first_rules(rt: HostRuntime) -> Result<(), Memory> {
    for (commands, budget, status, lines) in FIRST {
        assert!(rt;
            writes_within(rt.alloc(), &NOTHING, commands, budget, status, lines)?,
            "{commands} {budget}"
        );
    }
    Ok(())
}

//! Forms that need no equation: local values, branches, patterns, lists, abstractions and substitutions.

use crate::theories::{NATURALS, PRODUCTS, writes};
use ft_base::Memory;

// Local values, and branches.
const LOCAL: [(&str, u8, &str); 17] = [
    ("show let x = S O in S x", 0, "|- S(S(O)) : Nat\n"),
    // The value of a local name may use an outer one of the same name.
    (
        "show let x = O in let x = S x in S x",
        0,
        "|- S(S(O)) : Nat\n",
    ),
    // A local name ends with its `let`.
    (
        "let x = O show let x = S x in x show x",
        0,
        "|- S(O) : Nat\n|- O : Nat\n",
    ),
    // The last value of a name counts.
    ("let x = O let x = S x show x", 0, "|- S(O) : Nat\n"),
    // A value hides a rule of its name.
    ("let S = O show S", 0, "|- O : Nat\n"),
    ("let S = O let f = {S : Nat} S show f{S}", 0, "|- O : Nat\n"),
    // A value stays what it was when its name was given.
    (
        "let x = O\nlet y = x\nlet x = S O\nshow y",
        0,
        "|- O : Nat\n",
    ),
    ("let x = Nat show (x)", 0, "|- Nat type\n"),
    (
        "show let p = (O, true) in match p with | (x, b) -> if b then S x else x end",
        0,
        "|- S(O) : Nat\n",
    ),
    ("show if true then O else S O", 0, "|- O : Nat\n"),
    ("show if false then O else S O", 0, "|- S(O) : Nat\n"),
    // Only the branch that is chosen is evaluated.
    (
        "show if false then perform coerce (O, boundaryof O) else S O",
        0,
        "|- S(O) : Nat\n",
    ),
    (
        "show if if true then false else true then O else S O",
        0,
        "|- S(O) : Nat\n",
    ),
    (
        "show if true then if false then O else S O else Nat",
        0,
        "|- S(O) : Nat\n",
    ),
    // Rules alone.
    ("", 0, ""),
    // Comments are no part of a source.
    ("-- show O\nshow O -- S O", 0, "|- O : Nat\n"),
    // Letters of any script, tabs and carriage returns.
    (
        "rule été (_x1 : Nat) type\r\n\tshow\tété O",
        0,
        "accepted été\n|- été(O) type\n",
    ),
];

#[test]
fn a_local_value_has_its_scope(rt: HostRuntime) -> Result<(), Memory> {
    for (commands, status, lines) in LOCAL {
        assert!(rt;
            writes(rt.alloc(), &NATURALS, commands, status, lines)?,
            "{commands}"
        );
    }
    Ok(())
}

// Each form of pattern.
const MATCHED: [(&str, u8, &str); 28] = [
    ("show match O with | x -> S x end", 0, "|- S(O) : Nat\n"),
    ("show match S O with | _ -> O end", 0, "|- O : Nat\n"),
    // The first case that fits.
    (
        "show match O with | x -> S x | y -> y end",
        0,
        "|- S(O) : Nat\n",
    ),
    (
        "show match true with | false -> O | true -> S O end",
        0,
        "|- S(O) : Nat\n",
    ),
    (
        "show match false with | true -> O | _ -> S O end",
        0,
        "|- S(O) : Nat\n",
    ),
    ("show match () with | () -> O end", 0, "|- O : Nat\n"),
    (
        "show match (O, S O) with | (x, y) -> y end",
        0,
        "|- S(O) : Nat\n",
    ),
    (
        "show match (O, true) with | (x, false) -> x | (x, true) -> S x end",
        0,
        "|- S(O) : Nat\n",
    ),
    (
        "show match ((O, S O), true) with | ((_, x), b) -> if b then x else Nat end",
        0,
        "|- S(O) : Nat\n",
    ),
    (
        "show match some O with | none -> Nat | some x -> S x end",
        0,
        "|- S(O) : Nat\n",
    ),
    (
        "show match none judgement with | some x -> x | none -> O end",
        0,
        "|- O : Nat\n",
    ),
    (
        "show match some (some O) with | some none -> Nat | some (some x) -> x end",
        0,
        "|- O : Nat\n",
    ),
    (
        "show match S O :: O :: nil judgement with | nil -> O | x :: _ -> x end",
        0,
        "|- S(O) : Nat\n",
    ),
    (
        "show match nil judgement with | x :: _ -> x | nil -> O end",
        0,
        "|- O : Nat\n",
    ),
    (
        "show match O :: S O :: nil judgement with | _ :: x :: nil -> x | _ -> Nat end",
        0,
        "|- S(O) : Nat\n",
    ),
    (
        "show match O :: nil judgement with | _ :: x :: _ -> x | x :: _ -> S x end",
        0,
        "|- S(O) : Nat\n",
    ),
    (
        "show match (true :: nil bool) :: nil (list bool) with | (b :: _) :: _ -> if b then O else Nat end",
        0,
        "|- O : Nat\n",
    ),
    (
        "show match O with | @ S x -> x | @ O -> S O end",
        0,
        "|- S(O) : Nat\n",
    ),
    (
        "show match S (S O) with | @ S (@ S x) -> x end",
        0,
        "|- O : Nat\n",
    ),
    (
        "show match S O with | @ S (@ S x) -> x | @ S x -> S (S x) end",
        0,
        "|- S(S(O)) : Nat\n",
    ),
    ("show match Nat with | @ Nat -> O end", 0, "|- O : Nat\n"),
    // A variable is no application.
    (
        "show {x : Nat} match x with | @ O -> O | @ S y -> y | z -> S z end",
        0,
        "|- {@0 : Nat} S(@0) : Nat\n",
    ),
    // Nor is an abstraction, nor an equation.
    (
        "show match {x : Nat} S x with | @ S y -> O | f -> f{O} end",
        0,
        "|- S(O) : Nat\n",
    ),
    (
        "show match refl O with | @ O -> Nat | e -> e end",
        0,
        "|- O == O : Nat\n",
    ),
    // A case that does not fit names nothing.
    (
        "show let x = S O in match O with | @ S x -> x | y -> x end",
        0,
        "|- S(O) : Nat\n",
    ),
    (
        "show match (O, S O) with | (x, @ O) -> x | (y, @ S x) -> S y end",
        0,
        "|- S(O) : Nat\n",
    ),
    (
        "rule P (a : Nat) (b : Nat) : Nat show match P O (S O) with | @ P (@ S x) y -> x | @ P x (@ S y) -> P y (S x) end",
        0,
        "accepted P\n|- P(O, S(O)) : Nat\n",
    ),
    // Nor is a premise.
    (
        "rule R (A type) (a : match A with | @ Nat -> Nat | B -> B end) type show R Nat O",
        0,
        "accepted R\n|- R(Nat, O) type\n",
    ),
];

#[test]
fn a_match_takes_the_first_case_that_fits(rt: HostRuntime) -> Result<(), Memory> {
    for (commands, status, lines) in MATCHED {
        assert!(rt;
            writes(rt.alloc(), &NATURALS, commands, status, lines)?,
            "{commands}"
        );
    }
    Ok(())
}

// What is shown.
const SHOWN: [(&str, u8, &str); 11] = [
    ("show Nat", 0, "|- Nat type\n"),
    ("show some O", 0, "|- O : Nat\n"),
    ("show none judgement", 0, "none\n"),
    // An empty list has no line.
    ("show nil judgement", 0, ""),
    (
        "show O :: S O :: Nat :: nil judgement",
        0,
        "|- O : Nat\n|- S(O) : Nat\n|- Nat type\n",
    ),
    (
        "let l = O :: nil judgement show S O :: l",
        0,
        "|- S(O) : Nat\n|- O : Nat\n",
    ),
    // A `let` goes as far as it can.
    (
        "let l = nil judgement show O :: let x = S O in x :: l",
        0,
        "|- O : Nat\n|- S(O) : Nat\n",
    ),
    ("show S O show O", 0, "|- S(O) : Nat\n|- O : Nat\n"),
    ("show S\n(O)", 0, "|- S(O) : Nat\n"),
    ("show (((O)))", 0, "|- O : Nat\n"),
    // Values that cannot be shown.
    (
        "let a = () let b = (a, (true, none (bool * unit))) let c = nil (list boundary) let d = boundaryof O",
        0,
        "",
    ),
];

#[test]
fn a_value_is_shown_by_its_lines(rt: HostRuntime) -> Result<(), Memory> {
    for (commands, status, lines) in SHOWN {
        assert!(rt;
            writes(rt.alloc(), &NATURALS, commands, status, lines)?,
            "{commands}"
        );
    }
    Ok(())
}

// Abstractions, and terms for their variables.
const ABSTRACTED: [(&str, u8, &str); 26] = [
    ("show {x : Nat} x", 0, "|- {@0 : Nat} @0 : Nat\n"),
    (
        "show {x : Nat} {y : F x} y",
        0,
        "|- {@0 : Nat} {@1 : F(@0)} @1 : F(@0)\n",
    ),
    // The innermost name counts.
    (
        "show {x : Nat} {x : Nat} x",
        0,
        "|- {@0 : Nat} {@1 : Nat} @1 : Nat\n",
    ),
    ("show {x : Nat} Nat", 0, "|- {@0 : Nat} Nat type\n"),
    ("show {x : Nat} refl x", 0, "|- {@0 : Nat} @0 == @0 : Nat\n"),
    (
        "show {x : Nat} refl (F x)",
        0,
        "|- {@0 : Nat} F(@0) == F(@0)\n",
    ),
    (
        "show {x : Nat} let y = S x in S y",
        0,
        "|- {@0 : Nat} S(S(@0)) : Nat\n",
    ),
    ("show ({x : Nat} S x){O}", 0, "|- S(O) : Nat\n"),
    (
        "show ({x : Nat} {y : F x} S x){O}",
        0,
        "|- {@0 : F(O)} S(O) : Nat\n",
    ),
    (
        "show ({x : Nat} {y : Nat} S y){O}{S O}",
        0,
        "|- S(S(O)) : Nat\n",
    ),
    ("show ({x : Nat} {y : Nat} y){O}{S O}", 0, "|- S(O) : Nat\n"),
    (
        "show ({x : Nat} refl (S x)){O}",
        0,
        "|- S(O) == S(O) : Nat\n",
    ),
    (
        "show {x : Nat} ({y : Nat} S y){x}",
        0,
        "|- {@0 : Nat} S(@0) : Nat\n",
    ),
    (
        "let f = {x : Nat} S x show f{f{f{O}}}",
        0,
        "|- S(S(S(O))) : Nat\n",
    ),
    // Braces belong to the atom before them.
    ("let f = {x : Nat} S x show S f{O}", 0, "|- S(S(O)) : Nat\n"),
    (
        "show fill (boundaryof ({x : Nat} S x)) ({y : Nat} y)",
        0,
        "|- {@0 : Nat} @0 : Nat\n",
    ),
    // An abstracted boundary.
    (
        "let b = {x : Nat} boundaryof (F x) show fill b ({y : Nat} Nat)",
        0,
        "|- {@0 : Nat} Nat type\n",
    ),
    (
        "let b = {x : Nat} boundaryof x show fill b{O} (S O)",
        0,
        "|- S(O) : Nat\n",
    ),
    (
        "show Pi Nat ({x : Nat} F x)",
        0,
        "|- Pi(Nat, {@0} F(@0)) type\n",
    ),
    (
        "show {A : Nat} Pi Nat ({x : Nat} F A)",
        0,
        "|- {@0 : Nat} Pi(Nat, {@1} F(@0)) type\n",
    ),
    (
        "show Pi Nat ({x : Nat} Pi (F x) ({y : F x} F x))",
        0,
        "|- Pi(Nat, {@0} Pi(F(@0), {@1} F(@0))) type\n",
    ),
    (
        "show lam Nat ({x : Nat} Nat) ({x : Nat} S x)",
        0,
        "|- lam(Nat, {@0} Nat, {@0} S(@0)) : Pi(Nat, {@0} Nat)\n",
    ),
    // An argument with a binder is an abstraction.
    (
        "show match Pi Nat ({x : Nat} F x) with | @ Pi A B -> B{O} end",
        0,
        "|- F(O) type\n",
    ),
    (
        "show match lam Nat ({x : Nat} Nat) ({x : Nat} S x) with | @ lam A B e -> e end",
        0,
        "|- {@0 : Nat} S(@0) : Nat\n",
    ),
    (
        "show beta Nat ({x : Nat} Nat) ({x : Nat} S x) O",
        0,
        "|- app(Nat, {@0} Nat, lam(Nat, {@0} Nat, {@0} S(@0)), O) == S(O) : Nat\n",
    ),
    (
        "show {x : Nat} beta Nat ({y : Nat} Nat) ({y : Nat} x) O",
        0,
        "|- {@0 : Nat} app(Nat, {@1} Nat, lam(Nat, {@1} Nat, {@1} @0), O) == @0 : Nat\n",
    ),
];

#[test]
fn an_abstraction_has_its_domain(rt: HostRuntime) -> Result<(), Memory> {
    for (commands, status, lines) in ABSTRACTED {
        assert!(rt;
            writes(rt.alloc(), &PRODUCTS, commands, status, lines)?,
            "{commands}"
        );
    }
    Ok(())
}

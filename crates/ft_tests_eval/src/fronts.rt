//! Sources of which nothing is run: syntax, nesting, bytes, and parts that are not built.

use crate::theories::writes_only;
use ft_base::Memory;

// The equality checker in each kind of place; the commands before it are not run.
const UNBUILT: [(&str, &str); 52] = [
    ("computation O", "error 4:1 not yet\n"),
    ("extensionality O", "error 4:1 not yet\n"),
    ("show equal O O", "error 4:6 not yet\n"),
    ("show normal O", "error 4:6 not yet\n"),
    // Whether the name is bound or not.
    ("computation R", "error 4:1 not yet\n"),
    ("show normal undefined", "error 4:6 not yet\n"),
    // A fault of types before it is not heard.
    ("show undefined show normal O", "error 4:21 not yet\n"),
    ("show O{O} show equal O O", "error 4:16 not yet\n"),
    (
        "rule O type computation O extensionality O",
        "error 4:13 not yet\n",
    ),
    ("let x = equal O O", "error 4:9 not yet\n"),
    ("show let x = normal O in x", "error 4:14 not yet\n"),
    ("show let x = O in normal x", "error 4:19 not yet\n"),
    ("show if equal O O then O else O", "error 4:9 not yet\n"),
    ("show if true then normal O else O", "error 4:19 not yet\n"),
    ("show if true then O else normal O", "error 4:26 not yet\n"),
    (
        "show match equal O O with | some x -> x | none -> O end",
        "error 4:12 not yet\n",
    ),
    (
        "show match O with | @ O -> O | x -> normal x end",
        "error 4:37 not yet\n",
    ),
    (
        "show handle normal O with | coerce p -> O end",
        "error 4:13 not yet\n",
    ),
    (
        "show handle O with | val x -> normal x end",
        "error 4:31 not yet\n",
    ),
    (
        "show handle O with | coerce p -> normal O end",
        "error 4:34 not yet\n",
    ),
    ("show {x : normal Nat} x", "error 4:11 not yet\n"),
    ("show {x : Nat} normal x", "error 4:16 not yet\n"),
    ("show normal O :: nil judgement", "error 4:6 not yet\n"),
    (
        "show O :: normal O :: nil judgement",
        "error 4:11 not yet\n",
    ),
    ("show refl (normal O)", "error 4:12 not yet\n"),
    ("show normal (refl O)", "error 4:6 not yet\n"),
    ("show some (equal O O)", "error 4:12 not yet\n"),
    ("show trans (normal O) O", "error 4:13 not yet\n"),
    ("show trans O (normal O)", "error 4:15 not yet\n"),
    // The outer one comes first.
    ("show equal (normal O) O", "error 4:6 not yet\n"),
    ("show argument (normal O) 1", "error 4:16 not yet\n"),
    (
        "show congruence S (normal O :: nil judgement) (nil judgement)",
        "error 4:20 not yet\n",
    ),
    (
        "show congruence S (nil judgement) (normal O :: nil judgement)",
        "error 4:36 not yet\n",
    ),
    (
        "show perform coerce (normal O, boundaryof O)",
        "error 4:22 not yet\n",
    ),
    (
        "show fill (boundaryof O) (normal O)",
        "error 4:27 not yet\n",
    ),
    ("show S (normal O)", "error 4:9 not yet\n"),
    ("show (normal O){O}", "error 4:7 not yet\n"),
    ("show O{normal O}", "error 4:8 not yet\n"),
    ("show O{O}{normal O}", "error 4:11 not yet\n"),
    ("let p = (normal O, O)", "error 4:10 not yet\n"),
    ("let p = (O, normal O)", "error 4:13 not yet\n"),
    ("rule R (x : normal Nat) type", "error 4:13 not yet\n"),
    (
        "rule R ({x : normal Nat} A type) type",
        "error 4:14 not yet\n",
    ),
    (
        "rule R ({x : Nat} {y : normal Nat} A type) type",
        "error 4:24 not yet\n",
    ),
    (
        "rule R (O == normal O : Nat by e) type",
        "error 4:14 not yet\n",
    ),
    (
        "rule R (normal Nat == Nat by e) type",
        "error 4:9 not yet\n",
    ),
    (
        "rule R (O == O : normal Nat by e) type",
        "error 4:18 not yet\n",
    ),
    ("rule R : normal Nat", "error 4:10 not yet\n"),
    ("rule R : O == normal O : Nat", "error 4:15 not yet\n"),
    ("rule R : O == O : normal Nat", "error 4:19 not yet\n"),
    ("show (((normal O)))", "error 4:9 not yet\n"),
    // A comment is no part.
    ("-- normal O\nshow O show normal O", "error 5:13 not yet\n"),
];

#[test]
fn a_part_that_is_not_built_has_the_one_line(rt: HostRuntime) -> Result<(), Memory> {
    for (commands, line) in UNBUILT {
        assert!(rt; writes_only(rt.alloc(), commands, line)?, "{commands}");
    }
    Ok(())
}

// The first token that no source goes on with.
const SYNTAX: [(&str, &str); 48] = [
    ("show\n", "error 5:1 syntax\n"),
    (") O", "error 4:1 syntax\n"),
    ("show O )", "error 4:8 syntax\n"),
    ("show (O\n", "error 5:1 syntax\n"),
    ("show S (O ]", "error 4:11 syntax\n"),
    ("rule rule type", "error 4:6 syntax\n"),
    ("rule R n", "error 4:8 syntax\n"),
    ("rule R (n )", "error 4:11 syntax\n"),
    // An equation premise has a name.
    ("rule R (O == O : Nat )", "error 4:22 syntax\n"),
    ("rule R ({x : Nat} {y } A type) type", "error 4:22 syntax\n"),
    ("rule R (A type type) type", "error 4:16 syntax\n"),
    ("rule R : O == O : Nat : Nat", "error 4:23 syntax\n"),
    ("let val = O", "error 4:5 syntax\n"),
    ("let x == O", "error 4:7 syntax\n"),
    ("let x = let let", "error 4:13 syntax\n"),
    ("operation a unit judgement", "error 4:18 syntax\n"),
    ("operation a x : unit", "error 4:13 syntax\n"),
    // A pair as an argument stands in parentheses.
    ("operation a unit * unit : bool", "error 4:18 syntax\n"),
    ("computation ()", "error 4:13 syntax\n"),
    ("show if true then O end", "error 4:21 syntax\n"),
    // A match has a case.
    ("show match O with end", "error 4:19 syntax\n"),
    ("show match O with | S x -> x end", "error 4:23 syntax\n"),
    ("show match O with | x _ -> x end", "error 4:23 syntax\n"),
    ("show match O with | @ true -> O end", "error 4:23 syntax\n"),
    (
        "show handle O with | coerce -> O end",
        "error 4:29 syntax\n",
    ),
    // The case for a value comes first.
    (
        "show handle O with | coerce p -> O | val x -> x end",
        "error 4:38 syntax\n",
    ),
    (
        "show handle O with | val x -> x | val x -> x end",
        "error 4:35 syntax\n",
    ),
    // Braces after an atom are a substitution.
    ("show S {x : Nat} x", "error 4:11 syntax\n"),
    ("show {x } O", "error 4:9 syntax\n"),
    ("show O{(x) : Nat} O", "error 4:12 syntax\n"),
    ("show argument O O", "error 4:17 syntax\n"),
    ("show argument O 65536", "error 4:17 syntax\n"),
    ("show argument O 01", "error 4:17 syntax\n"),
    ("show refl refl O", "error 4:11 syntax\n"),
    ("show congruence (S) O O", "error 4:17 syntax\n"),
    ("show perform (a) O", "error 4:14 syntax\n"),
    ("show S O = O", "error 4:10 syntax\n"),
    ("show O , O", "error 4:8 syntax\n"),
    ("show @ O", "error 4:6 syntax\n"),
    ("show $", "error 4:6 syntax\n"),
    ("show O :: \n", "error 5:1 syntax\n"),
    ("show none O", "error 4:11 syntax\n"),
    ("show nil \n", "error 5:1 syntax\n"),
    // A word that is kept for later.
    ("principal O", "error 4:1 syntax\n"),
    ("derive two", "error 4:1 syntax\n"),
    ("rule equal type", "error 4:6 syntax\n"),
    // A fault of syntax comes before a part that is not built.
    ("show equal O show O", "error 4:14 syntax\n"),
    ("show O show O rule R type let = O", "error 4:31 syntax\n"),
];

#[test]
fn a_source_that_is_not_in_the_grammar_has_the_one_line(rt: HostRuntime) -> Result<(), Memory> {
    for (commands, line) in SYNTAX {
        assert!(rt; writes_only(rt.alloc(), commands, line)?, "{commands}");
    }
    Ok(())
}

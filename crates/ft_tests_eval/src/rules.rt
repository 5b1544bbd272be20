//! Rules that are declared and used: each kind of premise and conclusion, with binders and without.

use crate::theories::{EQUATIONS, writes};
use ft_base::Memory;

// Premises and conclusions.
const DECLARED: [(&str, u8, &str); 24] = [
    (
        "rule R (A type) type show R T",
        0,
        "accepted R\n|- R(T) type\n",
    ),
    (
        "rule R (n : Nat) type show R (S O)",
        0,
        "accepted R\n|- R(S(O)) type\n",
    ),
    (
        "rule R (Nat == T by e) type show R NT",
        0,
        "accepted R\n|- R(*) type\n",
    ),
    (
        "rule R (O == S O : Nat by e) : Nat show R one",
        0,
        "accepted R\n|- R(*) : Nat\n",
    ),
    (
        "rule R ({x : Nat} A type) type show R ({y : Nat} F y)",
        0,
        "accepted R\n|- R({@0} F(@0)) type\n",
    ),
    (
        "rule R ({x : Nat} {y : F x} n : Nat) : Nat show R ({x : Nat} {y : F x} S x)",
        0,
        "accepted R\n|- R({@0} {@1} S(@0)) : Nat\n",
    ),
    (
        "rule R ({x : Nat} F x == F x by e) type show R ({x : Nat} refl (F x))",
        0,
        "accepted R\n|- R({@0} *) type\n",
    ),
    (
        "rule R ({x : Nat} S x == S x : Nat by e) type show R ({x : Nat} refl (S x))",
        0,
        "accepted R\n|- R({@0} *) type\n",
    ),
    ("rule R : T show R", 0, "accepted R\n|- R : T\n"),
    (
        "rule R (A type) : A show R Nat",
        0,
        "accepted R\n|- R(Nat) : Nat\n",
    ),
    (
        "rule R (A type) (B type) : A == B show R Nat (F O)",
        0,
        "accepted R\n|- Nat == F(O)\n",
    ),
    (
        "rule R (a : Nat) (b : Nat) : a == b : Nat show R O (S O)",
        0,
        "accepted R\n|- O == S(O) : Nat\n",
    ),
    (
        "rule R ({x : Nat} A type) (n : Nat) : A{n} == T show R ({x : Nat} F x) O",
        0,
        "accepted R\n|- F(O) == T\n",
    ),
    (
        "rule R ({x : Nat} e : F x) : e{O} == v O : F O show R ({x : Nat} v x)",
        0,
        "accepted R\n|- v(O) == v(O) : F(O)\n",
    ),
    // The name of a premise hides a rule, up to its conclusion.
    (
        "rule R (O type) : O show R Nat",
        0,
        "accepted R\n|- R(Nat) : Nat\n",
    ),
    // The name of a binder hides a premise, up to the end of its own premise.
    (
        "rule R (n : Nat) ({n : F n} m : Nat) : F n show R O ({x : F O} S O)",
        0,
        "accepted R\n|- R(O, {@0} S(O)) : F(O)\n",
    ),
    // A premise with a binder is an abstraction.
    (
        "rule R ({x : Nat} n : Nat) : F n{O} show R ({x : Nat} S x)",
        0,
        "accepted R\n|- R({@0} S(@0)) : F(S(O))\n",
    ),
    // Any form stands in a rule.
    (
        "rule R (n : let m = S O in if true then F m else T) type show R (v (S O))",
        0,
        "accepted R\n|- R(v(S(O))) type\n",
    ),
    (
        "rule R (a : Nat) (b : F a) (convert b (rewrite ({x : Nat} F x) (refl a)) == b : F a by e) type show R O (v O) (refl (v O))",
        0,
        "accepted R\n|- R(O, v(O), *) type\n",
    ),
    (
        "rule ind ({x : Nat} P type) (z : P{O}) ({n : Nat} {p : P{n}} s : P{S n}) (n : Nat) : P{n} show ind ({x : Nat} Nat) O ({n : Nat} {p : Nat} S p) (S O)",
        0,
        "accepted ind\n|- ind({@0} Nat, O, {@0} {@1} S(@1), S(O)) : Nat\n",
    ),
    (
        "rule ind ({x : Nat} P type) (z : P{O}) ({n : Nat} {p : P{n}} s : P{S n}) (n : Nat) : P{n}\nshow {m : Nat} ind ({x : Nat} F x) (v O) ({n : Nat} {p : F n} v (S n)) m",
        0,
        "accepted ind\n|- {@0 : Nat} ind({@1} F(@1), v(O), {@1} {@2} v(S(@1)), @0) : F(@0)\n",
    ),
    (
        "rule R (A type) type show R (R (R Nat))",
        0,
        "accepted R\n|- R(R(R(Nat))) type\n",
    ),
    (
        "rule R type rule Q : R rule q : Q == Q : R show q show Q",
        0,
        "accepted R\naccepted Q\naccepted q\n|- Q == Q : R\n|- Q : R\n",
    ),
    // A rule may use values.
    (
        "let x = S O rule R (e : F x) : F x show R (v x)",
        0,
        "accepted R\n|- R(v(S(O))) : F(S(O))\n",
    ),
];

#[test]
fn a_rule_is_declared_and_applied(rt: HostRuntime) -> Result<(), Memory> {
    for (commands, status, lines) in DECLARED {
        assert!(rt;
            writes(rt.alloc(), &EQUATIONS, commands, status, lines)?,
            "{commands}"
        );
    }
    Ok(())
}

// Rules that are not declared.
const DECLINED: [(&str, u8, &str); 27] = [
    ("rule O type", 9, "error 9:6 rule O declared twice\n"),
    (
        "rule NT (A type) : A",
        9,
        "error 9:6 rule NT declared twice\n",
    ),
    // Before its parts are looked at.
    (
        "show O rule S (n : Nat) : O",
        9,
        "|- O : Nat\nerror 9:13 rule S declared twice\n",
    ),
    (
        "operation leak judgement : judgement let y = handle {x : Nat} perform leak x with | leak z -> z end rule R (a : F y) type",
        9,
        "error 9:108 premise 1 keeps x#0\n",
    ),
    // The domain of a binder counts.
    (
        "operation leak judgement : judgement let y = handle {x : Nat} perform leak x with | leak z -> z end rule R (A type) ({a : F y} B type) type",
        9,
        "error 9:117 premise 2 keeps x#0\n",
    ),
    (
        "operation leak judgement : judgement let y = handle {x : Nat} perform leak x with | leak z -> z end rule R (A type) : F y",
        9,
        "error 9:117 conclusion keeps x#0\n",
    ),
    (
        "operation leak judgement : judgement let y = handle {x : Nat} perform leak x with | leak z -> z end rule R (n : Nat) : y == n : Nat",
        9,
        "error 9:118 conclusion keeps x#0\n",
    ),
    // A variable that gets out within the premise.
    (
        "operation leak judgement : judgement rule R (a : F (handle {x : Nat} perform leak x with | leak z -> z end)) type",
        9,
        "error 9:45 premise 1 keeps x#0\n",
    ),
    // The least of those that it keeps; the type of `b` rests on `a`.
    (
        "operation leak judgement : judgement let y = handle {a : Nat} {b : F a} perform leak b with | leak z -> z end rule R (c : typeof y) type",
        9,
        "error 9:118 premise 1 keeps a#0\n",
    ),
    (
        "rule R (A type) : T == O",
        11,
        "error 9:17 refused WrongForm\n",
    ),
    (
        "rule R (x : convert Nat NT) type",
        11,
        "error 9:13 refused WrongForm\n",
    ),
    // At the body.
    ("rule R (x : O) type", 11, "error 9:9 refused WrongForm\n"),
    (
        "rule R ({y : Nat} x : O) type",
        11,
        "error 9:19 refused WrongForm\n",
    ),
    // At the name of the binder.
    (
        "rule R ({y : O} x type) type",
        11,
        "error 9:10 refused WrongForm\n",
    ),
    (
        "rule R ({x : Nat} {y : x} A type) type",
        11,
        "error 9:20 refused WrongForm\n",
    ),
    // At the conclusion.
    ("rule R : O", 11, "error 9:8 refused WrongForm\n"),
    // Types alone are equal without a type.
    (
        "rule R (O == S O by e) type",
        11,
        "error 9:9 refused WrongForm\n",
    ),
    (
        "rule R (Nat == T : Nat by e) type",
        11,
        "error 9:9 refused WrongForm\n",
    ),
    (
        "rule R (O == S O : v O by e) type",
        11,
        "error 9:9 refused WrongForm\n",
    ),
    ("rule R : O == S O", 11, "error 9:8 refused WrongForm\n"),
    (
        "rule R : O == one : Nat",
        11,
        "error 9:8 refused WrongForm\n",
    ),
    // The left side is compared first.
    (
        "rule R (convert O NT == O : Nat by e) type",
        11,
        "error 9:9 refused TypeDiffers: found T, wanted Nat\n",
    ),
    (
        "rule R (O == convert O NT : Nat by e) type",
        11,
        "error 9:9 refused TypeDiffers: found T, wanted Nat\n",
    ),
    (
        "rule R : O == S O : T",
        11,
        "error 9:8 refused TypeDiffers: found Nat, wanted T\n",
    ),
    // A premise is a metavariable.
    (
        "rule R (A type) (a : A) : a == a : Nat",
        11,
        "error 9:25 refused TypeDiffers: found A?3, wanted Nat\n",
    ),
    (
        "rule R (A type) (B type) (a : A) (a == a : B by e) type",
        11,
        "error 9:35 refused TypeDiffers: found A?3, wanted B?4\n",
    ),
    // A variable in a premise.
    (
        "rule R ({x : Nat} A type) ({y : Nat} a : A{y}) ({y : Nat} a{y} == a{O} : A{y} by e) type",
        11,
        "error 9:59 refused TypeDiffers: found A?3(O), wanted A?3(y#0)\n",
    ),
];

#[test]
fn a_rule_that_is_not_declared_has_its_line(rt: HostRuntime) -> Result<(), Memory> {
    for (commands, status, lines) in DECLINED {
        assert!(rt;
            writes(rt.alloc(), &EQUATIONS, commands, status, lines)?,
            "{commands}"
        );
    }
    Ok(())
}

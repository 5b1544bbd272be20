//! Refusals of the nucleus, each at each form that can have it.

use crate::theories::{DOUBLED, EQUATIONS, writes};
use ft_base::Memory;

// A part has not the form that is needed.
const FORM: [(&str, u8, &str); 41] = [
    // A domain is a plain type.
    ("show {x : O} x", 11, "error 9:6 refused WrongForm\n"),
    (
        "show {x : ({y : Nat} Nat)} x",
        11,
        "error 9:6 refused WrongForm\n",
    ),
    ("show {x : NT} x", 11, "error 9:6 refused WrongForm\n"),
    (
        "show {x : Nat} {y : x} x",
        11,
        "error 9:16 refused WrongForm\n",
    ),
    // A plain term is put for a variable.
    (
        "show ({x : Nat} x){Nat}",
        11,
        "error 9:6 refused WrongForm\n",
    ),
    (
        "show ({x : Nat} x){{y : Nat} y}",
        11,
        "error 9:6 refused WrongForm\n",
    ),
    (
        "show ({x : Nat} x){one}",
        11,
        "error 9:6 refused WrongForm\n",
    ),
    ("show refl one", 11, "error 9:6 refused WrongForm\n"),
    ("show refl NT", 11, "error 9:6 refused WrongForm\n"),
    ("show sym O", 11, "error 9:6 refused WrongForm\n"),
    (
        "show sym ({x : Nat} refl x)",
        11,
        "error 9:6 refused WrongForm\n",
    ),
    ("show trans O one", 11, "error 9:6 refused WrongForm\n"),
    ("show trans one O", 11, "error 9:6 refused WrongForm\n"),
    // Equations of terms and of types do not meet.
    ("show trans one NT", 11, "error 9:6 refused WrongForm\n"),
    (
        "show trans ({x : Nat} refl x) ({x : Nat} refl x)",
        11,
        "error 9:6 refused WrongForm\n",
    ),
    ("show convert Nat NT", 11, "error 9:6 refused WrongForm\n"),
    ("show convert NT NT", 11, "error 9:6 refused WrongForm\n"),
    ("show convert O one", 11, "error 9:6 refused WrongForm\n"),
    ("show convert one one", 11, "error 9:6 refused WrongForm\n"),
    (
        "show convert ({x : Nat} x) NT",
        11,
        "error 9:6 refused WrongForm\n",
    ),
    ("show left O", 11, "error 9:6 refused WrongForm\n"),
    ("show right Nat", 11, "error 9:6 refused WrongForm\n"),
    (
        "show left (boundaryof O)",
        11,
        "error 9:6 refused WrongForm\n",
    ),
    (
        "show right (({x : Nat} boundaryof x){O})",
        11,
        "error 9:6 refused WrongForm\n",
    ),
    ("show typeof Nat", 11, "error 9:6 refused WrongForm\n"),
    ("show typeof NT", 11, "error 9:6 refused WrongForm\n"),
    (
        "show typeof (boundaryof Nat)",
        11,
        "error 9:6 refused WrongForm\n",
    ),
    ("show natural Nat", 11, "error 9:6 refused WrongForm\n"),
    ("show natural one", 11, "error 9:6 refused WrongForm\n"),
    (
        "show natural ({x : Nat} x)",
        11,
        "error 9:6 refused WrongForm\n",
    ),
    (
        "show rewrite ({x : Nat} x) O",
        11,
        "error 9:6 refused WrongForm\n",
    ),
    (
        "show rewrite ({x : Nat} x) NT",
        11,
        "error 9:6 refused WrongForm\n",
    ),
    (
        "show rewrite ({x : Nat} refl x) one",
        11,
        "error 9:6 refused WrongForm\n",
    ),
    ("show argument one 1", 11, "error 9:6 refused WrongForm\n"),
    (
        "show argument ({x : Nat} S x) 1",
        11,
        "error 9:6 refused WrongForm\n",
    ),
    // The rule of an equation has no symbol.
    (
        "show congruence one (nil judgement) (nil judgement)",
        11,
        "error 9:6 refused WrongForm\n",
    ),
    (
        "show congruence S (Nat :: nil judgement) (one :: nil judgement)",
        11,
        "error 9:6 refused WrongForm\n",
    ),
    (
        "show congruence S (({x : Nat} x) :: nil judgement) (one :: nil judgement)",
        11,
        "error 9:6 refused WrongForm\n",
    ),
    (
        "show congruence S (O :: nil judgement) (O :: nil judgement)",
        11,
        "error 9:6 refused WrongForm\n",
    ),
    (
        "show congruence S (O :: nil judgement) (NT :: nil judgement)",
        11,
        "error 9:6 refused WrongForm\n",
    ),
    (
        "show congruence S (O :: nil judgement) (({x : Nat} refl O) :: nil judgement)",
        11,
        "error 9:6 refused WrongForm\n",
    ),
];

#[test]
fn a_wrong_form_is_refused(rt: HostRuntime) -> Result<(), Memory> {
    for (commands, status, lines) in FORM {
        assert!(rt;
            writes(rt.alloc(), &EQUATIONS, commands, status, lines)?,
            "{commands}"
        );
    }
    Ok(())
}

// There is no domain, no application, or another number of arguments.
const ABSTRACT: [(&str, u8, &str); 20] = [
    ("show O{O}", 11, "error 9:6 refused NotAbstracted\n"),
    (
        "show ({x : Nat} x){O}{O}",
        11,
        "error 9:6 refused NotAbstracted\n",
    ),
    // Before the form of the term.
    ("show Nat{Nat}", 11, "error 9:6 refused NotAbstracted\n"),
    (
        "let b = boundaryof O show fill b{O} O",
        11,
        "error 9:32 refused NotAbstracted\n",
    ),
    (
        "show rewrite O one",
        11,
        "error 9:6 refused NotAbstracted\n",
    ),
    ("show rewrite O NT", 11, "error 9:6 refused NotAbstracted\n"),
    ("show domain O", 11, "error 9:6 refused NotAbstracted\n"),
    ("show domain NT", 11, "error 9:6 refused NotAbstracted\n"),
    (
        "show domain (boundaryof O)",
        11,
        "error 9:6 refused NotAbstracted\n",
    ),
    (
        "show {x : Nat} argument x 1",
        11,
        "error 9:16 refused NotApplication\n",
    ),
    // Before the number.
    (
        "show {x : Nat} argument x 0",
        11,
        "error 9:16 refused NotApplication\n",
    ),
    (
        "show argument O 1",
        11,
        "error 9:6 refused ArgumentCount: 1 given, 0 wanted\n",
    ),
    (
        "show argument O 0",
        11,
        "error 9:6 refused ArgumentCount: 0 given, 0 wanted\n",
    ),
    (
        "show argument (S O) 0",
        11,
        "error 9:6 refused ArgumentCount: 0 given, 1 wanted\n",
    ),
    (
        "show argument (S O) 65535",
        11,
        "error 9:6 refused ArgumentCount: 65535 given, 1 wanted\n",
    ),
    (
        "show congruence S (nil judgement) (nil judgement)",
        11,
        "error 9:6 refused ArgumentCount: 0 given, 1 wanted\n",
    ),
    (
        "show congruence S (O :: O :: nil judgement) (nil judgement)",
        11,
        "error 9:6 refused ArgumentCount: 2 given, 1 wanted\n",
    ),
    (
        "show congruence S (O :: nil judgement) (nil judgement)",
        11,
        "error 9:6 refused ArgumentCount: 0 given, 1 wanted\n",
    ),
    (
        "show congruence S (O :: nil judgement) (one :: one :: nil judgement)",
        11,
        "error 9:6 refused ArgumentCount: 2 given, 1 wanted\n",
    ),
    // An equation premise wants none.
    (
        "rule H (O == S O : Nat by e) (n : Nat) : Nat show congruence H (one :: O :: nil judgement) (one :: one :: nil judgement)",
        11,
        "accepted H\nerror 9:51 refused ArgumentCount: 2 given, 1 wanted\n",
    ),
];

#[test]
fn what_is_not_abstracted_is_refused(rt: HostRuntime) -> Result<(), Memory> {
    for (commands, status, lines) in ABSTRACT {
        assert!(rt;
            writes(rt.alloc(), &EQUATIONS, commands, status, lines)?,
            "{commands}"
        );
    }
    Ok(())
}

// Types or sides differ.
const DIFFER: [(&str, u8, &str); 29] = [
    (
        "show ({x : Nat} x){convert O NT}",
        11,
        "error 9:6 refused TypeDiffers: found T, wanted Nat\n",
    ),
    (
        "show ({x : F O} x){v (S O)}",
        11,
        "error 9:6 refused TypeDiffers: found F(S(O)), wanted F(O)\n",
    ),
    // Variables are counted by the line.
    (
        "show {a : Nat} {b : Nat} ({x : F a} x){v b}",
        11,
        "error 9:26 refused TypeDiffers: found F(b#1), wanted F(a#0)\n",
    ),
    (
        "show {a : Nat} {b : Nat} ({x : F O} x){v b}",
        11,
        "error 9:26 refused TypeDiffers: found F(b#0), wanted F(O)\n",
    ),
    (
        "show rewrite ({x : T} x) one",
        11,
        "error 9:6 refused TypeDiffers: found Nat, wanted T\n",
    ),
    (
        "show trans one (convert one NT)",
        11,
        "error 9:6 refused TypeDiffers: found T, wanted Nat\n",
    ),
    (
        "show trans one one",
        11,
        "error 9:6 refused SidesDiffer: found O, wanted S(O)\n",
    ),
    (
        "show trans NT NT",
        11,
        "error 9:6 refused SidesDiffer: found Nat, wanted T\n",
    ),
    // Types come before sides.
    (
        "show trans one (refl (convert O NT))",
        11,
        "error 9:6 refused TypeDiffers: found T, wanted Nat\n",
    ),
    (
        "show convert (convert O NT) NT",
        11,
        "error 9:6 refused TypeDiffers: found T, wanted Nat\n",
    ),
    (
        "show convert one (sym NT)",
        11,
        "error 9:6 refused TypeDiffers: found Nat, wanted T\n",
    ),
    (
        "show congruence S (convert O NT :: nil judgement) (one :: nil judgement)",
        11,
        "error 9:6 refused TypeDiffers: found T, wanted Nat\n",
    ),
    (
        "show congruence S (O :: nil judgement) (convert one NT :: nil judgement)",
        11,
        "error 9:6 refused TypeDiffers: found T, wanted Nat\n",
    ),
    (
        "show congruence S (S O :: nil judgement) (one :: nil judgement)",
        11,
        "error 9:6 refused SidesDiffer: found O, wanted S(O)\n",
    ),
    (
        "rule H (O == S O : Nat by e) : Nat show congruence H (sym one :: nil judgement) (nil judgement)",
        11,
        "accepted H\nerror 9:41 refused SidesDiffer: found S(O), wanted O\n",
    ),
    // The left sides are the same.
    (
        "rule H (O == S O : Nat by e) : Nat show congruence H (refl O :: nil judgement) (nil judgement)",
        11,
        "accepted H\nerror 9:41 refused SidesDiffer: found O, wanted S(O)\n",
    ),
    (
        "rule G ({x : Nat} {y : F x} B type) : Nat show congruence G (({x : T} {y : F O} T) :: nil judgement) (nil judgement)",
        11,
        "accepted G\nerror 9:48 refused TypeDiffers: found T, wanted Nat\n",
    ),
    // Under one domain.
    (
        "rule G ({x : Nat} {y : F x} B type) : Nat show congruence G (({x : Nat} {y : F (S x)} T) :: nil judgement) (nil judgement)",
        11,
        "accepted G\nerror 9:48 refused TypeDiffers: found F(S(@0)), wanted F(@0)\n",
    ),
    (
        "rule G ({x : Nat} a : F x) : Nat show congruence G (({x : Nat} v O) :: nil judgement) (nil judgement)",
        11,
        "accepted G\nerror 9:39 refused TypeDiffers: found F(O), wanted F(@0)\n",
    ),
    (
        "rule G ({x : Nat} F x == F O by e) : Nat show congruence G (({x : Nat} refl (F x)) :: nil judgement) (nil judgement)",
        11,
        "accepted G\nerror 9:47 refused SidesDiffer: found F(@0), wanted F(O)\n",
    ),
    (
        "rule G ({x : Nat} a : Nat) : Nat show congruence G (({x : Nat} S x) :: nil judgement) (({x : Nat} refl x) :: nil judgement)",
        11,
        "accepted G\nerror 9:39 refused SidesDiffer: found @0, wanted S(@0)\n",
    ),
    // A metavariable has its number.
    (
        "rule R (A type) (a : A) (b : F (convert a (refl Nat))) type",
        11,
        "error 9:33 refused TypeDiffers: found A?3, wanted Nat\n",
    ),
    (
        "rule R ({x : Nat} A type) (b : F (({x : A{O}} O){O})) type",
        11,
        "error 9:35 refused TypeDiffers: found Nat, wanted A?3(O)\n",
    ),
    (
        "rule R ({x : Nat} {y : F x} A type) ({x : Nat} b : F (({y : A{x}{v x}} O){x})) type",
        11,
        "error 9:55 refused TypeDiffers: found Nat, wanted A?3(x#0, v(x#0))\n",
    ),
    (
        "operation leak judgement : judgement show {x : Nat} handle {y : F x} perform leak y with | leak z -> z end",
        11,
        "error 9:43 refused DependentVariable: y#0\n",
    ),
    // Also where the result does not mention it.
    (
        "operation leak judgement : judgement show {x : Nat} handle {y : F x} perform leak (widen O y) with | leak z -> z end",
        11,
        "error 9:43 refused DependentVariable: y#0\n",
    ),
    // A boundary.
    (
        "operation leak judgement : judgement let b = {x : Nat} boundaryof (handle {y : F x} perform leak y with | leak z -> z end)",
        11,
        "error 9:46 refused DependentVariable: y#0\n",
    ),
    // The least one.
    (
        "operation leak judgement : judgement show {x : Nat} handle {y : F x} {z : F x} perform leak (widen y z) with | leak w -> w end",
        11,
        "error 9:43 refused DependentVariable: y#0\n",
    ),
    // At the name of the binder.
    (
        "operation leak judgement : judgement rule R ({x : Nat} A : handle {y : F x} perform leak (widen Nat y) with | leak z -> z end) type",
        11,
        "error 9:47 refused DependentVariable: y#0\n",
    ),
];

#[test]
fn what_differs_is_refused(rt: HostRuntime) -> Result<(), Memory> {
    for (commands, status, lines) in DIFFER {
        assert!(rt;
            writes(rt.alloc(), &EQUATIONS, commands, status, lines)?,
            "{commands}"
        );
    }
    Ok(())
}

// Depth 1,000 and size 65,536 are the greatest.
const BIG: [(&str, u8, &str); 18] = [
    ("show typeof m", 0, "|- Nat type\n"),
    (
        "show match m with | @ S (@ S x) -> typeof x end",
        0,
        "|- Nat type\n",
    ),
    ("show S m", 11, "error 15:6 refused TooBig\n"),
    ("show f1{m}", 11, "error 15:6 refused TooBig\n"),
    ("show f1{f512{f512{O}}}", 11, "error 15:9 refused TooBig\n"),
    (
        "show {x : Nat} f512{f512{x}}",
        11,
        "error 15:16 refused TooBig\n",
    ),
    (
        "show rewrite f512 (refl f512{O})",
        11,
        "error 15:6 refused TooBig\n",
    ),
    (
        "show congruence S (m :: nil judgement) (refl m :: nil judgement)",
        11,
        "error 15:6 refused TooBig\n",
    ),
    (
        "rule F (n : Nat) type show F m",
        11,
        "accepted F\nerror 15:28 refused TooBig\n",
    ),
    // In a rule.
    (
        "rule F (n : Nat) type rule R (x : F m) type",
        11,
        "accepted F\nerror 15:35 refused TooBig\n",
    ),
    // The boundary of the next argument, after the argument was evaluated.
    (
        "rule F (n : Nat) type rule H (n : Nat) (a : F n) type show H m O",
        11,
        "accepted F\naccepted H\nerror 15:64 refused TooBig\n",
    ),
    (
        "rule F (n : Nat) type rule H (n : Nat) (a : F n) type operation ask unit : judgement show H m (perform ask ())",
        10,
        "accepted F\naccepted H\nerror 15:96 unhandled ask\n",
    ),
    // What is concluded.
    (
        "rule F (n : Nat) type rule c (n : Nat) : F n show c m",
        11,
        "accepted F\naccepted c\nerror 15:51 refused TooBig\n",
    ),
    (
        "rule e (n : Nat) : S n == n : Nat show e m",
        11,
        "accepted e\nerror 15:40 refused TooBig\n",
    ),
    (
        "show handle S m with | val x -> x | coerce p -> O end",
        11,
        "error 15:13 refused TooBig\n",
    ),
    // Size 65,535, and twice as much.
    (
        "rule P (a : Nat) (b : Nat) : Nat let q = {x : Nat} P x x let d = q{q{q{q{q{q{q{q{q{q{q{q{q{q{q{O}}}}}}}}}}}}}}} show typeof d show q{d}",
        11,
        "accepted P\n|- Nat type\nerror 15:132 refused TooBig\n",
    ),
    (
        "rule P (a : Nat) (b : Nat) : Nat let q = {x : Nat} P x x let d = q{q{q{q{q{q{q{q{q{q{q{q{q{q{q{O}}}}}}}}}}}}}}} show P d d",
        11,
        "accepted P\nerror 15:118 refused TooBig\n",
    ),
    // Size 65,536, and one more.
    (
        "rule P (a : Nat) (b : Nat) : Nat let q = {x : Nat} P x x let d = q{q{q{q{q{q{q{q{q{q{q{q{q{q{q{O}}}}}}}}}}}}}}} show typeof (S d) show S (S d)",
        11,
        "accepted P\n|- Nat type\nerror 15:136 refused TooBig\n",
    ),
];

#[test]
fn what_grows_too_big_is_refused(rt: HostRuntime) -> Result<(), Memory> {
    for (commands, status, lines) in BIG {
        assert!(rt;
            writes(rt.alloc(), &DOUBLED, commands, status, lines)?,
            "{commands}"
        );
    }
    Ok(())
}

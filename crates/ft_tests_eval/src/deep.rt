//! Sources at the limits: forms that nest 200 deep, handlers around handlers, long lists, and the longest source.

use crate::theories::{NATURALS, is_transcript, writes};
use ft_base::Memory;
use std::alloc::Global;

// A text, so many times.
fn repeated(alloc: Global, text: &str, times: usize) -> Result<String, Memory> {
    let mut all = String::new(alloc);
    for _ in 0..times {
        all.push_str(text)?;
    }
    Ok(all)
}

// So many times the first text, then the second, then so many times the third.
fn nested(
    alloc: Global,
    before: &str,
    middle: &str,
    after: &str,
    times: usize,
) -> Result<String, Memory> {
    let front = repeated(alloc, before, times)?;
    let back = repeated(alloc, after, times)?;
    Ok(format!(in alloc; "{front}{middle}{back}")?)
}

// Forms around a form, which is shown as `O` where 199 stand around it. With one more a part nests too deeply, at this column.
const FORMS: [(&str, &str, &str, u64); 12] = [
    ("(", "O", ")", 206),
    ("handle ", "O", " with end", 1_406),
    ("handle ", "O", " with | val x -> x end", 1_406),
    ("handle ", "O", " with | coerce p -> O end", 1_406),
    ("handle O with | val x -> ", "x", " end", 4_988),
    ("let x = O in ", "x", "", 2_601),
    ("let x = ", "O", " in x", 1_606),
    ("if true then ", "O", " else O", 2_596),
    ("if false then O else ", "O", "", 4_188),
    ("match ", "O", " with | x -> x end", 1_206),
    ("match O with | x -> ", "x", " end", 3_992),
    ("match some O with | some x -> ", "x", " end", 5_982),
];

#[test]
fn forms_nest_200_deep(rt: HostRuntime) -> Result<(), Memory> {
    let alloc = rt.alloc();
    for (before, middle, after, column) in FORMS {
        let deep = nested(alloc, before, middle, after, 199)?;
        let shown = format!(in alloc; "show {deep}")?;
        assert!(rt;
            writes(alloc, &NATURALS, &shown, 0, "|- O : Nat\n")?,
            "{before}"
        );
        let deeper = nested(alloc, before, middle, after, 200)?;
        let source = format!(in alloc; "{}show {deeper}\n", NATURALS.source)?;
        let line = format!(in alloc; "error 4:{column} nested too deeply\n")?;
        assert!(rt;
            is_transcript(alloc, source.as_bytes(), 1_000_000, 7, &line)?,
            "{before}"
        );
    }
    Ok(())
}

// What stands behind each of 198 bodies, around which one more handler gives `S O` for the operation; and what is shown then.
const HANDLERS: [(&str, &str); 6] = [
    // The operation passes all of them.
    (" with end", "|- S(O) : Nat\n"),
    (" with | val x -> O end", "|- S(O) : Nat\n"),
    (" with | coerce p -> O end", "|- S(O) : Nat\n"),
    // Each performs it again.
    (" with | ask u -> perform ask () end", "|- S(O) : Nat\n"),
    // The innermost one takes it; then each performs it for the value of its body, or gives the value on.
    (
        " with | val x -> perform ask () | ask u -> O end",
        "|- S(O) : Nat\n",
    ),
    (" with | val x -> x | ask u -> O end", "|- O : Nat\n"),
];

#[test]
fn an_operation_passes_199_handlers(rt: HostRuntime) -> Result<(), Memory> {
    let alloc = rt.alloc();
    for (after, lines) in HANDLERS {
        let inner = nested(alloc, "handle ", "perform ask ()", after, 198)?;
        let outer = "with | ask u -> S O end";
        let commands = format!(in alloc;
            "operation ask unit : judgement\nshow handle {inner} {outer}"
        )?;
        assert!(rt; writes(alloc, &NATURALS, &commands, 0, lines)?, "{after}");
    }
    Ok(())
}

#[test]
fn values_go_through_199_handlers(rt: HostRuntime) -> Result<(), Memory> {
    let alloc = rt.alloc();
    let handled = nested(alloc, "handle ", "O", " with | val x -> S x end", 199)?;
    let number = nested(alloc, "S(", "O", ")", 199)?;
    let commands = format!(in alloc; "show {handled}")?;
    let lines = format!(in alloc; "|- {number} : Nat\n")?;
    assert!(rt; writes(alloc, &NATURALS, &commands, 0, &lines)?);
    Ok(())
}

#[test]
fn a_list_of_many_judgements_is_shown(rt: HostRuntime) -> Result<(), Memory> {
    let alloc = rt.alloc();
    let members = repeated(alloc, "O :: S O :: ", 50)?;
    let longer = format!(in alloc; "let l = {members}l\n")?;
    let commands = format!(in alloc;
        "let l = nil judgement\n{}show l",
        repeated(alloc, &longer, 20)?
    )?;
    let lines = repeated(alloc, "|- O : Nat\n|- S(O) : Nat\n", 1_000)?;
    assert!(rt; writes(alloc, &NATURALS, &commands, 0, &lines)?);
    Ok(())
}

#[test]
fn many_commands_are_run(rt: HostRuntime) -> Result<(), Memory> {
    let alloc = rt.alloc();
    let commands = repeated(alloc, "let x = {y : Nat} S y show x{O}\n", 1_000)?;
    let lines = repeated(alloc, "|- S(O) : Nat\n", 1_000)?;
    assert!(rt; writes(alloc, &NATURALS, &commands, 0, &lines)?);
    Ok(())
}

#[test]
fn a_term_nests_1000_deep(rt: HostRuntime) -> Result<(), Memory> {
    let alloc = rt.alloc();
    let grown = repeated(alloc, "let n = S n\n", 999)?;
    let number = nested(alloc, "S(", "O", ")", 999)?;
    let commands = format!(in alloc; "let n = O\n{grown}show n")?;
    let lines = format!(in alloc; "|- {number} : Nat\n")?;
    assert!(rt; writes(alloc, &NATURALS, &commands, 0, &lines)?);
    let deeper = format!(in alloc; "{commands}\nshow S n")?;
    let refused = format!(in alloc; "{lines}error 1005:6 refused TooBig\n")?;
    assert!(rt; writes(alloc, &NATURALS, &deeper, 11, &refused)?);
    Ok(())
}

#[test]
fn a_source_has_1048576_bytes_at_most(rt: HostRuntime) -> Result<(), Memory> {
    let alloc = rt.alloc();
    let mut source = repeated(alloc, "                ", 65_536)?;
    assert!(rt; is_transcript(alloc, source.as_bytes(), 1, 0, "")?);
    source.push_str(" ")?;
    assert!(rt; is_transcript(alloc, source.as_bytes(), 1, 5, "error too long\n")?);
    Ok(())
}

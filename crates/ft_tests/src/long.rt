//! Inputs of many lines, of much nesting, and at the limits.

use crate::called::{AMPLE, NATURALS, Streams, called, called_over, repeated};
use crate::files::{FILE, checks};
use std::alloc::Global;
use std::test::Fail;

#[test]
fn an_expression_nests_to_200(rt: HostRuntime) -> Result<(), Fail> {
    let alloc = rt.alloc();
    let left = repeated(alloc, "(S ", 199)?;
    let right = repeated(alloc, ")", 199)?;
    let source = format!(in alloc; "{NATURALS}show S {left}O{right}\n")?;
    let heads = repeated(alloc, "S(", 200)?;
    let lines = "accepted Nat\naccepted O\naccepted S\n";
    let text = format!(in alloc; "{lines}|- {heads}O{right}) : Nat\n")?;
    assert!(rt; called(alloc, "run", source.as_bytes())?.is(0, &text));
    let deeper = format!(in alloc; "{NATURALS}show S {left}(S O){right}\n")?;
    assert!(rt; called(alloc, "run", deeper.as_bytes())?.is(7, "error not yet\n"));
    Ok(())
}

#[test]
fn inputs_have_at_most_so_many_bytes(rt: HostRuntime) -> Result<(), Fail> {
    let alloc = rt.alloc();
    for (word, bytes, status, text, too_long) in [
        ("run", 1_048_576, 0, "", "error too long\n"),
        ("export", 1_048_576, 0, "andromeda derivation 1\nend\n", ""),
        (
            "check",
            67_108_864,
            16,
            "error line 1 form\n",
            "error too long\n",
        ),
    ] {
        let mut input = repeated(alloc, &" ".repeat(alloc, 64)?, bytes / 64)?;
        assert!(rt;
            called(alloc, word, input.as_bytes())?.is(status, text),
            "{word}"
        );
        input.push_str(" ")?;
        assert!(rt;
            called(alloc, word, input.as_bytes())?.is(5, too_long),
            "{word}"
        );
    }
    Ok(())
}

#[test]
fn a_long_derivation_is_written_whole_or_up_to_a_fault(rt: HostRuntime) -> Result<(), Fail> {
    let alloc = rt.alloc();
    let shown = repeated(alloc, "show Nat\n", 6_000)?;
    let source = format!(in alloc; "rule Nat type\n{shown}")?;
    let whole = called(alloc, "export", source.as_bytes())?;
    assert!(rt; whole.status == 0);
    let checked = called(alloc, "check", &whole.text)?;
    assert!(rt; checked.has(0, "accepted 1 rules, ", " entries, 6000 shown, level "));
    let streams = Streams {
        piece: 4_096,
        room: 70_000,
        ..AMPLE
    };
    let begun = called_over(alloc, &["export"], source.as_bytes(), &streams)?;
    assert!(rt; begun.status == 4);
    assert!(rt; begun.text.len() == 70_000);
    assert!(rt; whole.text.starts_with(&begun.text));
    Ok(())
}

// A file of 5,000 entries, of which two with these numbers rest on a variable that is not there.
fn entries(alloc: Global, first: u64, second: u64) -> Result<String, Fail> {
    let mut file = String::from_str(alloc, "andromeda derivation 1\n")?;
    for i in 0..5_000 {
        let other = i == first || i == second;
        file.push_str(if other {
            "B T [v0] btype\n"
        } else {
            "B T [] btype\n"
        })?;
    }
    file.push_str("end\n")?;
    Ok(file)
}

#[test]
fn the_first_of_many_items_that_is_rejected_is_named(rt: HostRuntime) -> Result<(), Fail> {
    let alloc = rt.alloc();
    for (first, second, line) in [
        (
            5_000,
            5_000,
            "accepted 0 rules, 5000 entries, 0 shown, level 0",
        ),
        (37, 4_990, "rejected 37 set"),
        (4_990, 4_999, "rejected 4990 set"),
    ] {
        let file = entries(alloc, first, second)?;
        assert!(rt; checks(alloc, file.as_bytes(), line)?, "{line}");
    }
    Ok(())
}

// The lines of so many rules.
fn rules(alloc: Global, count: u64) -> Result<String, Fail> {
    let mut file = String::from_str(alloc, "andromeda derivation 1\nB T [] btype\n")?;
    for n in 0..count {
        write!(file, "R r{n} ; 0\n")?;
    }
    file.push_str("end\n")?;
    Ok(file)
}

#[test]
fn there_are_65536_rules_at_most(rt: HostRuntime) -> Result<(), Fail> {
    let alloc = rt.alloc();
    for (count, line) in [
        (65_536, "accepted 65536 rules, 1 entries, 0 shown, level 0"),
        (65_537, "rejected 65537 many"),
    ] {
        let file = rules(alloc, count)?;
        assert!(rt; checks(alloc, file.as_bytes(), line)?, "{line}");
    }
    Ok(())
}

#[test]
fn expressions_of_a_file_are_small(rt: HostRuntime) -> Result<(), Fail> {
    let alloc = rt.alloc();
    for (part, after, times, line) in [
        ("m0(", ")", 998, "rejected 9 reference"),
        ("m0(", ")", 999, "error line 11 form"),
        ("b0,", "", 65_534, "rejected 9 reference"),
        ("b0,", "", 65_535, "error line 11 form"),
    ] {
        let front = repeated(alloc, part, times)?;
        let back = repeated(alloc, after, times)?;
        let file = format!(in alloc; "{FILE}J T m0({front}b0{back}) [] refl 4\nend\n")?;
        assert!(rt; checks(alloc, file.as_bytes(), line)?, "{part} {times}");
    }
    Ok(())
}

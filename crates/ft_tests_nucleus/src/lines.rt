//! The lines of a run.

use crate::told::{is, name};
use ft_base::Memory;
use ft_print::{
    accepted_line, error_line, no_text_line, none_line, not_yet_line, spent_line, too_long_line,
    too_nested_line, unexpected_line,
};
use std::alloc::Global;
use std::test::Fail;

// A source with so many parentheses on its third line.
fn nested(alloc: Global, count: usize) -> Result<String, Memory> {
    let mut source = String::new(alloc);
    source.push_str("rule Nat type\n\nshow ")?;
    for _ in 0..count {
        source.push_str("(")?;
    }
    Ok(source)
}

#[test]
fn a_command_has_its_line(rt: HostRuntime) -> Result<(), Fail> {
    let alloc = rt.alloc();
    let nat = name(alloc, "Nat")?;
    assert!(rt; is(accepted_line(alloc, &nat), "accepted Nat\n"));
    assert!(rt; is(none_line(alloc), "none\n"));
    Ok(())
}

#[test]
fn a_source_without_commands_has_its_line(rt: HostRuntime) -> Result<(), Fail> {
    let alloc = rt.alloc();
    let deep = nested(alloc, 201)?;
    assert!(rt; is(too_long_line(alloc), "error too long\n"));
    assert!(rt; is(no_text_line(alloc, 7), "error not utf-8 at byte 7\n"));
    assert!(rt;
        is(
            unexpected_line(alloc, "rule rule type", 5),
            "error 1:6 syntax\n"
        )
    );
    assert!(rt;
        is(
            too_nested_line(alloc, &deep, 220),
            "error 3:206 nested too deeply\n"
        )
    );
    assert!(rt;
        is(
            not_yet_line(alloc, "rule A type\nlet", 12),
            "error 2:1 not yet\n"
        )
    );
    Ok(())
}

#[test]
fn a_fault_has_its_line(rt: HostRuntime) -> Result<(), Fail> {
    let alloc = rt.alloc();
    let source = "rule Nat type\nrule O : Nat\n\nlet a = f g";
    assert!(rt; is(spent_line(alloc, source, 38), "error 4:11 budget spent\n"));
    assert!(rt;
        is(
            error_line(alloc, "é x", 3, b"unbound x"),
            "error 1:3 unbound x\n"
        )
    );
    Ok(())
}

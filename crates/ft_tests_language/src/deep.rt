//! Types that commands make deeper and deeper.

use crate::faults::{fault_of, first_fault};
use ft_grammar::SyntaxFault;
use ft_types::{TypeFault, TypeWhy, Wanted};
use std::alloc::Global;

// How deep the types are.
const DEPTH: usize = 10_000;

fn repeated(alloc: Global, text: &str, times: usize) -> Result<String, SyntaxFault> {
    let mut all = String::new(alloc);
    for _ in 0..times {
        all.push_str(text)?;
    }
    Ok(all)
}

// How `p` grows with each command, and its type at the end, in parts: the first and the third stand there many times.
const GROWING: [(&str, &str, &str, &str); 3] = [
    ("let p = (p, ())\n", "(", "unit * unit", ") * unit"),
    ("let p = ((), p)\n", "unit * (", "unit * unit", ")"),
    ("let p = some p\n", "option ", "option unit", ""),
];

#[test]
fn a_fault_names_a_type_of_any_depth(rt: HostRuntime) -> Result<(), SyntaxFault> {
    let alloc = rt.alloc();
    for (command, before, middle, after) in GROWING {
        let grown = repeated(alloc, command, DEPTH)?;
        let source = format!(in alloc; "let p = ()\n{grown}show p\n")?;
        let left = repeated(alloc, before, DEPTH - 1)?;
        let right = repeated(alloc, after, DEPTH - 1)?;
        let wanted = format!(in alloc; "10002:6 type {left}{middle}{right}, wanted judgement")?;
        let found = first_fault(alloc, &source)?;
        assert!(rt; found.bytes() == wanted.as_bytes(), "{command}");
    }
    Ok(())
}

// A source in which the type of `p` has twice as many parts after each command, with this command after them.
fn doubled(alloc: Global, last: &str) -> Result<String, SyntaxFault> {
    let grown = repeated(alloc, "let p = (p, p)\n", DEPTH)?;
    Ok(format!(in alloc; "let p = ()\n{grown}{last}\n")?)
}

#[test]
fn equal_types_of_many_parts_are_found_equal(rt: HostRuntime) -> Result<(), SyntaxFault> {
    let alloc = rt.alloc();
    let last = "let q = if true then p else match (p, p) with | (x, _) -> x end";
    assert!(rt; fault_of(alloc, &doubled(alloc, last)?)?.is_none());
    Ok(())
}

// Whether the fault is a type found where another is wanted.
fn is_mismatch(fault: &TypeFault) -> bool {
    matches!(&fault.why, TypeWhy::Mismatch(_, Wanted::Exactly(_)))
}

#[test]
fn a_fault_holds_a_type_of_many_parts(rt: HostRuntime) -> Result<(), SyntaxFault> {
    let alloc = rt.alloc();
    let source = doubled(alloc, "let q = if true then p else (p, p)")?;
    let fault = fault_of(alloc, &source)?;
    assert!(rt; fault.as_ref().is_some_and(is_mismatch));
    Ok(())
}

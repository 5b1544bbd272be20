//! The first fault of a source, and its text.

use ft_base::{Memory, Text};
use ft_grammar::SyntaxFault;
use ft_lexer::tokens;
use ft_parser::parse;
use ft_print::{line_col, type_why_text};
use ft_types::{Scope, TypeFault, check_command};
use std::alloc::Global;

/// Four rules: a type, a term, a symbol with a premise, and an equation.
pub const NATURALS: &str =
    "rule Nat type\nrule O : Nat\nrule S (n : Nat) : Nat\nrule eq : O == O : Nat\n";

/// The first fault of the types of a source.
pub fn fault_of(alloc: Global, source: &str) -> Result<Option<TypeFault>, SyntaxFault> {
    let mut scope = Scope::new(alloc)?;
    for command in parse(alloc, &tokens(alloc, source)?)? {
        if let Err(fault) = check_command(alloc, &mut scope, command) {
            return Ok(Some(fault));
        }
    }
    Ok(None)
}

/// The first fault of the types of a source, as a reader sees it. Without a fault it is empty.
pub fn first_fault(alloc: Global, source: &str) -> Result<Text, SyntaxFault> {
    match fault_of(alloc, source)? {
        Some(fault) => Ok(fault_text(alloc, source, &fault)?),
        None => Ok(Text::new(alloc)),
    }
}

// A fault with its line and column.
fn fault_text(alloc: Global, source: &str, fault: &TypeFault) -> Result<Text, Memory> {
    let (line, column) = line_col(source, fault.at);
    let mut out = Text::new(alloc);
    out.push_number(line)?;
    out.push_str(":")?;
    out.push_number(column)?;
    out.push_str(" ")?;
    out.push(type_why_text(alloc, &fault.why)?.bytes())?;
    Ok(out)
}

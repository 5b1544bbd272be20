//! The names of rules, metavariables and variables.

ghost use Rattle.std.specs.Prelude.{◌≡◌, ◌++◌, [], option_map, OnOk};
ghost use Rattle.std.specs.List.Sorted.{IsNonDecreasing};
ghost use Rattle.ft_theory.specs.Rules.{look_up};
ghost use Rattle.ft_items.specs.Good.{Good};
ghost use Rattle.ft_items.specs.Store.{nth, declared_by};
ghost use Rattle.ft_meaning.specs.Texts.{name_if_any, metavariable_text, variable_text};

use crate::variables::place_of;
use ft_base::{Memory, Text};
use ft_kernel::Kernel;

// Appends the name of the rule of a symbol, where there is one.
pub fn push_symbol(k: &Kernel, s: u64, out: &mut Text) -> Result<(), Memory>
    requires good { Good k.now.items }
    ensures ok { OnOk result
        (out.new ≡ out.old ++ name_if_any (nth (declared_by k.now.items).names s)) }
{
    match k.rule_numbered(s) {
        Some(rule) => out.push_chars(k.rule(rule).name.chars()),
        None => Ok(()),
    }
}

// Appends the name of a metavariable, where there is one.
fn push_metavariable_name(k: &Kernel, m: u64, out: &mut Text) -> Result<(), Memory>
    requires good { Good k.now.items }
    ensures ok { OnOk result
        (out.new ≡ out.old ++
        name_if_any (option_map (λ d. d.name) (nth (declared_by k.now.items).metavariables m))) }
{
    match k.met_numbered(m) {
        Some(found) => out.push_chars(k.met(found).name.chars()),
        None => Ok(()),
    }
}

// Appends the name of a variable, where there is one.
fn push_variable_name(k: &Kernel, v: u64, out: &mut Text) -> Result<(), Memory>
    requires good { Good k.now.items }
    ensures ok { OnOk result
        (out.new ≡ out.old ++
        name_if_any (option_map (λ d. d.name) (look_up (declared_by k.now.items).variables v))) }
{
    match k.var_numbered(v) {
        Some(found) => out.push_chars(k.var(found).name.chars()),
        None => Ok(()),
    }
}

// Appends a metavariable.
pub fn push_metavariable(k: &Kernel, m: u64, out: &mut Text) -> Result<(), Memory>
    requires good { Good k.now.items }
    ensures ok { OnOk result (out.new ≡ out.old ++ metavariable_text (declared_by k.now.items) [] m) }
{
    push_metavariable_name(k, m, out)?;
    out.push_str("?")?;
    out.push_number(m)
}

// Appends a variable, in a line that mentions these.
pub fn push_variable(k: &Kernel, variables: &[u64], v: u64, out: &mut Text) -> Result<(), Memory>
    requires good { Good k.now.items }
    requires ascending { IsNonDecreasing variables.now }
    ensures ok { OnOk result
        (out.new ≡ out.old ++ variable_text (declared_by k.now.items) variables.now v) }
{
    push_variable_name(k, v, out)?;
    out.push_str("#")?;
    out.push_number(place_of(variables, v))
}

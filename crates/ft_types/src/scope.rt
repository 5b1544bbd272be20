//! The scope of a source, and the commands that are checked in it.

ghost use Rattle.std.specs.Prelude.{◌≡◌, IfOk, OnErr, codes};
ghost use Rattle.ft_meaning.specs.Trees.{command_of};
ghost use Rattle.ft_meaning.specs.Typing.{first_scope};
ghost use Rattle.ft_meaning.specs.CommandTyping.{scope_after};
ghost use Rattle.ft_types.specs.Checking.{Gives};

use crate::checker::{Checker, OperationShape};
use crate::fault::TypeFault;
use crate::types::{KnownType, Row};
use ft_base::{Memory, Name};
use ft_grammar::Command;
use std::alloc::Global;
use std::marker::Model;

/// What names stand for after some commands, which contracts see as the scope of the definitions.
#[derive(Drop)]
pub struct Scope {
    checker: Checker,
}

impl Model for Scope {
    ghost use Rattle.std.specs.Prelude.{◌≡◌, []};
    ghost use Rattle.std.specs.Coded.{codes};
    ghost use Rattle.ft_meaning.specs.Typing.{Scope};
    ghost use Rattle.ft_types.specs.Code.{coded_type};

    ghost Value = { Scope };

    ghost coded = { Prim.hlevel (codes, coded_type) };

    ghost view = { λ s. s.checker.top };

    ghost invariant = { λ s. s.checker.locals ≡ [] };
}

// The name `coerce`.
#[tactic(auto, using(crate::proofs::Coerce::coerce_name))]
fn coerce(alloc: Global) -> Result<Name, Memory>
    ensures { IfOk result (λ n. n ≡ codes "coerce") }
{
    let spelling = vec![in alloc; 'c', 'o', 'e', 'r', 'c', 'e']?;
    match Name::from_chars(spelling) {
        Some(name) => Ok(name),
        None => unreachable!(),
    }
}

impl Scope {
    /// The operation `coerce` alone, from a pair of a judgement and a boundary to a judgement.
    pub fn new(alloc: Global) -> Result<Scope, Memory>
        ensures { IfOk result (λ s. s ≡ first_scope) }
    {
        let mut checker = Checker::new(alloc);
        let argument = checker.of_row(Row::Pair(KnownType::Judgement, KnownType::Boundary))?;
        let name = coerce(alloc)?;
        checker.add_operation(
            &name,
            OperationShape {
                argument,
                result: KnownType::Judgement,
            },
        )?;
        Ok(Scope { checker })
    }
}

/// A command that was checked in a scope.
#[derive(Debug, Drop)]
pub struct Typed {
    command: Command,
}

impl Model for Typed {
    ghost use Rattle.ft_grammar.specs.declared.syntax.Command.{Command};
    ghost use Rattle.std.specs.Coded.{codes};
    ghost use Rattle.ft_grammar.specs.contracts.syntax.Command as kinds;

    ghost Value = { Command };

    ghost coded = { Prim.hlevel (codes, kinds.the_row.coded) };

    ghost view = { λ t. t.command };
}

impl Typed {
    /// The command. It takes no memory.
    pub fn command(&self) -> &Command
        ensures { result.now ≡ self.now }
    {
        &self.command
    }
}

/// Checks a command: the types of its parts, and the scope after it. After a fault the scope is as
/// before.
#[tactic(auto, using(crate::proofs::Alone::left_none))]
pub fn check_command(alloc: Global, s: &mut Scope, c: Command) -> Result<Typed, TypeFault>
    ensures holds { IfOk result (λ t. t ≡ c) }
    ensures scope { Gives (scope_after (command_of c) s.old) result (λ _. s.new) }
    ensures unchanged { OnErr result (s.new ≡ s.old) }
{
    match s.checker.command(alloc, &c) {
        Ok(()) => Ok(Typed { command: c }),
        Err(e) => {
            s.checker.leave(0);
            Err(e)
        }
    }
}

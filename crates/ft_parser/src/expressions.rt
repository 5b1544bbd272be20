//! What the rules for expressions share.

ghost use Rattle.std.specs.Prelude.{◌≡◌, IfOk, OnOk, [], ◌∷◌, ◌++◌};
ghost use Rattle.ft_grammar.specs.Rules.{expression};
ghost use Rattle.ft_grammar.specs.Reading.{Reads, level};
ghost use Rattle.ft_parser.specs.Nests.{Nests};

use crate::cursor::Cursor;
use ft_grammar::{Ast, SyntaxFault};
use sqlite_items::{Boxed, Items};
use std::alloc::{AllocError, Global};

// The rules for expressions take the reader of expressions one level deeper, so that each is proved by itself.
#[derive(Clone, Copy)]
pub struct Expressions<F> {
    pub alloc: Global,
    /// How deep the parts of the expression may still nest.
    pub depth: usize,
    pub nested: F,
}

impl<F: Fn(Global, &mut Cursor<'_>, usize) -> Result<Boxed<Ast>, SyntaxFault>> Expressions<F> {
    pub fn inner(&self, tokens: &mut Cursor<'_>) -> Result<Boxed<Ast>, SyntaxFault>
        requires { Nests expression self.now.depth (F.pre self.now.nested) (F.post self.now.nested) }
        ensures { Reads (level self.now.depth expression tokens.old) result tokens.new }
    {
        (self.nested)(self.alloc, tokens, self.depth)
    }
}

/// A list with one item.
pub fn single<T: Drop>(alloc: Global, item: T) -> Result<Items<T>, AllocError>
    ensures { IfOk result (λ items. items ≡ item ∷ []) }
{
    let mut items = Items::new(alloc);
    items.push(item)?;
    Ok(items)
}

/// Puts an expression after those that were found.
pub fn keep(found: &mut Items<Ast>, next: Boxed<Ast>) -> Result<(), AllocError>
    ensures { OnOk result (found.new ≡ found.old ++ next ∷ []) }
{
    found.push(next.into_inner())
}

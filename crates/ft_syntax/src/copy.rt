//! Expressions of another table.

ghost use Rattle.std.specs.Prelude.{◌≡◌, ◌+◌, ◌<◌, length, map, option_map, IfOk, IfErr};
ghost use Rattle.ft_syntax.specs.Arguments.{node_of, IsApplication};
ghost use Rattle.ft_syntax.specs.Table.{tree, Extends, BodyBelow};
ghost use Rattle.ft_syntax.specs.declared.syntax.SynFault.TheVariants.{Memory};

use crate::syntax::{Arg, E, Node, SynFault};
use crate::table::Terms;
use ft_base::Memory;

impl Terms {
    /// The expression that `e` is in the other table. It is small, so that only memory may be wanting.
    pub fn copy_from(&mut self, other: &Terms, e: E) -> Result<E, Memory>
        requires { e < length other.now }
        ensures within { IfOk result (λ r. r < length self.new) }
        ensures tree { IfOk result (λ r. tree self.new r ≡ tree other.now e) }
        ensures goes_on { Extends self.old self.new }
    {
        match self.copied(other, e) {
            Ok(r) => Ok(r),
            Err(_) => Err(Memory),
        }
    }

    // The expression that e is in the other table. It is small, so that only memory may be wanting.
    #[cycle(copying)]
    #[tactic(auto, using(crate::proofs::Changes::node_bound, crate::proofs::Changes::node_free, crate::proofs::Changes::node_symbol, crate::proofs::Changes::node_meta))]
    fn copied(&mut self, other: &Terms, e: E) -> Result<E, SynFault>
        requires { e < length other.now }
        ensures within { IfOk result (λ r. r < length self.new) }
        ensures tree { IfOk result (λ r. tree self.new r ≡ tree other.now e) }
        ensures goes_on { Extends self.old self.new }
    {
        match other.node(e) {
            Node::Bound(i) => self.bound(i),
            Node::Free(v) => self.free(v),
            node => self.copied_application(other, node, e),
        }
    }

    // The application that e is in the other table.
    #[cycle(copying)]
    #[tactic(auto, using(crate::proofs::Copying::copying_start, crate::proofs::Changing::first_below, crate::proofs::Copying::copying_fits, crate::proofs::Copying::copying_end, crate::proofs::Copying::copying_goes_on, crate::proofs::Changing::applied_falls))]
    fn copied_application(&mut self, other: &Terms, node: Node, e: E) -> Result<E, SynFault>
        requires within { e < length other.now }
        requires node { node ≡ node_of (tree other.now e) }
        requires application { IsApplication node }
        ensures within { IfOk result (λ r. r < length self.new) }
        ensures tree { IfOk result (λ r. tree self.new r ≡ tree other.now e) }
        ensures goes_on { Extends self.old self.new }
    {
        let args = other.arguments(e)?;
        let mut list = Vec::new(self.allocator());
        for a in &args {
            let body = self.copied_body(other, a.body)?;
            list.push(Arg {
                binders: a.binders,
                body,
            })?;
        }
        self.apply(node, &list)
    }

    // The body of an argument of the other table.
    #[cycle(copying)]
    #[tactic(auto, using(crate::proofs::Copying::copied_some, crate::specs::Laws::extends_same))]
    fn copied_body(&mut self, other: &Terms, body: Option<E>) -> Result<Option<E>, SynFault>
        requires { BodyBelow (length other.now) body }
        ensures within { IfOk result (λ b. BodyBelow (length self.new) b) }
        ensures body { IfOk result (λ b. option_map (tree self.new) b ≡ option_map (tree other.now) body) }
        ensures goes_on { Extends self.old self.new }
    {
        match body {
            None => Ok(None),
            Some(e) => match self.copied(other, e) {
                Ok(r) => Ok(Some(r)),
                Err(fault) => Err(fault),
            },
        }
    }
}

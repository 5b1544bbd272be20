//! Theses and boundaries.

ghost use Rattle.std.specs.Prelude.{◌≡◌, IfOk};

use ft_base::{Memory, Sequence};
use ft_syntax::E;

/// The types of the domains of a thesis or a boundary, in order, which contracts see as the list of their numbers.
pub type Domains = Sequence<E>;

/// What a thesis says below its domains: `A type`, `t : A` (the term, then the type), `A == B`, or `s == t : A` (left,
/// right, type).
#[derive(Clone, Copy, Debug, PartialEq, Eq)]
pub enum Form {
    Ty(E),
    Tm(E, E),
    EqTy(E, E),
    EqTm(E, E, E),
}

/// What a boundary asks below its domains: `_ type`, `_ : A`, `A == B`, or `s == t : A` (left, right, type).
#[derive(Clone, Copy, Debug, PartialEq, Eq)]
pub enum Goal {
    Ty,
    Tm(E),
    EqTy(E, E),
    EqTm(E, E, E),
}

/// A thesis: a form under domains.
#[derive(Debug, Drop)]
pub struct Thesis {
    pub domains: Domains,
    pub form: Form,
}

/// A boundary: a goal under domains.
#[derive(Debug, Drop)]
pub struct Boundary {
    pub domains: Domains,
    pub goal: Goal,
}

impl Thesis {
    /// An equal thesis.
    pub fn copy(&self) -> Result<Thesis, Memory>
        ensures { IfOk result (λ x. x ≡ self.now) }
    {
        Ok(Thesis {
            domains: self.domains.copy()?,
            form: self.form,
        })
    }
}

impl Boundary {
    /// An equal boundary.
    pub fn copy(&self) -> Result<Boundary, Memory>
        ensures { IfOk result (λ b. b ≡ self.now) }
    {
        Ok(Boundary {
            domains: self.domains.copy()?,
            goal: self.goal,
        })
    }
}

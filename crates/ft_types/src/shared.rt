//! Types that stand by themselves, outside a scope.

ghost use Rattle.std.specs.Prelude.{◌≡◌, ◌<◌, length, IfOk};
ghost use Rattle.ft_types.specs.declared.types.KnownType.TheVariants.{Compound};
ghost use Rattle.ft_types.specs.Types.{type_in, type_at, types_of, Below, FitsBelow, AllFit};

use crate::types::{KnownType, Row};
use ft_base::Memory;
use std::alloc::Global;
use std::marker::Model;

/// A type with a table of its own, in which equal parts stand once: it takes room for its different
/// parts, however deep it is.
#[derive(Debug, Drop)]
pub struct SharedType {
    rows: Vec<Row>,
    whole: KnownType,
}

impl Model for SharedType {
    ghost use Rattle.std.specs.Prelude.{length};
    ghost use Rattle.ft_types.specs.contracts.types.KnownType as known;
    ghost use Rattle.std.specs.Coded.{codes};
    ghost use Rattle.ft_types.specs.Code.{coded_type};
    ghost use Rattle.ft_types.specs.Types.{TypeInTable, types_of, Below, AllFit};

    ghost Value = { TypeInTable };

    ghost coded = { Prim.hlevel (codes, coded_type, known.the_row.coded) };

    ghost view = { λ s. record { types = types_of s.rows.items; whole = s.whole } };

    ghost invariant = { λ s. AllFit s.rows.items × Below (length s.rows.items) s.whole };
}

impl SharedType {
    /// The type that is known by these rows.
    pub fn new(alloc: Global, rows: &[Row], whole: KnownType) -> Result<SharedType, Memory>
        requires fit { AllFit rows.now }
        requires below { Below (length rows.now) whole }
        ensures { IfOk result (λ s. s ≡ record { types = types_of rows.now; whole = whole }) }
    {
        Ok(SharedType {
            rows: Vec::from_slice(alloc, rows)?,
            whole,
        })
    }

    /// The whole type. It takes no memory.
    #[tactic(auto, using(crate::proofs::Rows::types_len))]
    pub fn whole(&self) -> KnownType
        ensures below { Below (length self.now.types) result }
        ensures whole { result ≡ self.now.whole }
    {
        let _ = &self.rows;
        self.whole
    }

    /// The row of a place. It takes no memory.
    #[tactic(auto, using(crate::proofs::Rows::types_len, crate::proofs::Rows::row_at, crate::proofs::Rows::fits_less))]
    pub fn row(&self, place: u64) -> Row
        requires { place < length self.now.types }
        ensures parts { FitsBelow (length self.now.types) result }
        ensures means { type_at self.now.types result ≡ type_in self.now.types (Compound place) }
    {
        self.rows[place as usize]
    }
}

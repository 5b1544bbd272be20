//! Values, whose parts are shared.

ghost use Rattle.std.specs.Prelude.{◌≡◌, ◌<◌, [], ◌∷◌, ◌++◌, length, option_map};
ghost use Rattle.std.specs.Prelude.{IfOk, IfSome, OnOk, OnErr};
ghost use Rattle.ft_values.specs.Kept.{judgement, boundary, pair, cons, some, judgements_in};
ghost use Rattle.ft_values.specs.Kept.{first_judgement, if_list, found_before};
ghost use Rattle.ft_values.specs.Kept.{judgement_of, boundary_of, truth_of};
ghost use Rattle.ft_values.specs.Kept.{is_unit, is_nil, is_none_value};
ghost use Rattle.ft_values.specs.Kept.{pair_parts, list_parts, option_part};
ghost use Rattle.ft_values.specs.declared.values.Value.TheVariants.{At};
ghost use Rattle.ft_values.specs.Rows.{kept_in, kept_at, Below, FitsBelow, rank};

use ft_base::Memory;
use ft_kernel::{B, J};
use std::alloc::Global;
use std::marker::Model;

/// A value: one that needs no row, or the row of another.
#[derive(Clone, Copy, Debug, PartialEq, Eq, Drop)]
pub enum Value {
    Unit,
    Truth(bool),
    Nil,
    NoneValue,
    At(u64),
}

/// A judgement, a boundary, or a value with parts.
#[derive(Clone, Copy, Debug, PartialEq, Eq)]
pub enum Row {
    Judgement(J),
    Boundary(B),
    Pair(Value, Value),
    Cons(Value, Value),
    SomeValue(Value),
}

/// Values in rows that only grow. The parts of a row stand before it, so that a
/// value is shared wherever it stands, and none is copied.
#[derive(Drop)]
pub struct Values {
    rows: Vec<Row>,
}

impl Model for Values {
    ghost use Rattle.std.specs.Prelude.{List};
    ghost use Rattle.ft_values.specs.Kept.{Kept};
    ghost use Rattle.ft_values.specs.Code.{coded_values};

    ghost Value = { List Kept };

    ghost coded = { coded_values };

    ghost use Rattle.ft_values.specs.Rows.{kept_of, AllFit};

    ghost view = { λ t. kept_of t.rows.items };

    ghost invariant = { λ t. AllFit t.rows.items };
}

impl Values {
    /// No values. It takes no memory.
    pub fn new(alloc: Global) -> Values
        ensures { result ≡ [] }
    {
        Values {
            rows: Vec::new(alloc),
        }
    }

    // The value of a row, which is added. After `Memory` all is as before.
    fn of_row(&mut self, row: Row) -> Result<Value, Memory>
        requires { FitsBelow (length self.old) row }
        ensures below { IfOk result (λ v. Below (length self.new) v) }
        ensures means { IfOk result (λ v. kept_in self.new v ≡ kept_at self.old row) }
        ensures list { OnOk result (self.new ≡ self.old ++ kept_at self.old row ∷ []) }
        ensures err { OnErr result (self.new ≡ self.old) }
    {
        let place = self.rows.len() as u64;
        self.rows.push(row)?;
        Ok(Value::At(place))
    }

    /// A judgement. After `Memory` all is as before.
    pub fn of_judgement(&mut self, j: J) -> Result<Value, Memory>
        ensures below { IfOk result (λ v. Below (length self.new) v) }
        ensures means { IfOk result (λ v. kept_in self.new v ≡ judgement j) }
        ensures list { OnOk result (self.new ≡ self.old ++ judgement j ∷ []) }
        ensures err { OnErr result (self.new ≡ self.old) }
    {
        self.of_row(Row::Judgement(j))
    }

    /// A boundary. After `Memory` all is as before.
    pub fn of_boundary(&mut self, b: B) -> Result<Value, Memory>
        ensures below { IfOk result (λ v. Below (length self.new) v) }
        ensures means { IfOk result (λ v. kept_in self.new v ≡ boundary b) }
        ensures list { OnOk result (self.new ≡ self.old ++ boundary b ∷ []) }
        ensures err { OnErr result (self.new ≡ self.old) }
    {
        self.of_row(Row::Boundary(b))
    }

    /// A pair. After `Memory` all is as before.
    pub fn pair(&mut self, a: Value, b: Value) -> Result<Value, Memory>
        requires { Below (length self.old) a × Below (length self.old) b }
        ensures below { IfOk result (λ v. Below (length self.new) v) }
        ensures means { IfOk result
            (λ v. kept_in self.new v ≡ pair (kept_in self.old a) (kept_in self.old b)) }
        ensures list { OnOk result
            (self.new ≡ self.old ++ pair (kept_in self.old a) (kept_in self.old b) ∷ []) }
        ensures err { OnErr result (self.new ≡ self.old) }
    {
        self.of_row(Row::Pair(a, b))
    }

    /// A list with this first member and this rest. After `Memory` all is as before.
    pub fn cons(&mut self, first: Value, rest: Value) -> Result<Value, Memory>
        requires { Below (length self.old) first × Below (length self.old) rest }
        ensures below { IfOk result (λ v. Below (length self.new) v) }
        ensures means { IfOk result
            (λ v. kept_in self.new v ≡ cons (kept_in self.old first) (kept_in self.old rest)) }
        ensures list { OnOk result
            (self.new ≡ self.old ++ cons (kept_in self.old first) (kept_in self.old rest) ∷ []) }
        ensures err { OnErr result (self.new ≡ self.old) }
    {
        self.of_row(Row::Cons(first, rest))
    }

    /// The option that holds this. After `Memory` all is as before.
    pub fn some(&mut self, a: Value) -> Result<Value, Memory>
        requires { Below (length self.old) a }
        ensures below { IfOk result (λ v. Below (length self.new) v) }
        ensures means { IfOk result (λ v. kept_in self.new v ≡ some (kept_in self.old a)) }
        ensures list { OnOk result (self.new ≡ self.old ++ some (kept_in self.old a) ∷ []) }
        ensures err { OnErr result (self.new ≡ self.old) }
    {
        self.of_row(Row::SomeValue(a))
    }

    /// The row of a place. It takes no memory.
    #[tactic(auto, using(crate::proofs::Rows::kept_len))]
    pub fn row(&self, place: u64) -> Row
        requires { place < length self.now }
        ensures parts { FitsBelow place result }
        ensures means { kept_at self.now result ≡ kept_in self.now (At place) }
    {
        self.rows[place as usize]
    }

    /// The judgement that the value is, where it is one. It takes no memory.
    pub fn judgement(&self, v: Value) -> Option<J>
        requires { Below (length self.now) v }
        ensures { result ≡ judgement_of (kept_in self.now v) }
    {
        match v {
            Value::At(place) => match self.row(place) {
                Row::Judgement(j) => Some(j),
                Row::Boundary(_) | Row::Pair(..) | Row::Cons(..) | Row::SomeValue(_) => None,
            },
            _ => None,
        }
    }

    /// The boundary that the value is, where it is one. It takes no memory.
    pub fn boundary(&self, v: Value) -> Option<B>
        requires { Below (length self.now) v }
        ensures { result ≡ boundary_of (kept_in self.now v) }
    {
        match v {
            Value::At(place) => match self.row(place) {
                Row::Boundary(b) => Some(b),
                Row::Judgement(_) | Row::Pair(..) | Row::Cons(..) | Row::SomeValue(_) => None,
            },
            _ => None,
        }
    }

    /// The truth value that the value is, where it is one. It takes no memory.
    #[tactic(auto, using(crate::proofs::Readers::row_no_truth))]
    pub fn truth(&self, v: Value) -> Option<bool>
        requires { Below (length self.now) v }
        ensures { result ≡ truth_of (kept_in self.now v) }
    {
        match v {
            Value::Truth(b) => Some(b),
            Value::At(place) => {
                let _row = self.row(place);
                None
            }
            _ => None,
        }
    }

    /// Whether it is the unit. It takes no memory.
    #[tactic(auto, using(crate::proofs::Readers::row_no_unit))]
    pub fn is_unit(&self, v: Value) -> bool
        requires { Below (length self.now) v }
        ensures { result ≡ is_unit (kept_in self.now v) }
    {
        match v {
            Value::Unit => true,
            Value::At(place) => {
                let _row = self.row(place);
                false
            }
            _ => false,
        }
    }

    /// Whether it is the list without members. It takes no memory.
    #[tactic(auto, using(crate::proofs::Readers::row_no_nil))]
    pub fn is_nil(&self, v: Value) -> bool
        requires { Below (length self.now) v }
        ensures { result ≡ is_nil (kept_in self.now v) }
    {
        match v {
            Value::Nil => true,
            Value::At(place) => {
                let _row = self.row(place);
                false
            }
            _ => false,
        }
    }

    /// Whether it is the option that holds nothing. It takes no memory.
    #[tactic(auto, using(crate::proofs::Readers::row_no_none))]
    pub fn is_none(&self, v: Value) -> bool
        requires { Below (length self.now) v }
        ensures { result ≡ is_none_value (kept_in self.now v) }
    {
        match v {
            Value::NoneValue => true,
            Value::At(place) => {
                let _row = self.row(place);
                false
            }
            _ => false,
        }
    }

    /// The parts of a pair, where it is one. It takes no memory.
    #[tactic(auto, using(crate::proofs::Rows::below_less, crate::proofs::Rows::fits_less))]
    pub fn pair_parts(&self, v: Value) -> Option<(Value, Value)>
        requires { Below (length self.now) v }
        ensures below { IfSome result
            (λ p. Below (length self.now) p.0 × Below (length self.now) p.1) }
        ensures means { option_map (λ p. (kept_in self.now p.0, kept_in self.now p.1)) result
            ≡ pair_parts (kept_in self.now v) }
    {
        match v {
            Value::At(place) => match self.row(place) {
                Row::Pair(a, b) => Some((a, b)),
                Row::Judgement(_) | Row::Boundary(_) | Row::Cons(..) | Row::SomeValue(_) => None,
            },
            _ => None,
        }
    }

    /// The first member of a list and the rest, where it has members. It takes no memory.
    #[tactic(auto, using(crate::proofs::Rows::below_less, crate::proofs::Rows::fits_less, crate::proofs::Rows::rank_less))]
    pub fn list_parts(&self, v: Value) -> Option<(Value, Value)>
        requires { Below (length self.now) v }
        ensures below { IfSome result
            (λ p. Below (length self.now) p.0 × Below (length self.now) p.1) }
        ensures before { IfSome result (λ p. rank p.1 < rank v) }
        ensures means { option_map (λ p. (kept_in self.now p.0, kept_in self.now p.1)) result
            ≡ list_parts (kept_in self.now v) }
    {
        match v {
            Value::At(place) => match self.row(place) {
                Row::Cons(a, b) => Some((a, b)),
                Row::Judgement(_) | Row::Boundary(_) | Row::Pair(..) | Row::SomeValue(_) => None,
            },
            _ => None,
        }
    }

    /// What an option holds, where it is one that holds something. It takes no memory.
    #[tactic(auto, using(crate::proofs::Rows::below_less, crate::proofs::Rows::fits_less))]
    pub fn option_part(&self, v: Value) -> Option<Value>
        requires { Below (length self.now) v }
        ensures below { IfSome result (λ a. Below (length self.now) a) }
        ensures means { option_map (kept_in self.now) result ≡ option_part (kept_in self.now v) }
    {
        match v {
            Value::At(place) => match self.row(place) {
                Row::SomeValue(a) => Some(a),
                Row::Judgement(_) | Row::Boundary(_) | Row::Pair(..) | Row::Cons(..) => None,
            },
            _ => None,
        }
    }

    // The first member of a list and its rest, where it is a list whose first member is a
    // judgement.
    fn first(&self, v: Value) -> Option<(J, Value)>
        requires { Below (length self.now) v }
        ensures below { IfSome result (λ p. Below (length self.now) p.1) }
        ensures falls { IfSome result (λ p. rank p.1 < rank v) }
        ensures means { option_map (λ p. (p.0, kept_in self.now p.1)) result
            ≡ first_judgement (kept_in self.now v) }
    {
        match self.list_parts(v) {
            Some((member, rest)) => match self.judgement(member) {
                Some(j) => Some((j, rest)),
                None => None,
            },
            None => None,
        }
    }

    // The same, and whether it is the list without members.
    fn first_or_end(&self, v: Value) -> (Option<(J, Value)>, bool)
        requires { Below (length self.now) v }
        ensures below { IfSome result.0 (λ p. Below (length self.now) p.1) }
        ensures falls { IfSome result.0 (λ p. rank p.1 < rank v) }
        ensures means { option_map (λ p. (p.0, kept_in self.now p.1)) result.0
            ≡ first_judgement (kept_in self.now v) }
        ensures ends { result.1 ≡ is_nil (kept_in self.now v) }
    {
        (self.first(v), self.is_nil(v))
    }

    /// Puts the members of a list of judgements after those found so far, and answers whether it is
    /// such a list.
    #[tactic(auto, using(crate::proofs::Members::members_more, crate::proofs::Members::members_end))]
    pub fn judgements(&self, v: Value, found: &mut Vec<J>) -> Result<bool, Memory>
        requires { Below (length self.now) v }
        ensures { IfOk result
            (λ b. if_list b found.new.items
            ≡ found_before found.old.items (judgements_in (kept_in self.now v))) }
    {
        let mut rest = v;
        'reading: loop {
            let (first, ends) = self.first_or_end(rest);
            match first {
                Some((j, others)) => {
                    found.push(j)?;
                    rest = others;
                }
                None => return Ok(ends),
            }
        }
    }
}

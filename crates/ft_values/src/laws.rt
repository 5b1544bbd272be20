//! What holds of values while the list of items and the table grow.

ghost use Rattle.std.specs.Prelude.{◌≡◌, ◌++◌, length, List, map, option_map};
ghost use Rattle.ft_kernel.specs.State.{State};
ghost use Rattle.ft_meaning.specs.Values.{the, as_judgements, State as Running};
ghost use Rattle.ft_items.specs.Item.{Name};
ghost use Rattle.ft_values.specs.declared.scopes.Scope.{Scope};
ghost use Rattle.ft_values.specs.declared.values.Value.{Value};
ghost use Rattle.ft_values.specs.Kept.{Kept, value_of, stated_at, judgements_in, IsOver, HasMore};
ghost use Rattle.ft_values.specs.Rows.{kept_in, Below};
ghost use Rattle.ft_values.specs.Scopes.{names_in, IsScopeOf};

/// A value stays the same when items are added to the list, and when rows are added to the table.
pub fn values_stay()
    ensures items { (s t : State) (k : Kept) → HasMore s t → IsOver s k
        → value_of t k ≡ value_of s k }
    ensures over { (s t : State) (k : Kept) → HasMore s t → IsOver s k → IsOver t k }
    ensures rows { (ks more : List Kept) (v : Value) → Below (length ks) v
        → kept_in (ks ++ more) v ≡ kept_in ks v }
{}

/// The names of a scope stay the same when rows are added, and the scope stays one of the rows.
pub fn scopes_stay()
    ensures names { (es more : List (List (Name × Value))) (s : Scope) → IsScopeOf (length es) s
        → names_in (es ++ more) s ≡ names_in es s }
    ensures scope { (es more : List (List (Name × Value))) (s : Scope) → IsScopeOf (length es) s
        → IsScopeOf (length (es ++ more)) s }
{}

/// The tokens of a list of judgements are those of its members. Another value has none, and is no
/// such list.
pub fn members_are()
    ensures { (s : State) (k : Kept) (t : Running)
        → as_judgements (value_of s k) t
        ≡ the (option_map (map (stated_at s)) (judgements_in k)) t }
{}

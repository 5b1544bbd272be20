//! What holds of each list, over the definitions alone.

ghost use Rattle.std.specs.Prelude.{◌≡◌, ℕ, Some, List};
ghost use Rattle.ft_items.specs.Item.{Name, Item as AnyItem};
ghost use Rattle.ft_items.specs.Store.{Assertion, nth, variables_in, metavariables_in, rules_in};
ghost use Rattle.ft_kernel.specs.State.{State, with_item, entry_at, variable_numbered};

/// What a token names stays there, as it is, when an item is added.
pub fn tokens_stay()
    ensures entry { (s : State) (i : AnyItem) (n : ℕ) (a : Assertion) → entry_at s n ≡ Some a → entry_at (with_item s i) n ≡ Some a }
    ensures variable { (s : State) (i : AnyItem) (v : ℕ) (x : Name × ℕ) → variable_numbered (variables_in s.items) v ≡ Some x → variable_numbered (variables_in (with_item s i).items) v ≡ Some x }
    ensures metavariable { (s : State) (i : AnyItem) (m : ℕ) (x : Name × ℕ) → nth (metavariables_in s.items) m ≡ Some x → nth (metavariables_in (with_item s i).items) m ≡ Some x }
    ensures rule { (s : State) (i : AnyItem) (r : ℕ) (x : Name × List ℕ × ℕ) → nth (rules_in s.items) r ≡ Some x → nth (rules_in (with_item s i).items) r ≡ Some x }
{}

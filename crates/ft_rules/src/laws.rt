//! What holds of each draft, over the definitions alone.

ghost use Rattle.std.specs.Prelude.{◌≡◌, List, ◌++◌};
ghost use Rattle.ft_items.specs.Item.{Item};
ghost use Rattle.ft_rules.specs.Drafts.{Drafted, IsDraftOver, draft_in};

/// A draft stays one as the list goes on, by whatever items, and stands for the same draft.
pub fn drafts_stay()
    ensures draft { (items more : List Item) (d : Drafted) → IsDraftOver items d →
        IsDraftOver (items ++ more) d }
    ensures same { (items more : List Item) (d : Drafted) → IsDraftOver items d →
        draft_in (items ++ more) d ≡ draft_in items d }
{}

//! Which rows have a mark.

ghost use Rattle.std.specs.Prelude.{◌≡◌, ◌<◌, ◌%◌, ◌++◌, ◌∷◌, [], length, Some, IfSome, IfOk, OnOk, OnErr, IsTrue, ◌↔◌};
ghost use Rattle.ft_syntax.specs.Chains.{HasMark, IsLast, InBucket, AreLinked, AreChained, after, marks_of, earlier_of};

use ft_base::limits::MAX_CHAIN;
use std::alloc::{AllocError, Global};
use std::marker::Model;

// A row's mark, where it has one, and the earlier row of its bucket.
#[derive(Clone, Copy)]
pub struct Link {
    mark: Option<u64>,
    earlier: Option<usize>,
}

/// The marks of the rows, in order. A row may have none.
#[derive(Drop)]
pub struct Index {
    heads: Vec<Option<usize>>,
    links: Vec<Link>,
}

impl Model for Index {
    ghost use Rattle.std.specs.Prelude.{List, ℕ, Option};
    ghost use Rattle.ft_syntax.specs.Chains.{AreChained, marks_of, earlier_of};

    ghost Value = { List (Option ℕ) };

    ghost view = { λ i. marks_of i.links.items };

    ghost invariant = { λ i. AreChained i.heads.items (marks_of i.links.items) (earlier_of i.links.items) };
}

impl Index {
    /// No rows. It takes no memory.
    #[tactic(auto, using(crate::proofs::Chained::chained_none))]
    pub fn new(alloc: Global) -> Index
        ensures { result ≡ [] }
    {
        Index {
            heads: Vec::new(alloc),
            links: Vec::new(alloc),
        }
    }

    /// The last row of this mark. It takes no memory.
    #[tactic(auto, using(crate::proofs::Chained::last_of_none, crate::proofs::Chained::head_there, crate::proofs::Chained::last_from_head))]
    pub fn last(&self, mark: u64) -> Option<usize>
        ensures { IsLast (HasMark self.now mark) (length self.now) result }
    {
        let buckets = self.heads.len();
        if buckets == 0 {
            return None;
        }
        let head = self.heads[bucket_of(mark, buckets)];
        marked(&self.links, buckets, head, mark)
    }

    /// The last row of this mark before one of its rows. It takes no memory.
    #[tactic(auto, using(crate::proofs::Chained::mark_within, crate::proofs::Chained::earlier_there, crate::proofs::Chained::last_from_earlier))]
    pub fn before(&self, place: usize, mark: u64) -> Option<usize>
        requires { HasMark self.now mark place }
        ensures { IsLast (HasMark self.now mark) place result }
    {
        marked(
            &self.links,
            self.heads.len(),
            self.links[place].earlier,
            mark,
        )
    }

    /// Whether the bucket of this mark has as many rows as may be compared. It takes no memory.
    pub fn is_crowded(&self, mark: u64) -> bool {
        let buckets = self.heads.len();
        if buckets == 0 {
            return false;
        }
        let mut at = self.heads[bucket_of(mark, buckets)];
        for _ in 0..MAX_CHAIN {
            at = match at {
                None => return false,
                Some(place) => self.earlier(place),
            };
        }
        true
    }

    // The earlier row of a row's bucket.
    fn earlier(&self, place: usize) -> Option<usize> {
        match self.links.get(place) {
            None => None,
            Some(link) => link.earlier,
        }
    }

    /// Adds a row's mark, or that it has none. After `AllocError` all is as before.
    pub fn note(&mut self, mark: Option<u64>) -> Result<(), AllocError>
        ensures ok { OnOk result (self.new ≡ self.old ++ mark ∷ []) }
        ensures err { OnErr result (self.new ≡ self.old) }
    {
        if self.links.len() < self.heads.len() {
            return chain(&mut self.heads, &mut self.links, mark);
        }
        let (mut heads, mut links) = chained_anew(*self.links.allocator(), &self.links)?;
        chain(&mut heads, &mut links, mark)?;
        self.heads = heads;
        self.links = links;
        Ok(())
    }
}

// Heads and links of the same rows, with at least twice as many buckets.
#[tactic(auto, using(crate::proofs::Chained::relink_start, crate::proofs::Chained::relink_more, crate::proofs::Chained::relinked_all))]
fn chained_anew(alloc: Global, old: &[Link]) -> Result<(Vec<Option<usize>>, Vec<Link>), AllocError>
    ensures some { IfOk result (λ r. 0 < length r.0.items) }
    ensures marks { IfOk result (λ r. marks_of r.1.items ≡ marks_of old.now) }
    ensures chained { IfOk result (λ r. AreChained r.0.items (marks_of r.1.items) (earlier_of r.1.items)) }
{
    let mut heads = vec![in alloc; None; old.len().saturating_mul(2).max(64)]?;
    let mut links = Vec::new(alloc);
    for link in old {
        chain(&mut heads, &mut links, link.mark)?;
    }
    Ok((heads, links))
}

// The bucket of a mark.
fn bucket_of(mark: u64, buckets: usize) -> usize
    requires { 0 < buckets }
    ensures is { result ≡ mark % buckets }
    ensures within { result < buckets }
{
    (mark % buckets as u64) as usize
}

// The last row of this mark, from a row of its bucket on.
#[tactic(auto, using(crate::proofs::Chained::walk_start, crate::proofs::Chained::walk_within, crate::proofs::Chained::walk_found, crate::proofs::Chained::walk_more, crate::proofs::Chained::walk_end))]
fn marked(links: &[Link], buckets: usize, from: Option<usize>, mark: u64) -> Option<usize>
    requires linked { AreLinked (marks_of links.now) (earlier_of links.now) buckets }
    requires from { IfSome from (InBucket (marks_of links.now) buckets (mark % buckets)) }
    ensures { IsLast (HasMark (marks_of links.now) mark) (after from) result }
{
    let mut at = from;
    'walking: while let Some(place) = at {
        let link = links[place];
        if has_mark(link, mark) {
            return Some(place);
        }
        at = link.earlier;
    }
    None
}

// Whether a row has this mark.
fn has_mark(link: Link, mark: u64) -> bool
    ensures { IsTrue result ↔ (link.mark ≡ Some mark) }
{
    link.mark == Some(mark)
}

// Adds a row to the chain of its bucket.
#[tactic(auto, using(crate::proofs::Chained::chained_unmarked, crate::proofs::Chained::chained_marked, crate::proofs::Chained::marks_more))]
fn chain(
    heads: &mut Vec<Option<usize>>,
    links: &mut Vec<Link>,
    mark: Option<u64>,
) -> Result<(), AllocError>
    requires some { 0 < length heads.old.items }
    requires chained { AreChained heads.old.items (marks_of links.old.items) (earlier_of links.old.items) }
    ensures length { length heads.new.items ≡ length heads.old.items }
    ensures chained { AreChained heads.new.items (marks_of links.new.items) (earlier_of links.new.items) }
    ensures ok { OnOk result (marks_of links.new.items ≡ marks_of links.old.items ++ mark ∷ []) }
    ensures err { OnErr result (marks_of links.new.items ≡ marks_of links.old.items) }
{
    let Some(number) = mark else {
        links.push(Link {
            mark: None,
            earlier: None,
        })?;
        return Ok(());
    };
    let place = links.len();
    let bucket = bucket_of(number, heads.len());
    links.push(Link {
        mark,
        earlier: heads[bucket],
    })?;
    heads[bucket] = Some(place);
    Ok(())
}

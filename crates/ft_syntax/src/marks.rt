//! The mark and the spelling of a node with its arguments.

ghost use Rattle.std.specs.Prelude.{◌≡◌, ◌<◌, ◌^◌, IfOk};
ghost use Rattle.ft_syntax.specs.Chains.{mixed, mark, body_number, has_body, node_tag, node_number, spelled};

use crate::syntax::{Arg, E, Node};
use std::alloc::{AllocError, Global};

const MULTIPLIER: u64 = 0x9E37_79B9_7F4A_7C15;

/// A mark: the same for the same, and seldom the same for others.
#[tactic(auto, using(crate::proofs::Spelling::mark_more, crate::proofs::Spelling::mark_end))]
pub fn mark_of(node: Node, args: &[Arg]) -> u64
    ensures { result ≡ mark node args.now }
{
    let mut mark = mixed(tag_of(node), number_of(node));
    for arg in args {
        mark = mixed(mixed(mark, arg.binders), number_of_body(arg.body));
    }
    mark
}

/// The numbers that spell a node with its arguments: the same for no other.
#[tactic(auto, using(crate::proofs::Spelling::spelled_more, crate::proofs::Spelling::spelled_end))]
pub fn spelling_of(alloc: Global, node: Node, args: &[Arg]) -> Result<Vec<u64>, AllocError>
    ensures { IfOk result (λ r. r.items ≡ spelled node args.now) }
{
    let mut words = Vec::new(alloc);
    words.push(tag_of(node))?;
    words.push(number_of(node))?;
    for arg in args {
        words.push(arg.binders)?;
        words.push(flag_of_body(arg.body))?;
        words.push(number_of_body(arg.body))?;
    }
    Ok(words)
}

// The mark with one more part in it.
#[tactic(auto, unfolding(crate::specs::Chains::mixed))]
fn mixed(mark: u64, part: u64) -> u64
    ensures { result ≡ mixed mark part }
{
    let product = (mark ^ part).wrapping_mul(MULTIPLIER);
    product ^ (product >> 32)
}

fn tag_of(node: Node) -> u64
    ensures { result ≡ node_tag node }
{
    match node {
        Node::Bound(_) => 1,
        Node::Free(_) => 2,
        Node::Sym(_) => 3,
        Node::Meta(_) => 4,
    }
}

fn number_of(node: Node) -> u64
    ensures { result ≡ node_number node }
{
    match node {
        Node::Bound(i) => i,
        Node::Free(v) => v,
        Node::Sym(s) => s,
        Node::Meta(m) => m,
    }
}

fn number_of_body(body: Option<E>) -> u64
    ensures { result ≡ body_number body }
{
    match body {
        None => u64::MAX,
        Some(e) => e.number(),
    }
}

fn flag_of_body(body: Option<E>) -> u64
    ensures { result ≡ has_body body }
{
    match body {
        None => 0,
        Some(_) => 1,
    }
}

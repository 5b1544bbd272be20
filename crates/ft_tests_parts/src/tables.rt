//! Tables of expressions.

use ft_syntax::{Arg, Instance, Pairs, SynFault, Terms};
use std::test::Fail;

#[test]
#[tactic(auto, using(ft_syntax::specs::Laws::length_extends))]
fn a_variable_is_opened_and_closed(rt: HostRuntime) -> Result<(), Fail> {
    let mut t = Terms::new(rt.alloc());
    let variable = t.free(7)?;
    let zero = t.bound(0)?;
    let open = t.symbol(
        1,
        &[Arg {
            binders: 0,
            body: Some(zero),
        }],
    )?;
    let want = t.symbol(
        1,
        &[Arg {
            binders: 0,
            body: Some(variable),
        }],
    )?;
    let opened = t.open_bound(open, 0, variable)?;
    assert!(rt; t.equal_expr(opened, want));
    let closed = t.close_free(opened, 0, 7)?;
    assert!(rt; t.equal_expr(closed, open));
    Ok(())
}

#[test]
#[tactic(auto, using(ft_syntax::specs::Laws::length_extends))]
fn a_free_variable_is_replaced_below_a_binder(rt: HostRuntime) -> Result<(), Fail> {
    let mut t = Terms::new(rt.alloc());
    let old = t.free(2)?;
    let new = t.free(3)?;
    let e = t.symbol(
        0,
        &[Arg {
            binders: 1,
            body: Some(old),
        }],
    )?;
    let want = t.symbol(
        0,
        &[Arg {
            binders: 1,
            body: Some(new),
        }],
    )?;
    let replaced = t.replace(e, 2, new)?;
    assert!(rt; t.equal_expr(replaced, want));
    assert!(rt; !t.equal_expr(replaced, e));
    Ok(())
}

#[test]
#[tactic(auto, using(ft_syntax::specs::Laws::length_extends))]
fn a_term_passes_the_binders_of_a_body(rt: HostRuntime) -> Result<(), Fail> {
    let mut t = Terms::new(rt.alloc());
    let term = t.bound(4)?;
    let e = t.meta(9, &[term])?;
    let variable = t.bound(1)?;
    let body = t.symbol(
        2,
        &[Arg {
            binders: 1,
            body: Some(variable),
        }],
    )?;
    let mut pairs = Pairs::new(rt.alloc());
    pairs.push((
        9,
        Arg {
            binders: 1,
            body: Some(body),
        },
    ))?;
    let instance = Instance { pairs };
    let put = t.instantiate(e, &instance)?;
    let raised = t.bound(5)?;
    let want = t.symbol(
        2,
        &[Arg {
            binders: 1,
            body: Some(raised),
        }],
    )?;
    assert!(rt; t.equal_expr(put, want));
    Ok(())
}

#[test]
#[tactic(auto, using(ft_syntax::specs::Laws::length_extends))]
fn a_copy_is_the_same_expression(rt: HostRuntime) -> Result<(), Fail> {
    let mut from = Terms::new(rt.alloc());
    let variable = from.free(5)?;
    let e = from.symbol(
        3,
        &[
            Arg {
                binders: 2,
                body: Some(variable),
            },
            Arg {
                binders: 1,
                body: None,
            },
        ],
    )?;
    let mut t = Terms::new(rt.alloc());
    let copy = t.copy_from(&from, e)?;
    let five = t.free(5)?;
    let want = t.symbol(
        3,
        &[
            Arg {
                binders: 2,
                body: Some(five),
            },
            Arg {
                binders: 1,
                body: None,
            },
        ],
    )?;
    assert!(rt; t.equal_expr(copy, want));
    Ok(())
}

#[test]
fn the_greatest_number_is_too_big(rt: HostRuntime) -> Result<(), Fail> {
    let mut t = Terms::new(rt.alloc());
    assert!(rt; t.bound(u64::MAX) == Err(SynFault::TooBig));
    assert!(rt; t.bound(u64::MAX - 1).is_ok());
    Ok(())
}

#[test]
#[tactic(auto, using(ft_syntax::specs::Laws::length_extends))]
fn what_was_formed_last_is_formed_once(rt: HostRuntime) -> Result<(), Fail> {
    let mut t = Terms::new(rt.alloc());
    let zero = t.symbol(1, &[])?;
    let again = t.symbol(1, &[])?;
    assert!(rt; zero == again);
    let variable = t.free(7)?;
    let other = t.bound(7)?;
    assert!(rt; t.free(7)? == variable);
    assert!(rt; variable != other);
    let one = t.meta(2, &[zero])?;
    assert!(rt; t.meta(2, &[again])? == one);
    assert!(rt; t.meta(3, &[zero])? != one);
    Ok(())
}

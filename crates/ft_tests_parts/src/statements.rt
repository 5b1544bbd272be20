//! Theses and boundaries over a table.

use ft_judge::{
    Boundary, Differ, Domains, Form, Goal, Refusal, Thesis, boundary_of, close_over,
    close_over_boundary, fill, fits, head_of, open_first, open_first_boundary,
};
use ft_syntax::{Arg, Terms};
use std::test::Fail;

#[test]
#[tactic(auto, using(ft_syntax::specs::Laws::length_extends))]
fn a_thesis_is_taken_apart_and_filled_again(rt: HostRuntime) -> Result<(), Fail> {
    let mut t = Terms::new(rt.alloc());
    let ty = t.symbol(0, &[])?;
    let term = t.bound(0)?;
    let mut domains = Domains::new(rt.alloc());
    domains.push(ty)?;
    let x = Thesis {
        domains,
        form: Form::Tm(term, ty),
    };
    let b = boundary_of(rt.alloc(), &x.copy()?)?;
    assert!(rt; b.goal == Goal::Tm(ty));
    assert!(rt; b.domains.items() == [ty].as_slice());
    let head = head_of(&x);
    assert!(rt;
        head == Arg {
            binders: 1,
            body: Some(term)
        }
    );
    let filled = fill(rt.alloc(), &t, &b, &head)?;
    assert!(rt; filled.form == Form::Tm(term, ty));
    assert!(rt; fits(&t, &filled, &b).is_ok());
    Ok(())
}

#[test]
#[tactic(auto, using(ft_syntax::specs::Laws::length_extends))]
fn the_type_of_a_term_differs(rt: HostRuntime) -> Result<(), Fail> {
    let mut t = Terms::new(rt.alloc());
    let found = t.symbol(0, &[])?;
    let wanted = t.symbol(1, &[])?;
    let x = Thesis {
        domains: Domains::new(rt.alloc()),
        form: Form::Tm(found, found),
    };
    let b = Boundary {
        domains: Domains::new(rt.alloc()),
        goal: Goal::Tm(wanted),
    };
    assert!(rt;
        fits(&t, &x, &b)
            == Err(Refusal::TypeDiffers(Differ {
                found,
                wanted,
                under: 0
            }))
    );
    Ok(())
}

#[test]
#[tactic(auto, using(ft_syntax::specs::Laws::length_extends))]
fn a_thesis_is_closed_and_opened(rt: HostRuntime) -> Result<(), Fail> {
    let mut t = Terms::new(rt.alloc());
    let ty = t.symbol(0, &[])?;
    let variable = t.free(3)?;
    let bound = t.bound(0)?;
    let x = Thesis {
        domains: Domains::new(rt.alloc()),
        form: Form::Tm(variable, ty),
    };
    let closed = close_over(rt.alloc(), &mut t, &x, 3, ty)?;
    assert!(rt; closed.domains.items().len() == 1);
    let term = head_of(&closed).body.ok_or("no head")?;
    assert!(rt; t.equal_expr(term, bound));
    let opened = open_first(rt.alloc(), &mut t, &closed, variable)?;
    assert!(rt; fits(&t, &opened, &boundary_of(rt.alloc(), &x)?).is_ok());
    Ok(())
}

#[test]
#[tactic(auto, using(ft_syntax::specs::Laws::length_extends))]
fn a_boundary_is_closed_and_opened(rt: HostRuntime) -> Result<(), Fail> {
    let mut t = Terms::new(rt.alloc());
    let ty = t.symbol(0, &[])?;
    let variable = t.free(3)?;
    let b = Boundary {
        domains: Domains::new(rt.alloc()),
        goal: Goal::EqTy(variable, ty),
    };
    let closed = close_over_boundary(rt.alloc(), &mut t, &b, 3, ty)?;
    let copy = closed.copy()?;
    assert!(rt; copy.goal == closed.goal);
    let opened = open_first_boundary(rt.alloc(), &mut t, &copy, variable)?;
    assert!(rt; opened.domains.items().len() == 0);
    Ok(())
}

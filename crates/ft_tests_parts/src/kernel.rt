//! The kernel of a run, and calls of a kernel on expressions.

use ft_applications::read_source;
use ft_base::{Name, Text};
use ft_kernel::Kernel;
use ft_run::{Ending, run};
use ft_syntax::{Arg, Instance, Node, Pairs};
use std::test::Fail;

#[test]
fn a_run_is_kept_in_its_kernel(rt: HostRuntime) -> Result<(), Fail> {
    let alloc = rt.alloc();
    let source = b"rule Nat type rule S (n : Nat) : Nat rule Nat type";
    let commands = read_source(alloc, source.as_slice())?;
    let mut text = Text::new(alloc);
    let ran = run(alloc, commands.as_slice(), &mut text)?;
    assert!(rt; ran.ending == Ending::Twice);
    assert!(rt;
        text.bytes() == b"accepted Nat\naccepted S\nerror rule Nat declared twice\n".as_slice()
    );
    let kernel = ran.session.kernel();
    assert_eq!(rt; kernel.rules(), 2);
    assert_eq!(rt; kernel.next_number(), 0);
    assert!(rt; kernel.rule_numbered(2).is_none());
    assert!(rt; kernel.met_numbered(0).is_some());
    assert!(rt; kernel.var_numbered(0).is_none());
    for (name, number) in [("Nat", Some(0)), ("S", Some(1)), ("n", None)] {
        let name = Name::new(alloc, name)?.ok_or("no name")?;
        assert_eq!(rt; kernel.rule_named(&name).map(|r| r.number()), number);
    }
    Ok(())
}

#[test]
fn the_table_goes_on(rt: HostRuntime) -> Result<(), Fail> {
    let mut kernel = Kernel::new(rt.alloc());
    let x = kernel.free(7)?;
    let closed = kernel.close_free(x, 0, 7)?;
    assert_eq!(rt; kernel.terms().node(closed), Node::Bound(0));
    let y = kernel.free(8)?;
    let opened = kernel.open_bound(closed, 0, y)?;
    assert_eq!(rt; kernel.terms().node(opened), Node::Free(8));
    let replaced = kernel.replace(x, 7, y)?;
    assert_eq!(rt; kernel.terms().node(replaced), Node::Free(8));
    let i = kernel.bound(2)?;
    assert_eq!(rt; kernel.terms().node(i), Node::Bound(2));
    let applied = kernel.meta(3, &[i])?;
    assert_eq!(rt; kernel.terms().node(applied), Node::Meta(3));
    Ok(())
}

#[test]
fn a_metavariable_has_its_body(rt: HostRuntime) -> Result<(), Fail> {
    let mut kernel = Kernel::new(rt.alloc());
    let x = kernel.free(7)?;
    let e = kernel.meta(3, &[])?;
    let mut pairs = Pairs::new(rt.alloc());
    pairs.push((
        3,
        Arg {
            binders: 0,
            body: Some(x),
        },
    ))?;
    let instance = Instance { pairs };
    let put = kernel.instantiate(e, &instance)?;
    assert_eq!(rt; kernel.terms().node(put), Node::Free(7));
    Ok(())
}

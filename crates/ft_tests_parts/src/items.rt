//! Items of derivation files: where they stand, and reasons that no file of today has.

use ft_base::{Memory, Name};
use ft_check::{Reject, Verdict, check_item, check_items};
use ft_read::{FileFault, read_items};
use ft_stated::{Numbers, StatedItems};
use std::alloc::Global;
use std::test::Fail;

// Ten items, of which the steps of today have only some.
const LOOSE: &str = "andromeda derivation 1
B T [] btype
R Nat ; 0
J T s0() [] rule 0
V 4 x 1
J t v4 s0() [v4] var 4
B e v4 v4 s0() [v4] beqtm 1 2 2
M A 0
J T m0() [m0] generic 0
B t m0() [m0] bterm 4
M a 5
";

// An item after these, and the first reason against it.
const REASONS: [(&str, Option<Reject>); 10] = [
    // The boundary of a metavariable rests on no variable.
    ("M b 3", Some(Reject::Loose)),
    ("M b 5", None),
    // The conclusion of a rule rests on its metavariables alone.
    ("R El 0 ; 5", None),
    ("R El ; 5", Some(Reject::Loose)),
    ("R El 0 ; 3", Some(Reject::Loose)),
    // A metavariable of a rule rests on earlier ones.
    ("R El 0 1 ; 0", None),
    ("R El 1 0 ; 0", Some(Reject::Loose)),
    ("R El 1 ; 0", Some(Reject::Loose)),
    // Numbers of variables rise.
    ("V 4 y 1", Some(Reject::Number)),
    ("V 5 y 1", None),
];

// The reason against the item behind ten others.
fn eleventh_reason(alloc: Global, items: &StatedItems) -> Result<Option<Reject>, Memory> {
    if items.len() < 11 {
        return Ok(None);
    }
    check_item(alloc, items, 10)
}

#[test]
fn each_item_has_its_first_reason(rt: HostRuntime) -> Result<(), Fail> {
    let alloc = rt.alloc();
    for (line, reason) in REASONS {
        let file = format!(in alloc; "{LOOSE}{line}\nend\n")?;
        let items = read_items(alloc, file.as_bytes())?;
        assert_eq!(rt; items.len(), 11, "{line}");
        assert_eq!(rt; eleventh_reason(alloc, &items)?, reason, "{line}");
    }
    Ok(())
}

#[test]
fn a_list_has_its_verdict(rt: HostRuntime) -> Result<(), Fail> {
    let file = "andromeda derivation 1\nB T [] btype\nR Nat ; 0\nR Nat ; 0\nend\n";
    let items = read_items(rt.alloc(), file.as_bytes())?;
    let rejected = Verdict::Rejected {
        item: 2,
        why: Reject::Name,
    };
    assert_eq!(rt; check_items(rt.alloc(), &items)?, rejected);
    Ok(())
}

// Items of which several have one number or one name.
const PLACES: &str = "andromeda derivation 1
B T [] btype
V 3 x 0
R a ; 0
V 1 x 0
V 3 x 0
R a ; 0
R b ; 0
V 8 x 0
M n 0
B T [] btype
W 1
end
";

#[test]
fn the_first_of_a_number_or_a_name_is_found(rt: HostRuntime) -> Result<(), Fail> {
    let items = read_items(rt.alloc(), PLACES.as_bytes())?;
    assert_eq!(rt; items.len(), 11);
    for (number, place) in [(3, Some(1)), (1, Some(3)), (8, Some(7)), (2, None)] {
        assert_eq!(rt; items.var_place(number), place, "{number}");
    }
    for (number, entry, rule, met) in [
        (0, Some(0), Some(2), Some(8)),
        (1, Some(9), Some(5), None),
        (2, None, Some(6), None),
        (3, None, None, None),
    ] {
        assert_eq!(rt; items.entry_place(number), entry, "{number}");
        assert_eq!(rt; items.rule_place(number), rule, "{number}");
        assert_eq!(rt; items.met_place(number), met, "{number}");
    }
    for (place, greatest) in [
        (1, None),
        (2, Some(3)),
        (4, Some(3)),
        (7, Some(3)),
        (8, Some(8)),
    ] {
        assert_eq!(rt; items.greatest_before(place), greatest, "{place}");
    }
    Ok(())
}

#[test]
fn the_first_rule_of_a_name_is_found(rt: HostRuntime) -> Result<(), Fail> {
    let items = read_items(rt.alloc(), PLACES.as_bytes())?;
    for (text, place) in [("a", Some(2)), ("b", Some(6)), ("x", None)] {
        let name = Name::new(rt.alloc(), text)?.ok_or("no name")?;
        assert_eq!(rt; items.name_place(&name), place, "{text}");
    }
    Ok(())
}

#[test]
fn numbers_stand_in_the_order_of_pushing(rt: HostRuntime) -> Result<(), Fail> {
    let mut numbers = Numbers::new(rt.alloc());
    numbers.push(7)?;
    numbers.push(3)?;
    assert_eq!(rt; numbers.items(), [7, 3].as_slice());
    Ok(())
}

#[test]
fn a_fault_names_its_line(rt: HostRuntime) -> Result<(), Fail> {
    let form = format!(in rt.alloc(); "{}", FileFault::Form(7))?;
    assert_eq!(rt; form.as_str(), "line 7 is not of the form");
    let version = format!(in rt.alloc(); "{}", FileFault::Version(1))?;
    assert_eq!(rt; version.as_str(), "line 1 is of another version");
    Ok(())
}

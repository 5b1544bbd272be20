//! Names, words, texts, units and sequences.

use ft_base::{Name, Sequence, Text, Units, Word};
use std::collections::HashMap;
use std::test::Fail;

#[test]
fn a_name_is_a_name_token(rt: HostRuntime) -> Result<(), Fail> {
    let cases = [
        ("Nat", true),
        ("_x", true),
        ("__", true),
        ("x_1", true),
        ("ruler", true),
        ("Rule", true),
        ("été", true),
        ("", false),
        ("_", false),
        ("1x", false),
        ("a b", false),
        ("a'", false),
        ("rule", false),
        ("congruence", false),
        ("derive", false),
    ];
    for (text, wanted) in cases {
        assert_eq!(rt; Name::new(rt.alloc(), text)?.is_some(), wanted, "{text}");
    }
    Ok(())
}

#[test]
fn names_are_compared_by_their_characters(rt: HostRuntime) -> Result<(), Fail> {
    let name = Name::new(rt.alloc(), "né")?.ok_or("no name")?;
    assert!(rt; name.chars() == ['n', 'é'].as_slice());
    let same = Name::from_chars(name.chars().to_vec(rt.alloc())?);
    assert!(rt; same == Some(name.copy()?));
    let other = Name::new(rt.alloc(), "nf")?.ok_or("no name")?;
    assert!(rt; other != name);
    let mut numbers: HashMap<Name, u64> = HashMap::new(rt.alloc());
    numbers.insert(name.copy()?, 7)?;
    assert!(rt; numbers.get(&name).copied() == Some(7));
    assert!(rt; numbers.get(&other).is_none());
    Ok(())
}

#[test]
fn a_text_is_what_was_pushed(rt: HostRuntime) -> Result<(), Fail> {
    let mut text = Text::new(rt.alloc());
    text.push(b"a ")?;
    text.push_str("né ")?;
    text.push_chars(['é', '€', '𝒯'].as_slice())?;
    text.push_number(0)?;
    text.push_number(18_446_744_073_709_551_615)?;
    let wanted = "a né é€𝒯018446744073709551615".as_bytes();
    assert!(rt; text.bytes() == wanted);
    assert!(rt; text.copy()?.bytes() == wanted);
    Ok(())
}

#[test]
fn units_are_spent_up_to_the_budget(rt: HostRuntime) {
    let mut units = Units::new(2);
    assert!(rt; units.spend());
    assert_eq!(rt; units.used(), 1);
    assert!(rt; units.spend());
    assert!(rt; !units.spend());
    assert_eq!(rt; units.used(), 2);
}

#[test]
fn a_word_is_spelled_by_its_letters(rt: HostRuntime) {
    assert!(rt; Word::of(['b', 'y'].as_slice()) == Some(Word::By));
    assert!(rt; Word::of(['b', 'Y'].as_slice()).is_none());
    assert!(rt; Word::NoneWord.spelling() == b"none".as_slice());
    assert!(rt; Word::Boundaryof.spelling() == b"boundaryof".as_slice());
}

#[test]
fn a_sequence_has_its_values_in_order(rt: HostRuntime) -> Result<(), Fail> {
    let mut numbers: Sequence<u64> = Sequence::new(rt.alloc());
    numbers.push(7)?;
    numbers.push(3)?;
    assert_eq!(rt; numbers.items(), [7, 3].as_slice());
    assert_eq!(rt; numbers.copy()?.items(), [7, 3].as_slice());
    let same = Sequence::of(rt.alloc(), &[7_u64, 3])?;
    assert_eq!(rt; same.items(), [7, 3].as_slice());
    Ok(())
}

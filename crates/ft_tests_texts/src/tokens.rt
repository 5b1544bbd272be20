//! Texts with their tokens.

use ft_lexer::{Kind, Mark, Token, Word, tokens};
use std::process::Abort;
use std::test::Fail;

// A kind, with a name as a text.
#[derive(Clone, Copy, Drop)]
enum Wanted {
    Name(&'static str),
    Number(u64),
    Word(Word),
    Mark(Mark),
    Bad,
    End,
}

fn is_wanted(kind: &Kind, wanted: &Wanted) -> bool {
    match (kind, wanted) {
        (Kind::Name(name), Wanted::Name(text)) => name.chars().iter().copied().eq(text.chars()),
        (Kind::Number(number), Wanted::Number(other)) => *number == *other,
        (Kind::Word(word), Wanted::Word(other)) => *word == *other,
        (Kind::Mark(mark), Wanted::Mark(other)) => *mark == *other,
        (Kind::Bad, Wanted::Bad) => true,
        (Kind::End, Wanted::End) => true,
        _ => false,
    }
}

fn expect_tokens(rt: &impl Abort, text: &str, tokens: &[Token], wanted: &[(Wanted, u64, u64)]) {
    assert_eq!(rt; tokens.len(), wanted.len(), "{text}");
    for (token, (kind, start, end)) in tokens.iter().zip(wanted) {
        assert_eq!(rt; token.start, *start, "{text}");
        assert_eq!(rt; token.end, *end, "{text}");
        assert!(rt; is_wanted(&token.kind, kind), "{text}");
    }
}

// Texts with the kinds of their tokens, and the places where these begin and end.
const TEXTS: [(&str, &[(Wanted, u64, u64)]); 8] = [
    ("", &[(Wanted::End, 0, 0)]),
    (
        "\t\r\n x1\r\n",
        &[(Wanted::Name("x1"), 4, 6), (Wanted::End, 8, 8)],
    ),
    (
        "ruler été 𝒯",
        &[
            (Wanted::Name("ruler"), 0, 5),
            (Wanted::Name("été"), 6, 11),
            (Wanted::Name("𝒯"), 12, 16),
            (Wanted::End, 16, 16),
        ],
    ),
    (
        "_ _x __",
        &[
            (Wanted::Mark(Mark::Underscore), 0, 1),
            (Wanted::Name("_x"), 2, 4),
            (Wanted::Name("__"), 5, 7),
            (Wanted::End, 7, 7),
        ],
    ),
    (
        "0 65535 65536 007 12a",
        &[
            (Wanted::Number(0), 0, 1),
            (Wanted::Number(65_535), 2, 7),
            (Wanted::Bad, 8, 13),
            (Wanted::Bad, 14, 17),
            (Wanted::Number(12), 18, 20),
            (Wanted::Name("a"), 20, 21),
            (Wanted::End, 21, 21),
        ],
    ),
    (
        "€a.->- >",
        &[
            (Wanted::Bad, 0, 3),
            (Wanted::Name("a"), 3, 4),
            (Wanted::Bad, 4, 5),
            (Wanted::Mark(Mark::Arrow), 5, 7),
            (Wanted::Bad, 7, 8),
            (Wanted::Bad, 9, 10),
            (Wanted::End, 10, 10),
        ],
    ),
    (
        "a -- é -- b\nc --",
        &[
            (Wanted::Name("a"), 0, 1),
            (Wanted::Name("c"), 13, 14),
            (Wanted::End, 17, 17),
        ],
    ),
    (
        ":::===",
        &[
            (Wanted::Mark(Mark::DoubleColon), 0, 2),
            (Wanted::Mark(Mark::Colon), 2, 3),
            (Wanted::Mark(Mark::DoubleEquals), 3, 5),
            (Wanted::Mark(Mark::Equals), 5, 6),
            (Wanted::End, 6, 6),
        ],
    ),
];

#[test]
fn each_text_has_its_tokens(rt: HostRuntime) -> Result<(), Fail> {
    for (text, wanted) in TEXTS {
        expect_tokens(&rt, text, &tokens(rt.alloc(), text)?, wanted);
    }
    Ok(())
}

// The marks and the words, each of which is one token.
const SINGLE: [(&str, Wanted); 62] = [
    ("(", Wanted::Mark(Mark::LeftParen)),
    (")", Wanted::Mark(Mark::RightParen)),
    ("{", Wanted::Mark(Mark::LeftBrace)),
    ("}", Wanted::Mark(Mark::RightBrace)),
    (",", Wanted::Mark(Mark::Comma)),
    (":", Wanted::Mark(Mark::Colon)),
    ("::", Wanted::Mark(Mark::DoubleColon)),
    ("=", Wanted::Mark(Mark::Equals)),
    ("==", Wanted::Mark(Mark::DoubleEquals)),
    ("->", Wanted::Mark(Mark::Arrow)),
    ("|", Wanted::Mark(Mark::Bar)),
    ("*", Wanted::Mark(Mark::Star)),
    ("@", Wanted::Mark(Mark::At)),
    ("_", Wanted::Mark(Mark::Underscore)),
    ("rule", Wanted::Word(Word::Rule)),
    ("type", Wanted::Word(Word::TypeWord)),
    ("let", Wanted::Word(Word::Let)),
    ("in", Wanted::Word(Word::In)),
    ("if", Wanted::Word(Word::If)),
    ("then", Wanted::Word(Word::Then)),
    ("else", Wanted::Word(Word::Else)),
    ("match", Wanted::Word(Word::Match)),
    ("with", Wanted::Word(Word::With)),
    ("end", Wanted::Word(Word::End)),
    ("handle", Wanted::Word(Word::Handle)),
    ("val", Wanted::Word(Word::Val)),
    ("perform", Wanted::Word(Word::Perform)),
    ("operation", Wanted::Word(Word::Operation)),
    ("computation", Wanted::Word(Word::Computation)),
    ("extensionality", Wanted::Word(Word::Extensionality)),
    ("show", Wanted::Word(Word::Show)),
    ("by", Wanted::Word(Word::By)),
    ("true", Wanted::Word(Word::TrueWord)),
    ("false", Wanted::Word(Word::FalseWord)),
    ("some", Wanted::Word(Word::SomeWord)),
    ("none", Wanted::Word(Word::NoneWord)),
    ("nil", Wanted::Word(Word::Nil)),
    ("judgement", Wanted::Word(Word::Judgement)),
    ("boundary", Wanted::Word(Word::Boundary)),
    ("unit", Wanted::Word(Word::Unit)),
    ("bool", Wanted::Word(Word::Bool)),
    ("list", Wanted::Word(Word::List)),
    ("option", Wanted::Word(Word::Option)),
    ("refl", Wanted::Word(Word::Refl)),
    ("sym", Wanted::Word(Word::Sym)),
    ("trans", Wanted::Word(Word::Trans)),
    ("convert", Wanted::Word(Word::Convert)),
    ("left", Wanted::Word(Word::Left)),
    ("right", Wanted::Word(Word::Right)),
    ("typeof", Wanted::Word(Word::Typeof)),
    ("domain", Wanted::Word(Word::Domain)),
    ("natural", Wanted::Word(Word::Natural)),
    ("normal", Wanted::Word(Word::Normal)),
    ("boundaryof", Wanted::Word(Word::Boundaryof)),
    ("equal", Wanted::Word(Word::Equal)),
    ("widen", Wanted::Word(Word::Widen)),
    ("rewrite", Wanted::Word(Word::Rewrite)),
    ("fill", Wanted::Word(Word::Fill)),
    ("argument", Wanted::Word(Word::Argument)),
    ("congruence", Wanted::Word(Word::Congruence)),
    ("principal", Wanted::Word(Word::Principal)),
    ("derive", Wanted::Word(Word::Derive)),
];

#[test]
fn each_mark_and_each_word_is_its_token(rt: HostRuntime) -> Result<(), Fail> {
    for (text, kind) in SINGLE {
        let end = text.len() as u64;
        let wanted = [(kind, 0, end), (Wanted::End, end, end)];
        expect_tokens(&rt, text, &tokens(rt.alloc(), text)?, &wanted);
    }
    Ok(())
}

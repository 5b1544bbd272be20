//! The words that are no names.

ghost use Rattle.std.specs.Prelude.{◌≡◌, ◌∷◌, ℕ, List, find};
ghost use Rattle.std.specs.Str.{bytes_eq};
ghost use Rattle.ft_base.specs.Words.{word_of, spelling_of};

/// The words that are no names. Each variant is named by its word, with a capital first letter; those of `type`, `true`, `false`,
/// `some` and `none` have `Word` behind that.
#[derive(Clone, Copy, Debug, PartialEq, Eq, Drop)]
pub enum Word {
    Rule,
    TypeWord,
    Let,
    In,
    If,
    Then,
    Else,
    Match,
    With,
    End,
    Handle,
    Val,
    Perform,
    Operation,
    Computation,
    Extensionality,
    Show,
    By,
    TrueWord,
    FalseWord,
    SomeWord,
    NoneWord,
    Nil,
    Judgement,
    Boundary,
    Unit,
    Bool,
    List,
    Option,
    Refl,
    Sym,
    Trans,
    Convert,
    Left,
    Right,
    Typeof,
    Domain,
    Natural,
    Normal,
    Boundaryof,
    Equal,
    Widen,
    Rewrite,
    Fill,
    Argument,
    Congruence,
    Principal,
    Derive,
}

impl Word {
    /// The characters of the word, all of them letters of ASCII.
    pub fn spelling(self) -> &'static [u8]
        ensures { result.now ≡ spelling_of self }
    {
        match self {
            Word::Rule => b"rule",
            Word::TypeWord => b"type",
            Word::Let => b"let",
            Word::In => b"in",
            Word::If => b"if",
            Word::Then => b"then",
            Word::Else => b"else",
            Word::Match => b"match",
            Word::With => b"with",
            Word::End => b"end",
            Word::Handle => b"handle",
            Word::Val => b"val",
            Word::Perform => b"perform",
            Word::Operation => b"operation",
            Word::Computation => b"computation",
            Word::Extensionality => b"extensionality",
            Word::Show => b"show",
            Word::By => b"by",
            Word::TrueWord => b"true",
            Word::FalseWord => b"false",
            Word::SomeWord => b"some",
            Word::NoneWord => b"none",
            Word::Nil => b"nil",
            Word::Judgement => b"judgement",
            Word::Boundary => b"boundary",
            Word::Unit => b"unit",
            Word::Bool => b"bool",
            Word::List => b"list",
            Word::Option => b"option",
            Word::Refl => b"refl",
            Word::Sym => b"sym",
            Word::Trans => b"trans",
            Word::Convert => b"convert",
            Word::Left => b"left",
            Word::Right => b"right",
            Word::Typeof => b"typeof",
            Word::Domain => b"domain",
            Word::Natural => b"natural",
            Word::Normal => b"normal",
            Word::Boundaryof => b"boundaryof",
            Word::Equal => b"equal",
            Word::Widen => b"widen",
            Word::Rewrite => b"rewrite",
            Word::Fill => b"fill",
            Word::Argument => b"argument",
            Word::Congruence => b"congruence",
            Word::Principal => b"principal",
            Word::Derive => b"derive",
        }
    }

    /// The word that the characters spell, or None where they spell none.
    pub fn of(spelling: &[char]) -> Option<Word>
        ensures { result ≡ word_of spelling.now }
    {
        match spelling {
            [] => None,
            [first, ..] => first_spelled(words_from(*first), spelling),
        }
    }
}

// The words that begin with the letter.
fn words_from(letter: char) -> &'static [Word]
    ensures { (rest : List ℕ) → find (λ w. bytes_eq (spelling_of w) (letter ∷ rest)) result.now ≡ word_of (letter ∷ rest) }
{
    match letter {
        'a' => &[Word::Argument],
        'b' => &[Word::By, Word::Boundary, Word::Bool, Word::Boundaryof],
        'c' => &[Word::Computation, Word::Convert, Word::Congruence],
        'd' => &[Word::Domain, Word::Derive],
        'e' => &[Word::Else, Word::End, Word::Extensionality, Word::Equal],
        'f' => &[Word::FalseWord, Word::Fill],
        'h' => &[Word::Handle],
        'i' => &[Word::In, Word::If],
        'j' => &[Word::Judgement],
        'l' => &[Word::Let, Word::List, Word::Left],
        'm' => &[Word::Match],
        'n' => &[Word::NoneWord, Word::Nil, Word::Natural, Word::Normal],
        'o' => &[Word::Operation, Word::Option],
        'p' => &[Word::Perform, Word::Principal],
        'r' => &[Word::Rule, Word::Refl, Word::Right, Word::Rewrite],
        's' => &[Word::Show, Word::SomeWord, Word::Sym],
        't' => &[
            Word::TypeWord,
            Word::Then,
            Word::TrueWord,
            Word::Trans,
            Word::Typeof,
        ],
        'u' => &[Word::Unit],
        'v' => &[Word::Val],
        'w' => &[Word::With, Word::Widen],
        _ => &[],
    }
}

// The first of the words that the characters spell.
fn first_spelled(words: &[Word], spelling: &[char]) -> Option<Word>
    ensures { result ≡ find (λ w. bytes_eq (spelling_of w) spelling.now) words.now }
{
    for word in words {
        if spells(spelling, word.spelling()) {
            return Some(*word);
        }
    }
    None
}

// Whether the characters are those of the text of ASCII.
fn spells(chars: &[char], text: &[u8]) -> bool
    ensures { result ≡ bytes_eq text.now chars.now }
{
    match (chars, text) {
        ([], []) => true,
        ([c, chars @ ..], [byte, text @ ..]) => *c == *byte as char && spells(chars, text),
        _ => false,
    }
}

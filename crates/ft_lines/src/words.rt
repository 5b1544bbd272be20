//! The words of steps.

ghost use Rattle.std.specs.Prelude.{◌≡◌, find};
ghost use Rattle.std.specs.Str.{bytes_eq};
ghost use Rattle.ft_lines.specs.Words.{word_of, spelling_of};

/// The word that a step begins with. Each variant is named by its word, with a capital first letter.
#[derive(Clone, Copy, Debug, PartialEq, Eq, Drop)]
pub enum Word {
    Var,
    Generic,
    Meta,
    Metacong,
    Abs,
    Subst,
    Substeq,
    Refl,
    Sym,
    Trans,
    Conv,
    Conveq,
    Left,
    Right,
    Typeof,
    Domain,
    Boundary,
    Widen,
    Btype,
    Bterm,
    Beqty,
    Beqtm,
    Rule,
    Rulewith,
    Inst,
    Cong,
    Convprem,
    Convback,
    Arg,
    Natural,
}

// All words of version 1.
const WORDS: [Word; 30] = [
    Word::Var,
    Word::Generic,
    Word::Meta,
    Word::Metacong,
    Word::Abs,
    Word::Subst,
    Word::Substeq,
    Word::Refl,
    Word::Sym,
    Word::Trans,
    Word::Conv,
    Word::Conveq,
    Word::Left,
    Word::Right,
    Word::Typeof,
    Word::Domain,
    Word::Boundary,
    Word::Widen,
    Word::Btype,
    Word::Bterm,
    Word::Beqty,
    Word::Beqtm,
    Word::Rule,
    Word::Rulewith,
    Word::Inst,
    Word::Cong,
    Word::Convprem,
    Word::Convback,
    Word::Arg,
    Word::Natural,
];

impl Word {
    /// The letters of the word.
    pub fn spelling(self) -> &'static [u8]
        ensures { result.now ≡ spelling_of self }
    {
        match self {
            Word::Var => b"var",
            Word::Generic => b"generic",
            Word::Meta => b"meta",
            Word::Metacong => b"metacong",
            Word::Abs => b"abs",
            Word::Subst => b"subst",
            Word::Substeq => b"substeq",
            Word::Refl => b"refl",
            Word::Sym => b"sym",
            Word::Trans => b"trans",
            Word::Conv => b"conv",
            Word::Conveq => b"conveq",
            Word::Left => b"left",
            Word::Right => b"right",
            Word::Typeof => b"typeof",
            Word::Domain => b"domain",
            Word::Boundary => b"boundary",
            Word::Widen => b"widen",
            Word::Btype => b"btype",
            Word::Bterm => b"bterm",
            Word::Beqty => b"beqty",
            Word::Beqtm => b"beqtm",
            Word::Rule => b"rule",
            Word::Rulewith => b"rulewith",
            Word::Inst => b"inst",
            Word::Cong => b"cong",
            Word::Convprem => b"convprem",
            Word::Convback => b"convback",
            Word::Arg => b"arg",
            Word::Natural => b"natural",
        }
    }

    /// The word that the letters spell, or None where they spell none.
    pub fn of(spelling: &[u8]) -> Option<Word>
        ensures { result ≡ word_of spelling.now }
    {
        first_spelled(&WORDS, spelling)
    }
}

// The first of the words that the letters spell.
fn first_spelled(words: &[Word], spelling: &[u8]) -> Option<Word>
    ensures { result ≡ find (λ w. bytes_eq (spelling_of w) spelling.now) words.now }
{
    for word in words {
        if word.spelling() == spelling {
            return Some(*word);
        }
    }
    None
}

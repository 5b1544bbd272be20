//! Laws of the tokens of a text. Each is a function that does nothing, whose contract is the law.

ghost use Rattle.std.specs.Prelude.{◌≡◌, ◌+◌, ◌++◌, [], ◌∷◌, ℕ, List, IsTrue, map};
ghost use Rattle.ft_base.specs.Names.{is_name_token};
ghost use Rattle.ft_grammar.specs.declared.token.Kind.TheVariants.{Name, End};
ghost use Rattle.ft_grammar.specs.Tokens.{width, tokens_of};
ghost use Rattle.ft_grammar.specs.Made.{IsMadeOf, IsRising, is_ended, moved_token, without_last};

/// A text is made of its tokens, white space and comments: each of its characters stands in exactly one of them, and each
/// token's characters spell it and stand where its start and end say.
pub fn a_text_is_made_of_its_tokens()
    ensures { (text : List ℕ) → IsMadeOf 0 text (tokens_of text) }
{}

/// The starts and ends of the tokens rise, and lie within the text.
pub fn places_rise_within_the_text()
    ensures { (text : List ℕ) → IsRising 0 (tokens_of text) (width text) }
{}

/// The last token is `End`, and no other is.
pub fn the_last_token_alone_is_the_end()
    ensures { (text : List ℕ) → IsTrue (is_ended (tokens_of text)) }
{}

/// A text that is a name token gives that one token before `End`.
pub fn a_name_token_is_one_token()
    ensures { (text : List ℕ) → IsTrue (is_name_token text) → tokens_of text ≡ record { kind = Name text; start = 0; end = width text } ∷ record { kind = End; start = width text; end = width text } ∷ [] }
{}

/// A text, a line feed and another text give the tokens of the first without its `End`, and then those of the second, moved
/// by the bytes before it.
pub fn a_line_feed_joins_texts()
    ensures { (before after : List ℕ) → tokens_of (before ++ 10 ∷ after) ≡ without_last (tokens_of before) ++ map (moved_token (width before + 1)) (tokens_of after) }
{}

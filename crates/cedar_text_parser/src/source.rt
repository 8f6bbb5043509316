//! A text and its tokens, which go together wherever something is read of them.
ghost use Rattle.std.specs.Prelude.{◌≡◌, ◌<◌, ◌^◌, All, length};
ghost use Rattle.cedar_text_lexer.specs.Sequence as Tokens;
ghost use Rattle.cedar_text_lexer.specs.Tokens.{IsTokens};
ghost use Rattle.cedar_text_lexer.specs.Values.{Stands};
ghost use Rattle.cedar_text_parser.specs.Sources.{IsTokenized, with_tokens};

use cedar_text_lexer::sequence::{end_at, start_at, token_at};
use cedar_text_lexer::tokens::Token;
use std::marker::Model;

/// A text and its tokens, each of which stands in it.
#[derive(Drop)]
pub struct Source<'a> {
    text: &'a str,
    tokens: &'a [Token],
}

impl<'a> Model for Source<'a> {
    ghost use Rattle.cedar_text_parser.specs.Sources.{Tokenized, IsTokenized, with_tokens};

    ghost Value = { Tokenized };

    ghost view = { λ a. with_tokens a.text.now a.tokens.now };

    ghost invariant = { λ a. IsTokenized (with_tokens a.text.now a.tokens.now) };
}

impl<'a> Source<'a> {
    /// The text with the tokens that the lexer cuts it into.
    pub fn of(text: &'a str, tokens: &'a [Token]) -> Source<'a>
        requires cut { IsTokens 0 text.now tokens.now }
        requires stand { All (Stands text.now) tokens.now }
        ensures { result ≡ with_tokens text.now tokens.now }
    {
        Source { text, tokens }
    }

    /// The text.
    pub(crate) fn text(&self) -> &'a str
        ensures is { result.now ≡ self.now.text }
        ensures own { IsTokenized self.now }
    {
        self.text
    }

    /// The tokens.
    pub(crate) fn tokens(&self) -> &'a [Token]
        ensures is { result.now ≡ self.now.tokens }
        ensures own { IsTokenized self.now }
    {
        self.tokens
    }

    /// How many tokens there are.
    pub(crate) fn len(&self) -> usize
        ensures is { result ≡ length self.now.tokens }
        ensures short { length self.now.tokens < 2 ^ 63 }
    {
        self.tokens.len()
    }

    /// The token of this number.
    pub(crate) fn token_at(&self, index: usize) -> Token
        requires { index < length self.now.tokens }
        ensures is { result ≡ Tokens.token_at self.now.tokens index }
        ensures stands { Stands self.now.text result }
    {
        token_at(self.tokens, index)
    }

    /// The byte at which the token of this number starts; behind the last one, 0.
    pub(crate) fn start_at(&self, index: usize) -> usize
        ensures { result ≡ Tokens.start_at self.now.tokens index }
    {
        start_at(self.tokens, index)
    }

    /// The byte before which the token of this number ends; behind the last one, 0.
    pub(crate) fn end_at(&self, index: usize) -> usize
        ensures { result ≡ Tokens.end_at self.now.tokens index }
    {
        end_at(self.tokens, index)
    }

    /// That the tokens are those of the text, and each stands in it. It is a law, and does nothing.
    pub(crate) fn tokens_stand(&self)
        ensures { IsTokenized self.now }
    {
        let _ = &self.text;
    }
}

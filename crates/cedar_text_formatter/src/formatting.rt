//! Lays a text out anew.
ghost use Rattle.std.specs.Prelude.{◌≡◌, IfOk, IfErr, IsTrue, IsFalse, string_bytes};
ghost use Rattle.cedar_text_lexer.specs.Tokens.{IsTokens};
ghost use Rattle.cedar_text_formatter.specs.declared.formatting.FormatError.TheVariants as error;
ghost use Rattle.cedar_text_formatter.specs.Formatted.{IsFormatted, IsRefusal};
ghost use Rattle.cedar_text_formatter.specs.Pieces as Pieces;

use crate::{fronts, layout};
use cedar_text_lexer::lexer::tokens;
use cedar_text_lexer::tokens::{Kind, Token};
use std::alloc::{AllocError, Global};

/// Why a text is not laid out.
#[derive(Clone, Copy, Debug)]
pub enum FormatError {
    /// Out of memory.
    Memory,
    /// A token of the text can't be read.
    Unreadable,
}

impl From<AllocError> for FormatError {
    ghost from_gives = { λ _ result. result ≡ error.Memory };

    fn from(_error: AllocError) -> FormatError {
        FormatError::Memory
    }
}

/// The text laid out anew: the same tokens and comments in the same order, with other blanks between them. Each comment
/// stands on a line of its own, before the token that it stood before. What is laid out once stays as it is.
///
/// # Errors
///
/// A token of the text can't be read. Out of memory.
pub fn format_text(alloc: Global, text: &str) -> Result<String, FormatError>
    ensures formatted { IfOk result (λ formatted. IsFormatted text.now (string_bytes formatted)) }
    ensures refused { IfErr result (IsRefusal text.now) }
{
    let tokens = tokens(alloc, text)?;
    if !are_readable(&tokens) {
        return Err(FormatError::Unreadable);
    }
    Ok(lay_out(alloc, text, &tokens)?)
}

/// Whether the text is laid out already, so that `format_text` leaves it as it is.
///
/// # Errors
///
/// A token of the text can't be read. Out of memory.
pub fn is_formatted(alloc: Global, text: &str) -> Result<bool, FormatError>
    ensures yes { IfOk result (λ is. IsTrue is → IsFormatted text.now text.now) }
    ensures no { IfOk result (λ is. IsFalse is → IsFormatted text.now text.now → ⊥) }
    ensures refused { IfErr result (IsRefusal text.now) }
{
    let formatted = format_text(alloc, text)?;
    Ok(formatted.as_str() == text)
}

fn are_readable(tokens: &[Token]) -> bool
    ensures { result ≡ Pieces.are_readable tokens.now }
{
    tokens.iter().all(|token| is_readable(token.kind))
}

fn is_readable(kind: Kind) -> bool
    ensures { result ≡ Pieces.is_readable kind }
{
    match kind {
        Kind::Unreadable | Kind::UnclosedText => false,
        _ => true,
    }
}

fn lay_out(alloc: Global, text: &str, tokens: &[Token]) -> Result<String, AllocError>
    requires tokens { IsTokens 0 text.now tokens.now }
    requires readable { IsTrue (Pieces.are_readable tokens.now) }
    ensures { IfOk result (λ formatted. IsFormatted text.now (string_bytes formatted)) }
{
    let mut formatted = String::new(alloc);
    let mut state = layout::start();
    let mut rest = text;
    let mut left = tokens;
    let mut at = 0;
    while !rest.is_empty() {
        let cut = fronts::cut_front(rest, at, left);
        state = layout::write(state, cut.front, &rest[..cut.len], &mut formatted)?;
        rest = &rest[cut.len..];
        left = fronts::behind(left, cut.count);
        at += cut.len;
    }
    formatted.push_str(layout::ending(state))?;
    Ok(formatted)
}

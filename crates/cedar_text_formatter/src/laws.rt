//! Laws of the layout. Each function is a law, and does nothing.
ghost use Rattle.std.specs.Prelude.{◌≡◌, ℕ, List};
ghost use Rattle.cedar_text_lexer.specs.declared.tokens.Token.{Token};
ghost use Rattle.cedar_text_lexer.specs.Tokens.{IsTokens};
ghost use Rattle.cedar_text_formatter.specs.Formatted.{IsFormatted, read_of};
ghost use Rattle.cedar_text_formatter.specs.Pieces.{Piece, IsPieces};

/// A text has one list of pieces, and no other.
pub fn pieces_are_determined()
    ensures { (text : List ℕ) (a b : List Piece) → IsPieces text a → IsPieces text b → a ≡ b }
{}

/// A text has one layout, and no other.
pub fn layouts_are_determined()
    ensures { (text a b : List ℕ) → IsFormatted text a → IsFormatted text b → a ≡ b }
{}

/// What is laid out once stays as it is.
pub fn formatting_again_changes_nothing()
    ensures { (text a b : List ℕ) → IsFormatted text a → IsFormatted a b → a ≡ b }
{}

/// The lexer reads the same tokens of what is laid out as of the text: the same kinds, and the same bytes.
pub fn tokens_are_kept()
    ensures { (text formatted : List ℕ) (a b : List Token) → IsFormatted text formatted →
        IsTokens 0 text a → IsTokens 0 formatted b → read_of text a ≡ read_of formatted b }
{}

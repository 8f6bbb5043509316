//! Laws of the tokens. Each function is a law, and does nothing.
ghost use Rattle.std.specs.Prelude.{◌≡◌, ℕ, List, true, false};
ghost use Rattle.cedar_text_lexer.specs.declared.tokens.Token.{Token};
ghost use Rattle.cedar_text_lexer.specs.declared.values.PatternPart.{PatternPart};
ghost use Rattle.cedar_text_lexer.specs.Tokens.{IsTokens};
ghost use Rattle.cedar_text_lexer.specs.Values.{IsTextOf, IsPatternOf, IsRefused};

/// A text has one list of tokens, and no other: what `tokens` promises leaves no choice.
pub fn tokens_are_determined()
    ensures { (text : List ℕ) (a b : List Token) → IsTokens 0 text a → IsTokens 0 text b → a ≡ b }
{}

/// What stands between quotes stands for one text at most, and for none where `text_value` may refuse it.
pub fn texts_are_determined()
    ensures one { (bs a b : List ℕ) → IsTextOf bs a → IsTextOf bs b → a ≡ b }
    ensures none { (bs a : List ℕ) (n m : ℕ) → IsTextOf bs a → IsRefused false bs n m → ⊥ }
{}

/// The same of patterns.
pub fn patterns_are_determined()
    ensures one { (bs : List ℕ) (a b : List PatternPart) → IsPatternOf bs a → IsPatternOf bs b → a ≡ b }
    ensures none { (bs : List ℕ) (a : List PatternPart) (n m : ℕ) → IsPatternOf bs a → IsRefused true bs n m → ⊥ }
{}

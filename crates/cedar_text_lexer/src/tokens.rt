//! The tokens of Cedar's policy text.
ghost use Rattle.std.specs.Prelude.{◌≡◌, ◌||◌};
ghost use Rattle.cedar_text_lexer.specs.Kinds as Kinds;

/// The kind of a token: what its bytes are.
#[derive(Clone, Copy, Debug, PartialEq, Eq)]
pub enum Kind {
    /// A word that is none of the keywords below.
    Identifier,
    /// A number: digits alone.
    Number,
    /// A text in quotes, with its quotes.
    Text,
    /// `principal`
    Principal,
    /// `action`
    Action,
    /// `resource`
    Resource,
    /// `context`
    Context,
    /// `permit`
    Permit,
    /// `forbid`
    Forbid,
    /// `when`
    When,
    /// `unless`
    Unless,
    /// `if`
    If,
    /// `then`
    Then,
    /// `else`
    Else,
    /// `__cedar`, which is reserved in names.
    Cedar,
    /// `true`
    True,
    /// `false`
    False,
    /// `in`
    In,
    /// `has`
    Has,
    /// `like`
    Like,
    /// `is`
    Is,
    /// `?principal`
    PrincipalSlot,
    /// `?resource`
    ResourceSlot,
    /// `?` and another word: the language has no such slot.
    OtherSlot,
    /// `@`
    At,
    /// `(`
    OpenParen,
    /// `)`
    CloseParen,
    /// `[`
    OpenBracket,
    /// `]`
    CloseBracket,
    /// `{`
    OpenBrace,
    /// `}`
    CloseBrace,
    /// `,`
    Comma,
    /// `;`
    Semicolon,
    /// `:`
    Colon,
    /// `::`
    Colons,
    /// `.`
    Dot,
    /// `||`
    Or,
    /// `&&`
    And,
    /// `==`
    Equal,
    /// `!=`
    NotEqual,
    /// `<`
    Less,
    /// `<=`
    LessEqual,
    /// `>`
    Greater,
    /// `>=`
    GreaterEqual,
    /// `!`
    Bang,
    /// `+`
    Plus,
    /// `-`
    Minus,
    /// `*`
    Star,
    /// A text whose closing quote is missing: all from its quote on.
    UnclosedText,
    /// One character with which no token begins, as a single `=`, `&` or `|`.
    Unreadable,
    /// Behind the last token.
    End,
}

/// A token: its kind, and the bytes of the text at which it starts and before which it ends.
#[derive(Clone, Copy)]
pub struct Token {
    pub kind: Kind,
    pub start: usize,
    pub end: usize,
}

impl Kind {
    /// Whether the token may name an attribute: each word but the reserved ones, which are `if`, `then`, `else`, `true`,
    /// `false`, `in`, `has`, `like` and `is`.
    pub fn is_identifier(self) -> bool
        ensures { result ≡ Kinds.is_identifier self }
    {
        match self {
            Kind::Identifier
            | Kind::Principal
            | Kind::Action
            | Kind::Resource
            | Kind::Context
            | Kind::Permit
            | Kind::Forbid
            | Kind::When
            | Kind::Unless
            | Kind::Cedar => true,
            _ => false,
        }
    }

    /// Whether the token may stand in the name of a type, a namespace or a function: each word that may name an
    /// attribute, but for `__cedar`.
    pub fn is_name(self) -> bool
        ensures { result ≡ Kinds.is_name self }
    {
        match self {
            Kind::Identifier
            | Kind::Principal
            | Kind::Action
            | Kind::Resource
            | Kind::Context
            | Kind::Permit
            | Kind::Forbid
            | Kind::When
            | Kind::Unless => true,
            _ => false,
        }
    }

    /// Whether the token is a word, keyword or not: each may be the key of an annotation.
    pub fn is_word(self) -> bool
        ensures { result ≡ (Kinds.is_identifier self || Kinds.is_reserved self) }
    {
        self.is_identifier() || self.is_reserved()
    }

    /// Whether the token is a word that stands for itself alone.
    pub fn is_reserved(self) -> bool
        ensures { result ≡ Kinds.is_reserved self }
    {
        match self {
            Kind::If
            | Kind::Then
            | Kind::Else
            | Kind::True
            | Kind::False
            | Kind::In
            | Kind::Has
            | Kind::Like
            | Kind::Is => true,
            _ => false,
        }
    }
}

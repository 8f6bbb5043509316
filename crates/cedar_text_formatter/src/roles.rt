//! What a token is to the layout, and what stands before it.
ghost use Rattle.std.specs.Prelude.{◌≡◌};
ghost use Rattle.cedar_text_formatter.specs.Roles as Roles;

use cedar_text_lexer::tokens::Kind;

/// What a token is to the layout of the next one.
#[derive(Clone, Copy)]
pub(crate) enum Role {
    /// No token: the text begins.
    Start,
    /// `@`
    At,
    /// The key of an annotation.
    Key,
    /// The bracket that opens a scope or a clause.
    Block,
    /// Another bracket that opens.
    Open,
    /// A bracket that closes.
    Close,
    /// `,`
    Comma,
    /// `;`, the end of a policy.
    End,
    /// `.` or `::`.
    Joint,
    /// `!`, or a `-` that stands before its operand.
    Sign,
    /// A word that may be a name.
    Name,
    /// A number, a text, `true`, `false` or a slot.
    Operand,
    /// An operator, `:` or another word.
    Other,
}

/// The token opens a bracket.
pub(crate) fn opens(kind: Kind) -> bool
    ensures { result ≡ Roles.opens kind }
{
    match kind {
        Kind::OpenParen | Kind::OpenBracket | Kind::OpenBrace => true,
        _ => false,
    }
}

/// The token closes a bracket.
pub(crate) fn closes(kind: Kind) -> bool
    ensures { result ≡ Roles.closes kind }
{
    match kind {
        Kind::CloseParen | Kind::CloseBracket | Kind::CloseBrace => true,
        _ => false,
    }
}

/// A part of a condition begins with the token: `&&`, `||`, `then` or `else`.
pub(crate) fn is_connective(kind: Kind) -> bool
    ensures { result ≡ Roles.is_connective kind }
{
    match kind {
        Kind::And | Kind::Or | Kind::Then | Kind::Else => true,
        _ => false,
    }
}

/// `,`, `;`, `:`, `::` or `.`, which stand right behind what they belong to.
pub(crate) fn is_joined(kind: Kind) -> bool
    ensures { result ≡ Roles.is_joined kind }
{
    match kind {
        Kind::Comma | Kind::Semicolon | Kind::Colon | Kind::Colons | Kind::Dot => true,
        _ => false,
    }
}

/// An operand ends with the token, so that a `-` behind it is between two operands.
pub(crate) fn ends_operand(role: Role) -> bool
    ensures { result ≡ Roles.ends_operand role }
{
    match role {
        Role::Name | Role::Operand | Role::Close => true,
        _ => false,
    }
}

/// What follows stands right behind the token.
pub(crate) fn holds_next(role: Role) -> bool
    ensures { result ≡ Roles.holds_next role }
{
    match role {
        Role::At | Role::Open | Role::Joint | Role::Sign => true,
        _ => false,
    }
}

/// `@`
pub(crate) fn is_at(role: Role) -> bool
    ensures { result ≡ Roles.is_at role }
{
    match role {
        Role::At => true,
        _ => false,
    }
}

/// The key of an annotation.
pub(crate) fn is_key(role: Role) -> bool
    ensures { result ≡ Roles.is_key role }
{
    match role {
        Role::Key => true,
        _ => false,
    }
}

/// A word that may be a name.
pub(crate) fn is_name(role: Role) -> bool
    ensures { result ≡ Roles.is_name role }
{
    match role {
        Role::Name => true,
        _ => false,
    }
}

/// The text begins.
pub(crate) fn is_start(role: Role) -> bool
    ensures { result ≡ Roles.is_start role }
{
    match role {
        Role::Start => true,
        _ => false,
    }
}

/// The end of a policy.
pub(crate) fn is_end(role: Role) -> bool
    ensures { result ≡ Roles.is_end role }
{
    match role {
        Role::End => true,
        _ => false,
    }
}

/// Right inside a scope or a clause a line begins behind the token.
pub(crate) fn parts(role: Role) -> bool
    ensures { result ≡ Roles.parts role }
{
    match role {
        Role::Block | Role::Comma => true,
        _ => false,
    }
}

fn bracket_role(before: Role, depth: usize) -> Role
    ensures { result ≡ Roles.bracket_role before depth }
{
    if depth == 0 && !is_key(before) {
        Role::Block
    } else {
        Role::Open
    }
}

fn minus_role(before: Role) -> Role
    ensures { result ≡ Roles.minus_role before }
{
    if ends_operand(before) {
        Role::Other
    } else {
        Role::Sign
    }
}

/// What a token is behind this one, so many brackets deep, unless it is the key behind an `@`.
pub(crate) fn role_of(before: Role, depth: usize, kind: Kind) -> Role
    ensures { result ≡ Roles.role_of before depth kind }
{
    match kind {
        Kind::At => Role::At,
        Kind::OpenParen | Kind::OpenBracket | Kind::OpenBrace => bracket_role(before, depth),
        Kind::CloseParen | Kind::CloseBracket | Kind::CloseBrace => Role::Close,
        Kind::Comma => Role::Comma,
        Kind::Semicolon => Role::End,
        Kind::Dot | Kind::Colons => Role::Joint,
        Kind::Bang => Role::Sign,
        Kind::Minus => minus_role(before),
        Kind::Identifier
        | Kind::Principal
        | Kind::Action
        | Kind::Resource
        | Kind::Context
        | Kind::Permit
        | Kind::Forbid
        | Kind::When
        | Kind::Unless
        | Kind::Cedar => Role::Name,
        Kind::Number
        | Kind::Text
        | Kind::True
        | Kind::False
        | Kind::PrincipalSlot
        | Kind::ResourceSlot
        | Kind::OtherSlot => Role::Operand,
        _ => Role::Other,
    }
}

//! What stands before each piece.
ghost use Rattle.std.specs.Prelude.{◌≡◌, ◌+◌, ◌<◌, ◌^◌, ◌++◌, length, IfOk, string_bytes};
ghost use Rattle.cedar_text_formatter.specs.Layout as Layout;

use crate::fronts::Front;
use crate::roles;
use crate::roles::Role;
use cedar_text_lexer::tokens::Kind;
use cedar_text_lexer::words::is_word_byte;
use std::alloc::AllocError;

/// What the layout of the next piece depends on.
#[derive(Clone, Copy)]
pub(crate) struct State {
    /// How many brackets are open.
    pub(crate) depth: usize,
    /// The first of them is that of a scope or a clause.
    pub(crate) is_block: bool,
    /// What the last token was.
    pub(crate) before: Role,
    /// A comment stands behind it.
    pub(crate) is_after_comment: bool,
    /// The last byte of the last token.
    pub(crate) last: u8,
}

/// Before the first piece.
pub(crate) fn start() -> State
    ensures { result ≡ Layout.start }
{
    State {
        depth: 0,
        is_block: false,
        before: Role::Start,
        is_after_comment: false,
        last: 0,
    }
}

/// Writes what a text begins with, and what stands before it; answers what is known behind it.
pub(crate) fn write(
    state: State,
    front: Front,
    word: &str,
    out: &mut String,
) -> Result<State, AllocError>
    requires some { 0 < length word.now }
    requires low { state.depth + 1 < 2 ^ 64 }
    ensures behind { IfOk result (λ s. s ≡ Layout.behind state front word.now) }
    ensures written { IfOk result (λ _.
        string_bytes out.new ≡ string_bytes out.old ++ Layout.written state front word.now) }
{
    match front {
        Front::Blank => Ok(state),
        Front::Comment => write_comment(state, word, out),
        Front::Token(kind) => write_token(state, kind, word, out),
    }
}

fn write_comment(state: State, word: &str, out: &mut String) -> Result<State, AllocError>
    ensures behind { IfOk result (λ s. s ≡ Layout.behind_comment state) }
    ensures written { IfOk result (λ _.
        string_bytes out.new ≡ string_bytes out.old ++ (Layout.comment_gap state ++ word.now)) }
{
    out.push_str(comment_gap(state))?;
    out.push_str(word)?;
    Ok(behind_comment(state))
}

fn write_token(state: State, kind: Kind, word: &str, out: &mut String) -> Result<State, AllocError>
    requires some { 0 < length word.now }
    requires low { state.depth + 1 < 2 ^ 64 }
    ensures behind { IfOk result (λ s. s ≡ Layout.behind_token state kind word.now) }
    ensures written { IfOk result (λ _.
        string_bytes out.new ≡ string_bytes out.old ++ (Layout.token_gap state kind word.now ++ word.now)) }
{
    out.push_str(token_gap(state, kind, word))?;
    out.push_str(word)?;
    Ok(behind_token(state, kind, word))
}

/// What ends the text.
pub(crate) fn ending(state: State) -> &'static str
    ensures { result.now ≡ Layout.ending state }
{
    if state.is_after_comment || !roles::is_start(state.before) {
        "\n"
    } else {
        ""
    }
}

// ---- lines and blanks

fn line_at(depth: usize) -> &'static str
    ensures { result.now ≡ Layout.line_at depth }
{
    if depth == 0 {
        "\n"
    } else if depth == 1 {
        "\n  "
    } else {
        "\n    "
    }
}

// The bytes are an operator of two bytes.
fn make_operator(a: u8, b: u8) -> bool
    ensures { result ≡ Layout.make_operator a b }
{
    (b == b':' && a == b':')
        || (b == b'|' && a == b'|')
        || (b == b'&' && a == b'&')
        || (b == b'=' && (a == b'=' || a == b'!' || a == b'<' || a == b'>'))
}

// A token that ends with the first byte and one that begins with the second would run together.
fn run_together(a: u8, b: u8) -> bool
    ensures { result ≡ Layout.run_together a b }
{
    (is_word_byte(b) && is_word_byte(a)) || make_operator(a, b)
}

// Nothing, or a space where the word would run together with what ends with this byte.
fn apart(last: u8, word: &str) -> &'static str
    ensures { result.now ≡ Layout.apart last word.now }
{
    let bytes = word.as_bytes();
    if !bytes.is_empty() && run_together(last, bytes[0]) {
        " "
    } else {
        ""
    }
}

// ---- tokens

fn is_in_block(state: State) -> bool
    ensures { result ≡ Layout.is_in_block state }
{
    state.depth == 1 && state.is_block
}

fn closes_block(state: State, kind: Kind) -> bool
    ensures { result ≡ Layout.closes_block state kind }
{
    roles::closes(kind) && is_in_block(state)
}

// `(` behind the name of a function or a method, or the key of an annotation.
fn is_call(state: State, kind: Kind) -> bool
    ensures { result ≡ Layout.is_call state kind }
{
    match kind {
        Kind::OpenParen => {
            roles::is_key(state.before) || (0 < state.depth && roles::is_name(state.before))
        }
        _ => false,
    }
}

// `[` behind an operand.
fn is_access(state: State, kind: Kind) -> bool
    ensures { result ≡ Layout.is_access state kind }
{
    match kind {
        Kind::OpenBracket => roles::ends_operand(state.before),
        _ => false,
    }
}

// The token stands right behind the one before.
fn is_close(state: State, kind: Kind) -> bool
    ensures { result ≡ Layout.is_close state kind }
{
    roles::is_joined(kind)
        || roles::holds_next(state.before)
        || (roles::closes(kind) && !closes_block(state, kind))
        || is_call(state, kind)
        || is_access(state, kind)
}

fn begins_line(state: State, kind: Kind) -> bool
    ensures { result ≡ Layout.begins_line state kind }
{
    if state.depth == 0 {
        !roles::opens(kind)
    } else {
        is_in_block(state)
            && (roles::parts(state.before) || roles::closes(kind) || roles::is_connective(kind))
    }
}

// How far a line is set in that begins with the token.
fn depth_of(state: State, kind: Kind) -> usize
    ensures { result ≡ Layout.depth_of state kind }
{
    if roles::closes(kind) {
        state.depth.saturating_sub(1)
    } else {
        state.depth
    }
}

// What stands before a token, behind no comment.
fn gap_of(state: State, kind: Kind, word: &str) -> &'static str
    ensures { result.now ≡ Layout.gap_of state kind word.now }
{
    if roles::is_start(state.before) {
        apart(state.last, word)
    } else if is_close(state, kind) {
        apart(state.last, word)
    } else if roles::is_end(state.before) {
        "\n\n"
    } else if begins_line(state, kind) {
        line_at(depth_of(state, kind))
    } else {
        " "
    }
}

fn token_gap(state: State, kind: Kind, word: &str) -> &'static str
    ensures { result.now ≡ Layout.token_gap state kind word.now }
{
    if state.is_after_comment {
        line_at(depth_of(state, kind))
    } else {
        gap_of(state, kind, word)
    }
}

fn depth_behind(depth: usize, kind: Kind) -> usize
    requires { depth + 1 < 2 ^ 64 }
    ensures { result ≡ Layout.depth_behind depth kind }
{
    if roles::opens(kind) {
        depth + 1
    } else if roles::closes(kind) {
        depth.saturating_sub(1)
    } else {
        depth
    }
}

fn is_block_behind(state: State, kind: Kind) -> bool
    ensures { result ≡ Layout.is_block_behind state kind }
{
    if roles::opens(kind) && state.depth == 0 {
        !roles::is_key(state.before)
    } else {
        state.is_block
    }
}

fn role_behind(state: State, kind: Kind) -> Role
    ensures { result ≡ Layout.role_behind state kind }
{
    if roles::is_at(state.before) {
        Role::Key
    } else {
        roles::role_of(state.before, state.depth, kind)
    }
}

fn last_of(word: &str) -> u8
    requires { 0 < length word.now }
    ensures { result ≡ Layout.last_of word.now }
{
    let bytes = word.as_bytes();
    bytes[bytes.len() - 1]
}

fn behind_token(state: State, kind: Kind, word: &str) -> State
    requires some { 0 < length word.now }
    requires low { state.depth + 1 < 2 ^ 64 }
    ensures { result ≡ Layout.behind_token state kind word.now }
{
    State {
        depth: depth_behind(state.depth, kind),
        is_block: is_block_behind(state, kind),
        before: role_behind(state, kind),
        is_after_comment: false,
        last: last_of(word),
    }
}

// ---- comments

fn comment_gap(state: State) -> &'static str
    ensures { result.now ≡ Layout.comment_gap state }
{
    if state.is_after_comment {
        line_at(state.depth)
    } else if roles::is_start(state.before) {
        ""
    } else if roles::is_end(state.before) {
        "\n\n"
    } else {
        line_at(state.depth)
    }
}

fn behind_comment(state: State) -> State
    ensures { result ≡ Layout.behind_comment state }
{
    State {
        is_after_comment: true,
        ..state
    }
}

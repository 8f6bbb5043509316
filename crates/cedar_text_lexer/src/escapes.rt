//! The escapes of texts and patterns.

/// A character that an escape stands for, and how many bytes of it stand behind its backslash.
#[derive(Clone, Copy)]
pub(crate) struct Escape {
    pub(crate) char: char,
    pub(crate) len: usize,
}

/// A character of a text or a pattern: one that stands there, or that an escape stands for; and how many bytes it has
/// there.
#[derive(Clone, Copy)]
pub(crate) struct Piece {
    pub(crate) char: char,
    pub(crate) is_escaped: bool,
    pub(crate) len: usize,
}

//! How deep tokens may stand.

/// The deepest level at which a token may stand. To the lexer a token's level is the number of groups around it; to the reader of
/// declarations docs/FORMATS.md counts some more.
pub const DEEPEST: usize = 128;

//! The words of a line and where they stand.
ghost use Rattle.std.specs.Prelude.{◌≤◌, length};

/// What stands between two spaces of a line, and the column of its first octet.
#[derive(Clone, Copy)]
pub(crate) struct Token<'a> {
    pub(crate) column: usize,
    pub(crate) octets: &'a [u8],
    ghost early: { column ≤ 4097 },
}

/// A text between two spaces, and the column of its first octet.
#[derive(Clone, Copy)]
pub(crate) struct Word<'a> {
    pub(crate) column: usize,
    pub(crate) text: &'a str,
}

/// The tokens of a line, how many of them were read, and the column behind the line's last octet.
#[derive(Clone, Copy)]
pub(crate) struct Words<'a> {
    pub(crate) tokens: &'a [Token<'a>],
    pub(crate) at: usize,
    pub(crate) end: usize,
    ghost inside: { at ≤ length tokens.now },
}

// The kinds of tokens and of trees.

/// The kinds of tokens that are trees by themselves.
#[derive(Clone, Copy, PartialEq, Eq)]
pub enum AtomKind {
    Symbol,
    /// A symbol between bars.
    Quoted,
    /// A word behind a colon.
    Keyword,
    /// A text between quotation marks.
    Text,
    /// A word that begins with a digit or with `#`.
    Constant,
}

/// The kinds of tokens.
#[derive(Clone, Copy, PartialEq, Eq)]
pub enum TokenKind {
    Open,
    Close,
    Atom(AtomKind),
}

/// The kinds of trees.
#[derive(Clone, Copy, PartialEq, Eq)]
pub enum NodeKind {
    List,
    Atom(AtomKind),
}

/// What stands at the front of a text: a space or a comment, a token, or what begins none.
#[derive(Clone, Copy, PartialEq, Eq)]
pub enum Piece {
    Gap,
    Token(TokenKind),
    Stray,
}

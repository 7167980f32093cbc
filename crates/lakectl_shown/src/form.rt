//! What an object of JSON must have to be shown, and what is shown of it.

/// What the value of a key is.
#[derive(Clone, Copy, Debug, Drop)]
pub enum Content {
    /// A text.
    Text,
    /// A whole number of 64 bits, written without a sign, a fraction and an exponent.
    Whole,
    /// `true` or `false`.
    Truth,
    /// An object.
    Object,
    /// A list.
    List,
    /// The text `object`.
    ObjectWord,
    /// The text `common_prefix`.
    PrefixWord,
}

/// A key that an object must have, and what its value is.
#[derive(Clone, Copy, Debug, Drop)]
pub struct Key {
    pub name: &'static str,
    pub content: Content,
}

/// A piece of what is shown of an object.
#[derive(Clone, Copy, Debug, Drop)]
pub enum Piece {
    /// These words.
    Words(&'static str),
    /// The text of this key.
    Text(&'static str),
    /// The number of this key, in decimal digits.
    Number(&'static str),
}

/// An object of a reply, and a way to show it.
#[derive(Clone, Copy, Debug, Drop)]
pub enum Form {
    /// A repository that was made.
    RepositoryMade,
    /// A repository in a list.
    RepositoryLine,
    /// A branch or a tag.
    ReferenceLine,
    /// A tag that was made.
    TagMade,
    /// A commit that was made.
    CommitMade,
    /// A commit in a log.
    CommitLines,
    /// A merge that was made.
    MergeMade,
    /// An object that was uploaded or staged.
    ObjectMade,
    /// What is known of an object.
    ObjectLines,
    /// An object in a list.
    ObjectLine,
    /// A prefix in a list.
    PrefixLine,
    /// What is told of a page.
    Page,
    /// A refusal.
    Fault,
}

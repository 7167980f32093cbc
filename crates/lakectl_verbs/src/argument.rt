//! The arguments of a verb, as its line of the table names them.

/// How an argument is written.
#[derive(Clone, Copy, Debug, Drop)]
pub enum Shape {
    /// A word of its own, in its place.
    Positional,
    /// `--name VALUE`.
    Long,
    /// `-m VALUE`, which has no long form.
    Short,
    /// `--name VALUE` or `-m VALUE`.
    LongOrShort,
    /// `--name`. Its value is `true` where it is given, else `false`.
    Flag,
}

/// Which parts a URI has.
#[derive(Clone, Copy, Debug, Drop)]
pub enum UriParts {
    /// `lakefs://REPO`.
    Repo,
    /// `lakefs://REPO/REF`.
    Ref,
    /// `lakefs://REPO/REF/PATH`.
    Path,
    /// The same, where the path may be empty, and the URI may end after REF.
    Prefix,
}

/// What the value of an argument is.
#[derive(Clone, Copy, Debug, Drop)]
pub enum Kind {
    /// Any text.
    Any,
    /// 1 to 19 decimal digits.
    Number,
    /// `K=V,K=V`.
    Meta,
    /// A URI of these parts.
    Uri(UriParts),
}

/// An argument.
#[derive(Clone, Copy, Debug, Drop)]
pub struct Argument {
    /// Its name, which is also that of its long form where it has one.
    pub name: &'static str,
    pub shape: Shape,
    /// The words must give it.
    pub needed: bool,
    pub kind: Kind,
}

//! The keys of objects in replies, and what is shown of them.
ghost use Rattle.std.specs.Prelude.{◌≡◌, map};
ghost use Rattle.lakectl_shown.specs.ShownForms.{key_seen, piece_seen};
ghost use Rattle.lakectl_shown.specs.FormTables.{keys_of, pieces_of};

use crate::form::{Content, Form, Key, Piece};

const CREATION_DATE: Key = Key {
    name: "creation_date",
    content: Content::Whole,
};

const DEFAULT_BRANCH: Key = Key {
    name: "default_branch",
    content: Content::Text,
};

const ID: Key = Key {
    name: "id",
    content: Content::Text,
};

const COMMIT_ID: Key = Key {
    name: "commit_id",
    content: Content::Text,
};

const COMMITTER: Key = Key {
    name: "committer",
    content: Content::Text,
};

const GENERATION: Key = Key {
    name: "generation",
    content: Content::Whole,
};

const MESSAGE: Key = Key {
    name: "message",
    content: Content::Text,
};

const META_RANGE_ID: Key = Key {
    name: "meta_range_id",
    content: Content::Text,
};

const METADATA: Key = Key {
    name: "metadata",
    content: Content::Object,
};

const PARENTS: Key = Key {
    name: "parents",
    content: Content::List,
};

const REFERENCE: Key = Key {
    name: "reference",
    content: Content::Text,
};

const CHECKSUM: Key = Key {
    name: "checksum",
    content: Content::Text,
};

const CONTENT_TYPE: Key = Key {
    name: "content_type",
    content: Content::Text,
};

const MTIME: Key = Key {
    name: "mtime",
    content: Content::Whole,
};

const PATH: Key = Key {
    name: "path",
    content: Content::Text,
};

const PATH_TYPE: Key = Key {
    name: "path_type",
    content: Content::ObjectWord,
};

const PHYSICAL_ADDRESS: Key = Key {
    name: "physical_address",
    content: Content::Text,
};

const SIZE_BYTES: Key = Key {
    name: "size_bytes",
    content: Content::Whole,
};

const PATH_TYPE_PREFIXWORD: Key = Key {
    name: "path_type",
    content: Content::PrefixWord,
};

const HAS_MORE: Key = Key {
    name: "has_more",
    content: Content::Truth,
};

const MAX_PER_PAGE: Key = Key {
    name: "max_per_page",
    content: Content::Whole,
};

const NEXT_OFFSET: Key = Key {
    name: "next_offset",
    content: Content::Text,
};

const RESULTS: Key = Key {
    name: "results",
    content: Content::Whole,
};

static REPOSITORY_KEYS: [Key; 3] = [CREATION_DATE, DEFAULT_BRANCH, ID];

static REFERENCE_KEYS: [Key; 2] = [COMMIT_ID, ID];

static COMMIT_KEYS: [Key; 8] = [
    COMMITTER,
    CREATION_DATE,
    GENERATION,
    ID,
    MESSAGE,
    META_RANGE_ID,
    METADATA,
    PARENTS,
];

static MERGE_KEYS: [Key; 1] = [REFERENCE];

static STATISTICS_KEYS: [Key; 8] = [
    CHECKSUM,
    CONTENT_TYPE,
    METADATA,
    MTIME,
    PATH,
    PATH_TYPE,
    PHYSICAL_ADDRESS,
    SIZE_BYTES,
];

static COMMON_PREFIX_KEYS: [Key; 2] = [PATH, PATH_TYPE_PREFIXWORD];

static PAGINATION_KEYS: [Key; 4] = [HAS_MORE, MAX_PER_PAGE, NEXT_OFFSET, RESULTS];

static FAULT_KEYS: [Key; 1] = [MESSAGE];

static REPOSITORY_MADE: [Piece; 3] = [
    Piece::Words("Repository '"),
    Piece::Text("id"),
    Piece::Words("' created\n"),
];

static REPOSITORY_LINE: [Piece; 6] = [
    Piece::Text("id"),
    Piece::Words("\t"),
    Piece::Number("creation_date"),
    Piece::Words("\t"),
    Piece::Text("default_branch"),
    Piece::Words("\n"),
];

static REFERENCE_LINE: [Piece; 4] = [
    Piece::Text("id"),
    Piece::Words("\t"),
    Piece::Text("commit_id"),
    Piece::Words("\n"),
];

static TAG_MADE: [Piece; 5] = [
    Piece::Words("Created tag '"),
    Piece::Text("id"),
    Piece::Words("' "),
    Piece::Text("commit_id"),
    Piece::Words("\n"),
];

static COMMIT_MADE: [Piece; 3] = [
    Piece::Words("Commit: "),
    Piece::Text("id"),
    Piece::Words("\n"),
];

static COMMIT_LINES: [Piece; 9] = [
    Piece::Words("ID: "),
    Piece::Text("id"),
    Piece::Words("\nAuthor: "),
    Piece::Text("committer"),
    Piece::Words("\nDate: "),
    Piece::Number("creation_date"),
    Piece::Words("\nMessage: "),
    Piece::Text("message"),
    Piece::Words("\n\n"),
];

static MERGE_MADE: [Piece; 3] = [
    Piece::Words("Merged: "),
    Piece::Text("reference"),
    Piece::Words("\n"),
];

static OBJECT_MADE: [Piece; 7] = [
    Piece::Words("Path: "),
    Piece::Text("path"),
    Piece::Words("\nSize: "),
    Piece::Number("size_bytes"),
    Piece::Words("\nChecksum: "),
    Piece::Text("checksum"),
    Piece::Words("\n"),
];

static OBJECT_LINES: [Piece; 13] = [
    Piece::Words("Path: "),
    Piece::Text("path"),
    Piece::Words("\nModified Time: "),
    Piece::Number("mtime"),
    Piece::Words("\nSize: "),
    Piece::Number("size_bytes"),
    Piece::Words("\nChecksum: "),
    Piece::Text("checksum"),
    Piece::Words("\nPhysical Address: "),
    Piece::Text("physical_address"),
    Piece::Words("\nContent-Type: "),
    Piece::Text("content_type"),
    Piece::Words("\n"),
];

static OBJECT_LINE: [Piece; 5] = [
    Piece::Words("object\t"),
    Piece::Number("size_bytes"),
    Piece::Words("\t"),
    Piece::Text("path"),
    Piece::Words("\n"),
];

static PREFIX_LINE: [Piece; 3] = [
    Piece::Words("prefix\t"),
    Piece::Text("path"),
    Piece::Words("\n"),
];

static PAGE: [Piece; 3] = [
    Piece::Words("More after: "),
    Piece::Text("next_offset"),
    Piece::Words("\n"),
];

static FAULT: [Piece; 1] = [Piece::Text("message")];

/// The keys that an object of this form must have. It takes no memory.
pub(crate) fn keys(form: Form) -> &'static [Key]
    ensures { map key_seen result.now ≡ keys_of form }
{
    match form {
        Form::RepositoryMade => REPOSITORY_KEYS.as_slice(),
        Form::RepositoryLine => REPOSITORY_KEYS.as_slice(),
        Form::ReferenceLine => REFERENCE_KEYS.as_slice(),
        Form::TagMade => REFERENCE_KEYS.as_slice(),
        Form::CommitMade => COMMIT_KEYS.as_slice(),
        Form::CommitLines => COMMIT_KEYS.as_slice(),
        Form::MergeMade => MERGE_KEYS.as_slice(),
        Form::ObjectMade => STATISTICS_KEYS.as_slice(),
        Form::ObjectLines => STATISTICS_KEYS.as_slice(),
        Form::ObjectLine => STATISTICS_KEYS.as_slice(),
        Form::PrefixLine => COMMON_PREFIX_KEYS.as_slice(),
        Form::Page => PAGINATION_KEYS.as_slice(),
        Form::Fault => FAULT_KEYS.as_slice(),
    }
}

/// The pieces that are shown of it. It takes no memory.
pub(crate) fn pieces(form: Form) -> &'static [Piece]
    ensures { map piece_seen result.now ≡ pieces_of form }
{
    match form {
        Form::RepositoryMade => REPOSITORY_MADE.as_slice(),
        Form::RepositoryLine => REPOSITORY_LINE.as_slice(),
        Form::ReferenceLine => REFERENCE_LINE.as_slice(),
        Form::TagMade => TAG_MADE.as_slice(),
        Form::CommitMade => COMMIT_MADE.as_slice(),
        Form::CommitLines => COMMIT_LINES.as_slice(),
        Form::MergeMade => MERGE_MADE.as_slice(),
        Form::ObjectMade => OBJECT_MADE.as_slice(),
        Form::ObjectLines => OBJECT_LINES.as_slice(),
        Form::ObjectLine => OBJECT_LINE.as_slice(),
        Form::PrefixLine => PREFIX_LINE.as_slice(),
        Form::Page => PAGE.as_slice(),
        Form::Fault => FAULT.as_slice(),
    }
}

//! The limits of names, texts and lists (this project's profile). Each but `REPO_NAME_LEAST` is the greatest count that
//! is taken.
ghost use Rattle.std.specs.Prelude.{◌≡◌};

/// Bytes of the name of a repository.
pub const REPO_NAME_LIMIT: usize = 63;
/// The fewest bytes of the name of a repository.
pub const REPO_NAME_LEAST: usize = 3;
/// Bytes of the name of a branch or a tag.
pub const REF_NAME_LIMIT: usize = 255;
/// Bytes of a path.
pub const PATH_LIMIT: usize = 1024;
/// Pairs of the metadata of an object or a commit.
pub const PAIRS_LIMIT: usize = 64;
/// Bytes of a key of metadata.
pub const KEY_LIMIT: usize = 128;
/// Bytes of a value of metadata.
pub const VALUE_LIMIT: usize = 1024;
/// Bytes of a content type.
pub const CONTENT_TYPE_LIMIT: usize = 255;
/// Bytes of an address outside.
pub const ADDRESS_LIMIT: usize = 2048;
/// Bytes of the checksum of an object outside.
pub const CHECKSUM_LIMIT: usize = 128;
/// Bytes of a committer.
pub const COMMITTER_LIMIT: usize = 128;
/// Bytes of a message.
pub const MESSAGE_LIMIT: usize = 65536;
/// Members of a list among the settings of a repository.
pub const SETTING_LIMIT: usize = 256;
/// Bytes of a prefix of paths among the settings of a repository.
pub const PREFIX_LIMIT: usize = 1024;
/// Bytes of a pattern of branches.
pub const PATTERN_LIMIT: usize = 255;
/// Days of retention.
pub const DAYS_LIMIT: u32 = 36500;

/// The limits as numbers. (A law: it does nothing.)
pub fn limits_are_pinned()
    ensures names { (REPO_NAME_LEAST ≡ 3) × (REPO_NAME_LIMIT ≡ 63) × (REF_NAME_LIMIT ≡ 255) × (PATH_LIMIT ≡ 1024) }
    ensures pairs { (PAIRS_LIMIT ≡ 64) × (KEY_LIMIT ≡ 128) × (VALUE_LIMIT ≡ 1024) }
    ensures entries { (CONTENT_TYPE_LIMIT ≡ 255) × (ADDRESS_LIMIT ≡ 2048) × (CHECKSUM_LIMIT ≡ 128) }
    ensures remarks { (COMMITTER_LIMIT ≡ 128) × (MESSAGE_LIMIT ≡ 65536) }
    ensures settings { (SETTING_LIMIT ≡ 256) × (PREFIX_LIMIT ≡ 1024) × (PATTERN_LIMIT ≡ 255) × (DAYS_LIMIT ≡ 36500) }
{}

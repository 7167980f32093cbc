//! Ranges that are read once, however many trees have them.
ghost use Rattle.std.specs.Prelude.{◌≡◌, ◌<◌, length, IfErr, IfOk, option_copied};
ghost use Rattle.meta_range.specs.TreeReading.{AreShelved, Fails, IsRead, IsShelved, ReadsAs, is_said, read_file};
ghost use Rattle.meta_range.specs.TreeReading.{read_range, whole};

use crate::fault::{TreeFault, of_range};
use crate::given_files::GivenFiles;
use crate::shared_range::SharedRange;
use lake_base::digest::Digest;
use lake_format::RangeLine;
use range_file::{Row, decode};
use std::alloc::Global;
use std::collections::BTreeMap;

/// The ranges that were read of given files, by their names.
pub(crate) type Shelf = BTreeMap<Digest, SharedRange>;

/// Range `at`, of which this is said. Its file is digested and read where it isn't on the shelf, and put there.
#[tactic(auto, unfolding(crate::specs::TreeReading::read_range))]
pub(crate) fn read_range(
    alloc: Global,
    given: &GivenFiles,
    shelf: &mut Shelf,
    at: usize,
    line: &RangeLine,
) -> Result<SharedRange, TreeFault>
    requires { AreShelved given.now shelf.old.entries }
    ensures shelf { AreShelved given.now shelf.new.entries }
    ensures reads { ReadsAs (λ range. range) result (read_range given.now at line.now) }
    ensures found { IfOk result (λ range. IsRead given.now line.now range) }
{
    let range = range_named(alloc, given, shelf, at, line)?;
    if !is_said(line, range.rows()) {
        return Err(TreeFault::Mismatch(at));
    }
    Ok(range)
}

// The range of the name that is said.
fn range_named(
    alloc: Global,
    given: &GivenFiles,
    shelf: &mut Shelf,
    at: usize,
    line: &RangeLine,
) -> Result<SharedRange, TreeFault>
    requires { AreShelved given.now shelf.old.entries }
    ensures shelf { AreShelved given.now shelf.new.entries }
    ensures found { IfOk result (λ range. IsShelved given.now line.now.name range) }
    ensures fails { IfErr result (λ fault. Fails fault (read_range given.now at line.now)) }
{
    if let Some(range) = shelf.get(&line.name) {
        return Ok(range.share()?);
    }
    let range = range_in_file(alloc, given, at, line)?;
    shelf.insert(line.name, range.share()?)?;
    Ok(range)
}

// The range in the file of the name that is said.
fn range_in_file(
    alloc: Global,
    given: &GivenFiles,
    at: usize,
    line: &RangeLine,
) -> Result<SharedRange, TreeFault>
    ensures found { IfOk result (λ range. IsShelved given.now line.now.name range) }
    ensures fails { IfErr result (λ fault. Fails fault (read_range given.now at line.now)) }
{
    let bytes = read_file(&line.name, given)?;
    let rows = match decode(alloc, bytes) {
        Ok(rows) => rows,
        Err(fault) => return Err(of_range(fault, at)),
    };
    Ok(SharedRange::named(alloc, line.name, rows)?)
}

// The bytes of the file of this name, whose SHA-256 it is.
#[tactic(auto, unfolding(crate::specs::TreeReading::read_file))]
fn read_file<'a>(name: &Digest, given: &GivenFiles<'a>) -> Result<&'a [u8], TreeFault>
    ensures { ReadsAs (λ bytes. bytes.now) result (read_file name.now given.now) }
{
    whole(name, given.named(name))
}

/// These bytes of the file of a name, which has to be their SHA-256.
pub(crate) fn whole<'a>(name: &Digest, found: Option<&'a [u8]>) -> Result<&'a [u8], TreeFault>
    ensures { ReadsAs (λ bytes. bytes.now) result (whole name.now (option_copied found.entry)) }
{
    let Some(bytes) = found else {
        return Err(TreeFault::Missing(*name));
    };
    let found = Digest::of(bytes);
    if found != *name {
        return Err(TreeFault::Damaged {
            named: *name,
            found,
        });
    }
    Ok(bytes)
}

// Whether the metarange says this of the rows.
fn is_said(line: &RangeLine, rows: &[Row]) -> bool
    requires { 0 < length rows.now }
    ensures { result ≡ is_said line.now rows.now }
{
    let (first, last) = (&rows[0], &rows[rows.len() - 1]);
    rows.len() == line.rows as usize && first.path == line.first && last.path == line.last
}

//! The named segments of a path: percent-decoded, and then read.
ghost use Rattle.std.specs.Prelude.{◌≡◌, IfOk};
ghost use Rattle.percent_encoding.specs.Percent.{percent_decode};
ghost use Rattle.api_routes.specs.FormSteps.{IsRead};
ghost use Rattle.api_routes.specs.PathSegments.{repo_segment, ref_name_segment, digest_segment, expression_segment};

use crate::expression::as_expression;
use crate::fault::{FormFault, bad_value};
use crate::names::{as_digest, as_ref_name, as_repo};
use lake_base::{Digest, NoMemory, RefName, RepoName, Text, is_utf8};
use lake_calls::Expression;
use percent_encoding::percent_decode;
use std::alloc::Global;

// The bytes that a segment stands for.
fn decoded_segment(alloc: Global, segment: &[u8]) -> Result<Vec<u8>, NoMemory>
    ensures { IfOk result (λ bytes. bytes.items ≡ percent_decode segment.now) }
{
    let mut bytes = Vec::new(alloc);
    percent_decode(segment).append_to(&mut bytes)?;
    Ok(bytes)
}

/// A segment that names a repository.
pub fn repo_segment(alloc: Global, name: &str, segment: &[u8]) -> Result<RepoName, FormFault>
    ensures { IsRead (λ repo. repo) result (repo_segment name.now segment.now) }
{
    let bytes = decoded_segment(alloc, segment)?;
    as_repo(alloc, name, bytes.as_slice())
}

/// A segment that names a branch or a tag.
pub fn ref_name_segment(alloc: Global, name: &str, segment: &[u8]) -> Result<RefName, FormFault>
    ensures { IsRead (λ found. found) result (ref_name_segment name.now segment.now) }
{
    let bytes = decoded_segment(alloc, segment)?;
    as_ref_name(alloc, name, bytes.as_slice())
}

/// A segment that is a commit's id.
pub fn digest_segment(alloc: Global, name: &str, segment: &[u8]) -> Result<Digest, FormFault>
    ensures { IsRead (λ id. id) result (digest_segment name.now segment.now) }
{
    let bytes = decoded_segment(alloc, segment)?;
    as_digest(alloc, name, bytes.as_slice())
}

/// A segment that is an expression.
pub fn expression_segment(
    alloc: Global,
    name: &str,
    segment: &[u8],
) -> Result<Expression, FormFault>
    ensures { IsRead (λ expression. expression) result (expression_segment name.now segment.now) }
{
    let bytes = decoded_segment(alloc, segment)?;
    if !is_utf8(bytes.as_slice()) {
        return Err(bad_value(alloc, name));
    }
    as_expression(alloc, name, Text::from_vec(bytes))
}

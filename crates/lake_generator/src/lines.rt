//! The lines of the generator.
ghost use Rattle.std.specs.Prelude.{◌≡◌, ◌+◌, ◌*◌, ◌%◌, ◌^◌, ◌++◌, codes, IfOk, OnOk};
ghost use Rattle.std.specs.Int.{w32, w64, to_be_bytes};
ghost use Rattle.std.specs.Fmt.{decimal};
ghost use Rattle.hex.specs.Hex.{encode_lower};
ghost use Rattle.lake_generator.specs.GeneratedLines.{
  begin_line,
  branch_of,
  commit_line,
  merge_line,
  path_of,
  upload_line,
};

use lake_base::NoMemory;
use std::alloc::Global;

/// The number behind a number.
pub(crate) fn next(number: u64) -> u64
    ensures { result ≡ (number * 6364136223846793005 + 1442695040888963407) % 2 ^ 64 }
{
    number
        .wrapping_mul(6_364_136_223_846_793_005)
        .wrapping_add(1_442_695_040_888_963_407)
}

// The branch of a number.
fn branch_of(number: u64) -> &'static [u8]
    ensures { result.now ≡ branch_of number }
{
    if number < 1 << 63 {
        b"main".as_slice()
    } else {
        b"dev".as_slice()
    }
}

// The path of a number behind others.
fn push_path(line: &mut Vec<u8>, number: u64) -> Result<(), NoMemory>
    ensures { OnOk result (line.new.items ≡ line.old.items ++ path_of number) }
{
    let digits = digits_of((number / 65_536 % 16_777_216) as u32);
    line.extend_from_slice(b"p/")?;
    line.extend_from_slice(&digits[2..])?;
    Ok(())
}

// A number of 32 bits in hex.
fn digits_of(number: u32) -> [u8; 8]
    ensures { result ≡ encode_lower (to_be_bytes w32 number) }
{
    let mut digits = [0; 8];
    match hex::encode_to_slice(&number.to_be_bytes(), &mut digits) {
        Ok(()) => digits,
        Err(_) => unreachable!(),
    }
}

// A number in hex behind others.
fn push_number(line: &mut Vec<u8>, number: u64) -> Result<(), NoMemory>
    ensures { OnOk result (line.new.items ≡ line.old.items ++ encode_lower (to_be_bytes w64 number)) }
{
    let mut digits = [0; 16];
    match hex::encode_to_slice(&number.to_be_bytes(), &mut digits) {
        Ok(()) => Ok(line.extend_from_slice(digits.as_slice())?),
        Err(_) => unreachable!(),
    }
}

/// The line that uploads a number.
pub(crate) fn upload_line(alloc: Global, number: u64) -> Result<Vec<u8>, NoMemory>
    ensures { IfOk result (λ line. line.items ≡ upload_line number) }
{
    let mut line = Vec::new(alloc);
    line.extend_from_slice(b"fs upload lakefs://quickstart/")?;
    line.extend_from_slice(branch_of(number))?;
    line.extend_from_slice(b"/")?;
    push_path(&mut line, number)?;
    line.extend_from_slice(b" --text ")?;
    push_number(&mut line, number)?;
    Ok(line)
}

/// The line that commits a branch behind an upload.
pub(crate) fn commit_line(alloc: Global, branch: &[u8], at: u32) -> Result<Vec<u8>, NoMemory>
    ensures { IfOk result (λ line. line.items ≡ commit_line branch.now at) }
{
    let number = at.to_string(alloc)?;
    let mut line = Vec::new(alloc);
    line.extend_from_slice(b"commit lakefs://quickstart/")?;
    line.extend_from_slice(branch)?;
    line.extend_from_slice(b" -m g")?;
    line.extend_from_slice(number.as_bytes())?;
    Ok(line)
}

/// The line that makes dev.
pub(crate) fn begin_line(alloc: Global) -> Result<Vec<u8>, NoMemory>
    ensures { IfOk result (λ line. line.items ≡ begin_line) }
{
    let line =
        b"branch create lakefs://quickstart/dev --source lakefs://quickstart/main".as_slice();
    Ok(Vec::from_slice(alloc, line)?)
}

/// The line by which dev goes into main.
pub(crate) fn merge_line(alloc: Global) -> Result<Vec<u8>, NoMemory>
    ensures { IfOk result (λ line. line.items ≡ merge_line) }
{
    let line =
        b"merge lakefs://quickstart/dev lakefs://quickstart/main --strategy source-wins".as_slice();
    Ok(Vec::from_slice(alloc, line)?)
}

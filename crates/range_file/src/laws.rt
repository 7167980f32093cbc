//! What holds of every range and its file.
ghost use Rattle.std.specs.Prelude.{◌≡◌, ◌≢◌, ◌<◌, ◌++◌, ℕ, List, length, Ok, Err};
ghost use Rattle.lake_format.specs.Spelling.{range_spelling, IsRange, AreBytes};
ghost use Rattle.range_file.specs.Rows.{RowValue};
ghost use Rattle.range_file.specs.RangeReading.{IsSettled, range_from};
ghost use Rattle.range_file.specs.declared.fault.RangeFault.{RangeFault as AnyFault};
ghost use Rattle.range_file.specs.declared.fault.RangeFault.TheVariants.{Truncated, Trailing, NoMemory};

/// What is spelled is read again. So no two lists of rows share a spelling. What is read is spelled so. (A law: it
/// does nothing.)
pub fn laws_of_ranges()
    ensures again { (rows : List RowValue) → IsRange rows
        → range_from (range_spelling rows) ≡ Ok rows }
    ensures apart { (rows others : List RowValue) → IsRange rows → IsRange others
        → range_spelling rows ≡ range_spelling others → rows ≡ others }
    ensures found { (bytes : List ℕ) (rows : List RowValue) → AreBytes bytes
        → range_from bytes ≡ Ok rows → IsRange rows × (bytes ≡ range_spelling rows) }
{}

/// Each shorter front of a range's file is truncated at its length, and what follows the file is trailing. Version,
/// Empty, BadRow and Order stay what they are, whatever follows. Reading, as it is defined, doesn't run out of
/// memory. (A law: it does nothing.)
pub fn laws_of_faults()
    ensures fronts { (rows : List RowValue) (front rest : List ℕ) → IsRange rows
        → range_spelling rows ≡ front ++ rest → 0 < length rest
        → range_from front ≡ Err (Truncated (length front)) }
    ensures trailing { (rows : List RowValue) (rest : List ℕ) → IsRange rows → 0 < length rest
        → range_from (range_spelling rows ++ rest) ≡ Err (Trailing (length rest)) }
    ensures settled { (bytes more : List ℕ) (fault : AnyFault) → IsSettled fault
        → range_from bytes ≡ Err fault → range_from (bytes ++ more) ≡ Err fault }
    ensures sure { (bytes : List ℕ) → range_from bytes ≢ Err NoMemory }
{}

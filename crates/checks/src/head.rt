// The header and the room for the offsets: rows 1 to 6, then 7 for the offsets.
ghost use Rattle.std.specs.Prelude.{◌≡◌, ◌^◌, ◌≤◌, ◌<◌, length};
ghost use Rattle.rules.specs.Kind.{max_values};
ghost use Rattle.rules.specs.Page.{s_of, count_of, vectors_of};
ghost use Rattle.rules.specs.Verdict.{fine, verdict};
ghost use Rattle.rules.specs.Read.{head_rows, offsets_row};
ghost use Rattle.checks.specs.Forms.{as_verdict};

use crate::check::{Refusal, refuses};
use crate::sizes::{MAX_S, MAX_VALUES, MIN_S, size_of, vectors_of};
use bits::word::Word;
use rules::Row;

// The header's s.
pub fn s_of(page: &[u8]) -> usize
    requires { 8 ≤ length page.now }
    ensures { result ≡ s_of page.now }
{
    usize::from(page[3])
}

// The header's count of values.
pub fn count_of(page: &[u8]) -> usize
    requires { 8 ≤ length page.now }
    ensures { (result ≡ count_of page.now) × (result < 2 ^ 32) }
{
    u32::read(page, 4) as usize
}

// The count of vectors, on a page whose rows 1 to 6 pass.
pub fn vectors_in(page: &[u8]) -> usize
    requires { verdict (head_rows page.now) ≡ fine }
    ensures { (result ≡ vectors_of page.now) × (result ≤ max_values) }
{
    let s = s_of(page);
    let n = count_of(page);
    let size = size_of(s);
    vectors_of(n, size)
}

// Rows 1 to 6.
pub fn check_head(page: &[u8]) -> Result<(), Refusal>
    ensures { as_verdict result ≡ verdict (head_rows page.now) }
{
    if page.len() < 8 {
        return refuses(Row::FewBytes, 0, 0);
    }
    if page[0] != 1 {
        return refuses(Row::Version, 0, 0);
    }
    if page[1] != 0 {
        return refuses(Row::Mode, 0, 0);
    }
    if page[2] != 0 {
        return refuses(Row::IntegerEncoding, 0, 0);
    }
    let s = s_of(page);
    if s < MIN_S || MAX_S < s {
        return refuses(Row::VectorSize, 0, 0);
    }
    let n = count_of(page);
    if MAX_VALUES < n {
        return refuses(Row::TooManyValues, 0, 0);
    }
    Ok(())
}

// Row 7 for the offsets, once rows 1 to 6 pass.
pub fn check_offsets(page: &[u8]) -> Result<(), Refusal>
    requires { verdict (head_rows page.now) ≡ fine }
    ensures { as_verdict result ≡ verdict (offsets_row page.now) }
{
    let many = vectors_in(page);
    if page.len() < 8 + 4 * many {
        return refuses(Row::PastEnd, 0, 0);
    }
    Ok(())
}

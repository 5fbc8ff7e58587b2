// All vectors of a page in turn, then 14; and the check of a whole page.
ghost use Rattle.std.specs.Prelude.{◌≡◌, ◌^◌};
ghost use Rattle.rules.specs.Page.{s_of, offsets_of, body_of};
ghost use Rattle.rules.specs.Verdict.{fine, verdict};
ghost use Rattle.rules.specs.Read.{head_rows, offsets_row, start, vectors_rows, page_rows};
ghost use Rattle.rules.specs.Coded.{format_of};
ghost use Rattle.checks.specs.Forms.{as_verdict};

use crate::check::{Refusal, refuses};
use crate::head::{check_head, check_offsets, count_of, s_of, vectors_in};
use crate::sizes::{size_of, vector_size};
use crate::vector::{Cursor, check_vector, meta_at, values_here};
use bits::word::Word;
use rules::{Kind, Row};

// Each vector in turn, then row 14, once the rows before them pass.
pub fn check_vectors(page: &[u8], kind: Kind) -> Result<(), Refusal>
    requires { (verdict (head_rows page.now) ≡ fine) × (verdict (offsets_row page.now) ≡ fine) }
    ensures { as_verdict result ≡ verdict (vectors_rows (format_of kind) (2 ^ s_of page.now) (start page.now) (offsets_of page.now) (body_of page.now)) }
{
    let s = s_of(page);
    let size = size_of(s);
    let many = vectors_in(page);
    let mut at: usize = 4 * many;
    let mut left = count_of(page);
    for v in 0..many {
        let offset = u32::read(page, 8 + 4 * v) as usize;
        let from = 8 + at;
        let part = &page[from..];
        let cursor = Cursor {
            vector: v,
            offset: at,
            left,
        };
        check_vector(part, kind, size, cursor, offset)?;
        let m = meta_at(part, kind);
        let n = values_here(size, cursor);
        at += vector_size(kind, n, m.width, m.listed);
        left -= n;
    }
    if 8 + at < page.len() {
        return refuses(Row::BytesAfter, 0, 0);
    }
    Ok(())
}

// Rows 1 to 14 and 17, of any bytes.
pub fn check_page(page: &[u8], kind: Kind) -> Result<(), Refusal>
    ensures { as_verdict result ≡ verdict (page_rows (format_of kind) page.now) }
{
    check_head(page)?;
    check_offsets(page)?;
    check_vectors(page, kind)
}

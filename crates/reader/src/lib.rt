// The reader. Rows 1 to 14 and 17 are the check of a page's layout, then comes 15; nothing is written before all have passed. Then each
// vector is read into its part of the output.
#![tactic(auto)]

ghost use Rattle.std.specs.Prelude.{◌≡◌, ◌≤◌, length};
ghost use Rattle.digits.specs.Lists.{over};
ghost use Rattle.rules.specs.Coded.{format_of};
ghost use Rattle.rules.specs.Page.{count_of};
ghost use Rattle.rules.specs.Verdict.{row, fine, verdict, the_page, ◌below◌};
ghost use Rattle.rules.specs.Read.{read_rows, values_of};
ghost use Rattle.rules.specs.Calls.{Read};
ghost use Rattle.checks.specs.Forms.{as_verdict, answered};

use checks::check::{Refusal, answer_of, refuses};
use checks::head::{count_of, s_of, vectors_in};
use checks::page::check_page;
use checks::sizes::{size_of, vector_size};
use checks::vector::meta_at;
use decimal::value::Value;
use decode::vector::read_vector;
use rules::{Answer, Kind, Row};

// Row 15, of bytes that have a header: the output is shorter than the count of values. Fewer bytes are refused by row 1.
fn check_room(page: &[u8], room: usize) -> Result<(), Refusal>
    ensures { 8 ≤ length page.now → as_verdict result ≡ verdict (row 15 the_page (room below count_of page.now)) }
{
    if 8 <= page.len() && room < count_of(page) {
        return refuses(Row::OutputTooShort, 0, 0);
    }
    Ok(())
}

// Rows 1 to 14 and 17, then 15.
fn check_read(page: &[u8], kind: Kind, room: usize) -> Result<(), Refusal>
    ensures { as_verdict result ≡ verdict (read_rows (format_of kind) room page.now) }
{
    check_page(page, kind).and(check_room(page, room))
}

// Each vector in turn, to the front of the output; what lies past the count of values stays.
fn read_vectors<V: Value>(page: &[u8], out: &mut [V])
    requires { verdict (read_rows (format_of V.KIND) (length out.old) page.now) ≡ fine }
    ensures { V.as_numbers out.new ≡ over (values_of (format_of V.KIND) page.now) (V.as_numbers out.old) }
{
    let size = size_of(s_of(page));
    let many = vectors_in(page);
    let mut at = 4 * many;
    let mut left = count_of(page);
    let mut start: usize = 0;
    for _ in 0..many {
        let n = size.min(left);
        let part = &page[8 + at..];
        let m = meta_at(part, V::KIND);
        let end = start + n;
        read_vector(part, m, &mut out[start..end]);
        at += vector_size(V::KIND, n, m.width, m.listed);
        left -= n;
        start = end;
    }
}

// The count of values, once they are read.
fn try_read<V: Value>(page: &[u8], out: &mut [V]) -> Result<usize, Refusal>
    ensures { Read (format_of V.KIND) page.now (V.as_numbers out.old) (answered result) (V.as_numbers out.new) }
{
    check_read(page, V::KIND, out.len())?;
    read_vectors(page, out);
    Ok(count_of(page))
}

// The values of a page as bit patterns: of 64-bit floats into `u64`s, of 32-bit floats into `u32`s, of any bytes and into any output.
pub fn read<V: Value>(page: &[u8], out: &mut [V]) -> Answer
    ensures { Read (format_of V.KIND) page.now (V.as_numbers out.old) result (V.as_numbers out.new) }
{
    answer_of(try_read(page, out))
}

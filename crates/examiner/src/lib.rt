// The examiner: the reader's rows without 15; only then rows 20 to 24, vector by vector. It takes any bytes and writes nothing.
#![tactic(auto)]

ghost use Rattle.std.specs.Prelude.{◌≡◌};
ghost use Rattle.rules.specs.Coded.{format_of};
ghost use Rattle.rules.specs.Page.{raws_of};
ghost use Rattle.rules.specs.Verdict.{fine, verdict};
ghost use Rattle.rules.specs.Read.{page_rows};
ghost use Rattle.rules.specs.Examine.{all_rules_rows, examine_rows};
ghost use Rattle.rules.specs.Calls.{Examined};
ghost use Rattle.checks.specs.Forms.{as_verdict, answered};

use checks::check::{Refusal, answer_of};
use checks::head::{count_of, s_of, vectors_in};
use checks::page::check_page;
use checks::sizes::{size_of, vector_size};
use checks::vector::meta_at;
use decimal::value::Value;
use inspect::vector::inspect_vector;
use rules::Answer;

// Rows 20 to 24 of each vector in turn, on a page whose layout has been checked.
fn examine_vectors<V: Value>(page: &[u8]) -> Result<(), Refusal>
    requires { verdict (page_rows (format_of V.KIND) page.now) ≡ fine }
    ensures { as_verdict result ≡ verdict (all_rules_rows (format_of V.KIND) 0 (raws_of (format_of V.KIND) page.now)) }
{
    let size = size_of(s_of(page));
    let many = vectors_in(page);
    let mut at = 4 * many;
    let mut left = count_of(page);
    for v in 0..many {
        let n = size.min(left);
        let part = &page[8 + at..];
        inspect_vector::<V>(part, v, n)?;
        let m = meta_at(part, V::KIND);
        at += vector_size(V::KIND, n, m.width, m.listed);
        left -= n;
    }
    Ok(())
}

// All rows in their order.
fn examine_rows<V: Value>(page: &[u8]) -> Result<(), Refusal>
    ensures { as_verdict result ≡ verdict (examine_rows (format_of V.KIND) page.now) }
{
    check_page(page, V::KIND)?;
    examine_vectors::<V>(page)
}

// The count of values, of a page that passes.
fn try_examine<V: Value>(page: &[u8]) -> Result<usize, Refusal>
    ensures { Examined (format_of V.KIND) page.now (answered result) }
{
    examine_rows::<V>(page)?;
    Ok(count_of(page))
}

// Whether the bytes are the page of some values of the kind, with settings inside the limits.
pub fn examine<V: Value>(page: &[u8]) -> Answer
    ensures { Examined (format_of V.KIND) page.now result }
{
    answer_of(try_examine::<V>(page))
}

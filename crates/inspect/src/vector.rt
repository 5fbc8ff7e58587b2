// One vector at the front of a part of a page: its rows 20 to 24 in their order.
ghost use Rattle.std.specs.Prelude.{◌≡◌, ◌^◌, ◌≤◌};
ghost use Rattle.rules.specs.Kind.{max_s};
ghost use Rattle.rules.specs.Coded.{format_of};
ghost use Rattle.rules.specs.Page.{meta_at};
ghost use Rattle.rules.specs.Verdict.{verdict};
ghost use Rattle.rules.specs.Examine.{rules_rows};
ghost use Rattle.rules.proofs.Reading.{Passed};
ghost use Rattle.checks.specs.Forms.{as_verdict, raw_at};
ghost use Rattle.inspect.specs.Looked.{raw_of};

use crate::rows::{check_stand_ins, check_unused};
use crate::walk::{Fields, Lists, Vector};
use checks::check::Refusal;
use checks::kind::meta_bytes;
use checks::sizes::packed_size;
use checks::vector::meta_at;
use decimal::scale::scale_of;
use decimal::value::Value;
use std::marker::PhantomData;

// The lowest row that refuses, at its first position.
fn check_rules<V: Value>(vector: &Vector<V>) -> Result<(), Refusal>
    ensures { as_verdict result ≡ verdict (rules_rows (format_of V.KIND) vector.now.number (raw_of vector.now)) }
{
    let number = vector.number;
    let fields = &vector.fields;
    let lists = &vector.lists;
    check_unused(fields.packed, fields.width, fields.count, number)
        .and(vector.check_strays())
        .and(lists.check_needless(&vector.scale, number))
        .and(check_stand_ins(fields, lists, number))
        .and(fields.check_frame(number))
}

// Rows 20 to 24 of vector v of n values, whose layout has been checked.
pub fn inspect_vector<V: Value>(part: &[u8], v: usize, n: usize) -> Result<(), Refusal>
    requires { (n ≤ 2 ^ max_s) × Passed (format_of V.KIND) n (meta_at (format_of V.KIND) part.now) part.now }
    ensures { as_verdict result ≡ verdict (rules_rows (format_of V.KIND) v (raw_at (format_of V.KIND) n part.now)) }
{
    let meta = meta_at(part, V::KIND);
    let front = meta_bytes(V::KIND);
    let end = front + packed_size(n, meta.width);
    let vector = Vector {
        number: v,
        fields: Fields {
            count: n,
            width: meta.width,
            frame: V::from_number(meta.frame),
            packed: &part[front..end],
        },
        lists: Lists {
            count: n,
            listed: meta.listed,
            bytes: &part[end..],
            kind: PhantomData,
        },
        scale: scale_of(meta.pair),
    };
    check_rules(&vector)
}

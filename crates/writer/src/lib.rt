// Measuring and writing a page: the public calls.
#![tactic(auto)]

mod refusals; // refusals.rt: the rows, in their order
mod length; // length.rt: how long the page will be
mod page; // page.rt: the page itself

ghost use Rattle.rules.specs.Coded.{format_of};
ghost use Rattle.rules.specs.Calls.{Measured, Written};
ghost use Rattle.checks.specs.Forms.{answered};

use crate::length::measure_page;
use crate::page::write_page;
use crate::refusals::{check_room, check_settings};
use checks::check::{Refusal, answer_of};
use decimal::value::Value;
use rules::Answer;

// The page's length, of settings that pass.
fn try_measure<V: Value>(values: &[V], s: u8, pairs: &[u8]) -> Result<usize, Refusal>
    ensures { Measured (format_of V.KIND) (V.as_numbers values.now) s pairs.now (answered result) }
{
    check_settings(V::KIND, values.len(), s, pairs)?;
    let found = measure_page(values, s, pairs);
    Ok(found.size) // not a bound
}

// The rows of the writer less 15, and as place the page's length. `pairs` has two bytes a vector, exponent then factor.
pub fn measure<V: Value>(values: &[V], s: u8, pairs: &[u8]) -> Answer
    ensures { Measured (format_of V.KIND) (V.as_numbers values.now) s pairs.now result }
{
    answer_of(try_measure(values, s, pairs))
}

// The page's length, once it is written.
fn try_write<V: Value>(values: &[V], s: u8, pairs: &[u8], out: &mut [u8]) -> Result<usize, Refusal>
    ensures { Written (format_of V.KIND) (V.as_numbers values.now) s pairs.now out.old (answered result) out.new }
{
    check_settings(V::KIND, values.len(), s, pairs)?;
    let found = measure_page(values, s, pairs);
    check_room(out.len(), found.size)?; // nothing was written
    Ok(write_page(values, s, pairs, found.records, out))
}

// The page of the values, at the front of `out`, and as place its length. A refusal writes nothing.
pub fn write<V: Value>(values: &[V], s: u8, pairs: &[u8], out: &mut [u8]) -> Answer
    ensures { Written (format_of V.KIND) (V.as_numbers values.now) s pairs.now out.old result out.new }
{
    answer_of(try_write(values, s, pairs, out))
}

// Each call on what a request brings.
ghost use Rattle.std.specs.Prelude.{◌≡◌, length};

use crate::frames::{Broken, Call, Request, Wire};
use crate::rooms::{MOST_BYTES, MOST_PAIRS, MOST_VALUES, Rooms};
use bits::word::Word;
use chooser::choose;
use decimal::value::Value;
use examiner::examine;
use reader::read;
use vector_reader::read_vector;
use writer::{measure, write};

// How long the number of a vector is.
const NUMBER_BYTES: usize = 8;

// `values` is the room for values of the kind.
pub fn serve<V: Value>(
    wire: &mut Wire,
    rooms: Rooms,
    values: &mut [V],
    r: Request,
) -> Result<(), Broken>
    requires { length values.old ≡ 16400 }
{
    match r.call {
        Call::Measure => serve_measure(wire, rooms, values, r),
        Call::Write => serve_write(wire, rooms, values, r),
        Call::Read => serve_read(wire, rooms, values, r),
        Call::Examine => serve_examine::<V>(wire, rooms, r),
        Call::ReadVector => serve_read_vector(wire, rooms, values, r),
        Call::Choose => serve_choose(wire, rooms, values, r),
    }
}

// A column and its pairs.
fn serve_measure<V: Value>(
    wire: &mut Wire,
    rooms: Rooms,
    values: &mut [V],
    r: Request,
) -> Result<(), Broken>
    requires { length values.old ≡ 16400 }
{
    r.limit(MOST_VALUES, MOST_PAIRS, 0)?;
    let Rooms { pairs, raw, .. } = rooms;
    let values = &mut values[..r.a];
    let pairs = &mut pairs[..r.b];
    wire.fill_values(values, raw)?;
    wire.fill(pairs)?;
    wire.answer(measure(values, r.s, pairs))?;
    Ok(())
}

// A column, its pairs, and an output in bytes.
fn serve_write<V: Value>(
    wire: &mut Wire,
    rooms: Rooms,
    values: &mut [V],
    r: Request,
) -> Result<(), Broken>
    requires { length values.old ≡ 16400 }
{
    r.limit(MOST_VALUES, MOST_PAIRS, MOST_BYTES)?;
    let Rooms { page, pairs, raw } = rooms;
    let values = &mut values[..r.a];
    let pairs = &mut pairs[..r.b];
    let out = &mut page[..r.c];
    wire.fill_values(values, raw)?;
    wire.fill(pairs)?;
    wire.fill(out)?;
    wire.answer(write(values, r.s, pairs, out))?;
    wire.give(out)?;
    Ok(())
}

// A page, and an output in values.
fn serve_read<V: Value>(
    wire: &mut Wire,
    rooms: Rooms,
    values: &mut [V],
    r: Request,
) -> Result<(), Broken>
    requires { length values.old ≡ 16400 }
{
    r.limit(MOST_BYTES, 0, MOST_VALUES)?;
    let Rooms { page, raw, .. } = rooms;
    let page = &mut page[..r.a];
    let out = &mut values[..r.c];
    wire.fill(page)?;
    wire.fill_values(out, raw)?;
    wire.answer(read(page, out))?;
    wire.give_values(out, raw)?;
    Ok(())
}

// A page, the number of one of its vectors, and an output in values.
fn serve_read_vector<V: Value>(
    wire: &mut Wire,
    rooms: Rooms,
    values: &mut [V],
    r: Request,
) -> Result<(), Broken>
    requires { length values.old ≡ 16400 }
{
    r.limit(MOST_BYTES, NUMBER_BYTES, MOST_VALUES)?;
    if r.b != NUMBER_BYTES {
        return Err(Broken::Request);
    }
    let Rooms { page, raw, .. } = rooms;
    let page = &mut page[..r.a];
    let out = &mut values[..r.c];
    let mut number = [0; NUMBER_BYTES];
    wire.fill(page)?;
    wire.fill(&mut number)?;
    wire.fill_values(out, raw)?;
    let vector = u64::read(&number, 0) as usize;
    wire.answer(read_vector(page, vector, out))?;
    wire.give_values(out, raw)?;
    Ok(())
}

// A page.
fn serve_examine<V: Value>(wire: &mut Wire, rooms: Rooms, r: Request) -> Result<(), Broken> {
    r.limit(MOST_BYTES, 0, 0)?;
    let Rooms { page, .. } = rooms;
    let page = &mut page[..r.a];
    wire.fill(page)?;
    wire.answer(examine::<V>(page))?;
    Ok(())
}

// The values of a vector.
fn serve_choose<V: Value>(
    wire: &mut Wire,
    rooms: Rooms,
    values: &mut [V],
    r: Request,
) -> Result<(), Broken>
    requires { length values.old ≡ 16400 }
{
    r.limit(MOST_VALUES, 0, 0)?;
    let Rooms { raw, .. } = rooms;
    let values = &mut values[..r.a];
    wire.fill_values(values, raw)?;
    wire.choice(choose(values))?;
    Ok(())
}

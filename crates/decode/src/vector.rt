// One vector's bytes to its values. The part is the page from the vector's start on, and as many values are lent as the vector holds.
ghost use Rattle.std.specs.Prelude.{◌≡◌, length};
ghost use Rattle.rules.specs.Coded.{format_of};
ghost use Rattle.decode.specs.Readable.{Readable, values_at};

use crate::listed::put_listed;
use bits::windows::unpack;
use checks::kind::meta_bytes;
use checks::sizes::packed_size;
use checks::vector::Meta;
use decimal::back::turn;
use decimal::scale::scale_of;
use decimal::value::Value;

pub fn read_vector<V: Value>(part: &[u8], m: Meta, out: &mut [V])
    requires { Readable (format_of V.KIND) (length out.old) part.now m }
    ensures { V.as_numbers out.new ≡ values_at (format_of V.KIND) (length out.old) part.now }
{
    let front = meta_bytes(V::KIND);
    let behind = front + packed_size(out.len(), m.width);
    unpack(&part[front..behind], m.width, out);
    turn(out, V::from_number(m.frame), &scale_of(m.pair));
    put_listed(part, behind, m.listed, out);
}

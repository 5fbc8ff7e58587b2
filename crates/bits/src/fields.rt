// Packed fields written one after the other, straight into the part of the output that they fill: `clear` it, then `put` each field at
// the bit where the last one ended. The part is then `pack` of the fields (`Packing` in the proofs of `digits`).
ghost use Rattle.std.specs.Prelude.{◌≡◌, ◌+◌, ◌*◌, ◌^◌, ◌≤◌, ◌<◌, length, replicate};
ghost use Rattle.std.specs.Float.Ieee.{size};
ghost use Rattle.digits.specs.Digits.{number};

// Every byte becomes 0.
pub fn clear(out: &mut [u8])
    ensures { out.new ≡ replicate (length out.old) 0 }
{
    out.fill(0);
}

// The number v from byte `at` on, where all is 0 from there on and there is room for it.
fn put_bytes(out: &mut [u8], at: usize, v: u64)
    requires { (number out.old < 256 ^ at) × (v * 256 ^ at < 256 ^ length out.old) }
    ensures { number out.new ≡ v * 256 ^ at + number out.old }
{
    // No `for`: it ends when nothing of v is left, and only the bytes themselves say when that is.
    let mut rest = v;
    let mut i = at;
    while 0 < rest {
        out[i] = (rest % 256) as u8;
        rest = rest / 256;
        i += 1;
    }
}

// The field v from bit `start` on, where all is 0 from there on and there is room for v's bits. What stands below `start` stays: the
// number that the slice spells, and its length, settle every byte. A field that is 0 changes nothing, and needs no byte.
pub fn put(out: &mut [u8], start: usize, v: u64)
    requires { (start + size v ≤ 8 * length out.old) × (number out.old < 2 ^ start) }
    ensures { number out.new ≡ v * 2 ^ start + number out.old }
{
    if 0 < v {
        let first = start / 8;
        let skip = start % 8;
        let low = ((v << skip) % 256) as u8;
        out[first] = out[first] + low;
        put_bytes(out, first + 1, v >> (8 - skip));
    }
}

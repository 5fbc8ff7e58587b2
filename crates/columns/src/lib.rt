// A column's file form: its values' bit patterns as little-endian words of 4 or 8 bytes, one after the other. Bytes to values and back.
#![tactic(auto)]

ghost use Rattle.std.specs.Prelude.{◌≡◌, ◌*◌, ◌≤◌, length};
ghost use Rattle.digits.specs.Digits.{les, numbers};
ghost use Rattle.digits.specs.Lists.{over};

use bits::word::Word;

// As many words as `out` has places, from the first byte on.
pub fn words<W: Word>(bytes: &[u8], out: &mut [W])
    requires { W.BYTES * length out.old ≤ length bytes.now }
    ensures { W.as_numbers out.new ≡ numbers W.BYTES (length out.old) bytes.now }
{
    let mut at: usize = 0;
    for place in out.iter_mut() {
        *place = W::read(bytes, at);
        at += W::BYTES;
    }
}

// The words to the front of `out`; what stands behind them stays.
pub fn bytes<W: Word>(words: &[W], out: &mut [u8])
    requires { W.BYTES * length words.now ≤ length out.old }
    ensures { out.new ≡ over (les W.BYTES (W.as_numbers words.now)) out.old }
{
    let mut at: usize = 0;
    for word in words {
        word.store(out, at);
        at += W::BYTES;
    }
}

// The listed exceptions of a vector, put one by one as words: a listed position's bits never pass through a float.
ghost use Rattle.std.specs.Prelude.{◌≡◌, ◌+◌, ◌*◌, ◌≤◌, ◌<◌, length, drop};
ghost use Rattle.digits.specs.Digits.{numbers};
ghost use Rattle.digits.specs.Lists.{Each};
ghost use Rattle.rules.proofs.Marks.{replaced};

use bits::word::Word;

// Each listed position takes its stored bits. The positions stand from byte `at` on, the bits right behind them.
pub fn put_listed<W: Word>(part: &[u8], at: usize, listed: usize, out: &mut [W])
    requires { (at + listed * (2 + W.BYTES) ≤ length part.now) × Each (λ (p : _). p < length out.old) (numbers 2 listed (drop at part.now)) }
    ensures { W.as_numbers out.new ≡ replaced (numbers 2 listed (drop at part.now)) (numbers W.BYTES listed (drop (at + 2 * listed) part.now)) (W.as_numbers out.old) }
{
    let behind = at + 2 * listed;
    for i in 0..listed {
        let position = usize::from(u16::read(part, at + 2 * i));
        out[position] = W::read(part, behind + W::BYTES * i);
    }
}

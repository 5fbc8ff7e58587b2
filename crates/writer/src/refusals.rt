// The writer's rows. Those of the settings stand once for both kinds: of the values they know the count n alone.
ghost use Rattle.std.specs.Prelude.{◌≡◌, ◌+◌, ◌*◌, ◌≤◌, List, ℕ, length};
ghost use Rattle.rules.specs.Verdict.{verdict, row, the_page, ◌below◌};
ghost use Rattle.rules.specs.Write.{pairs_of, pairs_rows, settings_rows};
ghost use Rattle.rules.specs.Coded.{format_of, as_pair};
ghost use Rattle.checks.specs.Forms.{as_verdict};
ghost use Rattle.writer.specs.Settled.{EveryColumn};
ghost use Rattle.writer.specs.Recorded.{pair_at};

use checks::check::{Refusal, refuses};
use checks::sizes::{MAX_S, MAX_VALUES, MIN_S, size_of, vectors_of};
use checks::vector::check_pair;
use rules::{Exponent, Factor, Kind, Pair, Row};

// The pair of vector v: its exponent, then its factor.
pub fn pair_of(pairs: &[u8], v: usize) -> Pair
    requires { 2 * v + 2 ≤ length pairs.now }
    ensures { as_pair result ≡ pair_at pairs.now (2 * v) }
{
    Pair {
        exponent: Exponent(pairs[2 * v]),
        factor: Factor(pairs[2 * v + 1]),
    }
}

// Rows 9 and 10, vector by vector.
fn check_pairs(kind: Kind, pairs: &[u8]) -> Result<(), Refusal>
    ensures { as_verdict result ≡ verdict (pairs_rows (format_of kind) 0 (pairs_of pairs.now)) }
{
    for v in 0..pairs.len() / 2 {
        check_pair(kind, v, pair_of(pairs, v))?;
    }
    Ok(())
}

// Rows 5, 6, 16, then 9 and 10.
pub fn check_settings(kind: Kind, n: usize, s: u8, pairs: &[u8]) -> Result<(), Refusal>
    ensures { EveryColumn n (λ (vs : List ℕ). as_verdict result ≡ verdict (settings_rows (format_of kind) s pairs.now vs)) }
{
    let power = usize::from(s);
    if power < MIN_S || MAX_S < power {
        return refuses(Row::VectorSize, 0, 0);
    }
    if MAX_VALUES < n {
        return refuses(Row::TooManyValues, 0, 0);
    }
    let count = vectors_of(n, size_of(power));
    if pairs.len() != 2 * count {
        return refuses(Row::Pairs, 0, 0);
    }
    check_pairs(kind, pairs)
}

// Row 15: the output is shorter than the page.
pub fn check_room(room: usize, size: usize) -> Result<(), Refusal>
    ensures { as_verdict result ≡ verdict (row 15 the_page (room below size)) }
{
    if room < size {
        return refuses(Row::OutputTooShort, 0, 0);
    }
    Ok(())
}

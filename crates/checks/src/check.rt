// What a check gives: Ok, or the first row that refuses and where. `a.and(b)` is the first of two checks that refuses.
ghost use Rattle.std.specs.Prelude.{◌≡◌};
ghost use Rattle.rules.specs.Verdict.{refuse, in_vector_at};
ghost use Rattle.rules.specs.Coded.{number_of};
ghost use Rattle.checks.specs.Forms.{as_verdict, answered};

use rules::{Answer, Row};

// The row, and where: the vector and the place that it names, each 0 where it names none.
#[derive(Clone, Copy)]
pub struct Refusal {
    pub row: Row,
    pub vector: usize,
    pub place: usize,
}

// The row refuses, at this vector and place.
pub fn refuses(row: Row, vector: usize, place: usize) -> Result<(), Refusal>
    ensures { as_verdict result ≡ refuse (number_of row) (in_vector_at vector place) }
{
    Err(Refusal { row, vector, place })
}

// What a call answers: done, with a count as place, or the refusal.
pub fn answer_of(called: Result<usize, Refusal>) -> Answer
    ensures { result ≡ answered called }
{
    match called {
        Ok(place) => Answer {
            number: 0,
            vector: 0,
            place: place as u64,
        },
        Err(refusal) => Answer {
            number: refusal.row as u64,
            vector: refusal.vector as u64,
            place: refusal.place as u64,
        },
    }
}

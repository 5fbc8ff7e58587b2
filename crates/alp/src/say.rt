// What the tool says of itself: why it did nothing, and the help.
use checks::check::{Refusal, answer_of};
use files::Complained;
use rules::{Answer, Kind};
use sentences::{Output, refusal};

// The tool's name, before a complaint.
pub const WHO: &[u8] = b"alp";

// Why the tool did not do what it was asked.
#[derive(Clone, Copy)]
pub enum Failure {
    Usage(&'static str), // what the words should have been
    UnevenColumn(Kind),
    LongFile,
    Refused(Answer),
    Complained, // standard error has it already
}

impl From<Complained> for Failure {
    fn from(_: Complained) -> Failure {
        Failure::Complained
    }
}

impl From<Refusal> for Failure {
    fn from(refusal: Refusal) -> Failure {
        Failure::Refused(answer_of(Err(refusal)))
    }
}

// Done's place, or the refusal.
pub fn place(answer: Answer) -> Result<usize, Failure> {
    match answer.number {
        0 => Ok(answer.place as usize),
        _ => Err(Failure::Refused(answer)),
    }
}

pub fn tell(to: &mut Output, failure: Failure) {
    match failure {
        Failure::Usage(wanted) => {
            to.complain(WHO);
            to.complain(b": ");
            to.complain(wanted.as_bytes());
            to.complain(b"; alp help says more\n");
        }
        // a whole line in one write, so that no other program's comes between
        Failure::UnevenColumn(Kind::Single) => {
            to.complain(b"alp: the column's length is no whole number of 32-bit values\n");
        }
        Failure::UnevenColumn(Kind::Double) => {
            to.complain(b"alp: the column's length is no whole number of 64-bit values\n");
        }
        Failure::LongFile => {
            to.complain(b"alp: the file is longer than any page, so no vector of it is read\n");
        }
        Failure::Refused(answer) => refusal(to, answer),
        Failure::Complained => {}
    }
}

pub const HELP: &str = "alp: pages of ALP-encoded float columns that give back every bit or say no

  alp write KIND S E F COLUMN PAGE   write the page of a column, vectors of 2^S values, exponent E, factor F
  alp write KIND S auto COLUMN PAGE  the same, E and F chosen for each vector so that it has the fewest bytes
  alp read KIND PAGE COLUMN          read a page back to its column
  alp read KIND PAGE COLUMN NUMBER   read one vector of a page alone, to a column of its values
  alp examine KIND PAGE              say whether the file is a page, and of how many values, or why not
  alp show KIND PAGE                 the same, after a table of the header and of each vector
  alp help                           this text

KIND is 32 or 64. A column file is raw little-endian floats, at most 16,384 of them. S is 3 to 10, E at most 10 or 18
by the kind, F at most E. COLUMN and PAGE are made anew: a file that exists is never overwritten.
NUMBER counts a page's vectors from 0 and is below 2^64. No vector is read from a file of more than 329,736 bytes,
the most that a page has.

An answer is three numbers and a sentence: 0, 0 and a count for done; else the number of the row that refuses, the
vector and the place, as in \"8 2 0: vector 2: an offset differs from the layout's\". After a refusal no file is left.
";

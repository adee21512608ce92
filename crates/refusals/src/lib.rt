// Why a job is refused: the table of refusals, the number, the line and the length of each case, and the line that is printed for it.
#![tactic(auto)]

ghost use Rattle.std.specs.Prelude.{◌≡◌, ◌-◌, length};
ghost use Rattle.refusals.specs.Refusal.{number_of, line_of, needed_of};

use std::fmt;

// Each case but the first and the last holds the number of its line; the last holds the length needed.
#[derive(Clone, Copy)]
pub enum Refusal {
    TooLong,
    BadLine(usize),
    BadFrame(usize),
    Misplaced(usize),
    BadText(usize),
    OverLimit(usize),
    UnknownMap(usize),
    NoRoom(usize),
}

impl Refusal {
    // The refusal's number in the table.
    pub fn number(self) -> u32
        ensures { result ≡ number_of self }
    {
        match self {
            Refusal::TooLong => 1,
            Refusal::BadLine(_) => 2,
            Refusal::BadFrame(_) => 3,
            Refusal::Misplaced(_) => 4,
            Refusal::BadText(_) => 5,
            Refusal::OverLimit(_) => 6,
            Refusal::UnknownMap(_) => 7,
            Refusal::NoRoom(_) => 8,
        }
    }

    // The line that it is about, 0 if it is about none.
    pub fn line(self) -> usize
        ensures { result ≡ line_of self }
    {
        match self {
            Refusal::TooLong => 0,
            Refusal::BadLine(l) => l,
            Refusal::BadFrame(l) => l,
            Refusal::Misplaced(l) => l,
            Refusal::BadText(l) => l,
            Refusal::OverLimit(l) => l,
            Refusal::UnknownMap(l) => l,
            Refusal::NoRoom(_) => 0,
        }
    }

    // The length that the object needs, 0 in every refusal but the last.
    pub fn needed(self) -> usize
        ensures { result ≡ needed_of self }
    {
        match self {
            Refusal::TooLong => 0,
            Refusal::BadLine(_) => 0,
            Refusal::BadFrame(_) => 0,
            Refusal::Misplaced(_) => 0,
            Refusal::BadText(_) => 0,
            Refusal::OverLimit(_) => 0,
            Refusal::UnknownMap(_) => 0,
            Refusal::NoRoom(n) => n,
        }
    }
}

// The one line that a refused job gets.
impl fmt::Display for Refusal {
    ghost use Rattle.std.specs.Prelude.{Some};
    ghost use Rattle.refusals.specs.Refusal.{text_of};

    ghost output = { λ r. Some (text_of r) };

    fn fmt<W: fmt::Write>(&self, f: &mut fmt::Formatter<W>) -> fmt::Result {
        let number = self.number();
        let line = self.line();
        write!(f, "refused {number} line {line}")
    }
}

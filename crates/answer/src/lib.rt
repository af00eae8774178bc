// What a call answers: how many bytes were written, or a refusal, which has a number and a place.
#![tactic(auto, using(crate::proofs::Laws::all))]

ghost use Rattle.std.specs.Prelude.{◌≡◌};
ghost use Rattle.answer.specs.Outcomes.{packing};
ghost use Rattle.answer.specs.Refusals.{fault_number, told};

// Why a text or a call is refused. A later reason gets the next number.
#[derive(Clone, Copy, Debug, PartialEq, Eq, Hash)]
pub enum Fault {
    TextTooLong,
    LineMalformed,
    LineOutOfPlace,
    TooManyLines,
    NameTwice,
    NotNamed,
    WordTwice,
    ProcedureBroken,
    UnknownCallee,
    RowWrong,
    SheetWrong,
    ClaimFalse,
    WrongStage,
    LentMemoryWrong,
    TooManyPairs,
    OutputShort,
}

impl Fault {
    // Its number, as C programs get it.
    pub fn number(self) -> usize
        ensures { result ≡ fault_number self }
    {
        match self {
            Fault::TextTooLong => 1,
            Fault::LineMalformed => 2,
            Fault::LineOutOfPlace => 3,
            Fault::TooManyLines => 4,
            Fault::NameTwice => 5,
            Fault::NotNamed => 6,
            Fault::WordTwice => 7,
            Fault::ProcedureBroken => 8,
            Fault::UnknownCallee => 9,
            Fault::RowWrong => 10,
            Fault::SheetWrong => 11,
            Fault::ClaimFalse => 12,
            Fault::WrongStage => 13,
            Fault::LentMemoryWrong => 14,
            Fault::TooManyPairs => 15,
            Fault::OutputShort => 16,
        }
    }
}

// A refusal: why, and the place that the fault's number says, as a line.
#[derive(Clone, Copy, Debug, PartialEq, Eq, Hash)]
pub struct Refusal {
    pub fault: Fault,
    pub place: usize,
}

// Two numbers below 4,294,967,296 in one, as the exported calls return them; 0 for others, which no call has.
pub fn pack(high: usize, low: usize) -> u64
    ensures { result ≡ packing high low }
{
    if high < 4294967296 && low < 4294967296 {
        high as u64 * 4294967296 + low as u64
    } else {
        0
    }
}

// An answer in one number: 0 and how many bytes were written, or the number and the place of a refusal.
pub fn pack_answer(answer: Result<usize, Refusal>) -> u64
    ensures { result ≡ packing (told answer).number (told answer).place }
{
    match answer {
        Ok(written) => pack(0, written),
        Err(refusal) => pack(refusal.fault.number(), refusal.place),
    }
}

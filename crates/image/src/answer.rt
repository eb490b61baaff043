// What check answers, and why it refuses.
ghost use Rattle.std.specs.Prelude.{◌≡◌};
ghost use Rattle.image.specs.declared.answer.Refusal.TheVariants.{Record};
ghost use Rattle.image.specs.Answer.{answer_of};

use records::running::Fault;

#[derive(Clone, Copy, Debug, PartialEq, Eq)]
pub enum Kind {
    Flat,
    Layered,
}

// In document 01's order, which is the order of the tests.
#[derive(Clone, Copy, Debug, PartialEq, Eq)]
pub enum Refusal {
    Short,
    Mark,
    Count,
    Length,
    // the place of the record at fault, or the image's length if only a list entry is unowned
    Record(u32),
    Kind,
    Layers,
}

// The same in document 01's numbers, as C has it.
#[repr(C)]
#[derive(Clone, Copy)]
pub struct Answer {
    pub code: u32,
    pub place: u32,
    pub kind: u32,
}

impl From<Fault> for Refusal {
    ghost from_gives = { λ f r. r ≡ Record f.0 };

    fn from(fault: Fault) -> Refusal {
        Refusal::Record(fault.0)
    }
}

impl From<Result<Kind, Refusal>> for Answer {
    ghost from_gives = { λ r a. a ≡ answer_of r };

    fn from(found: Result<Kind, Refusal>) -> Answer {
        let (code, place, kind) = match found {
            Ok(Kind::Flat) => (0, 0, 1),
            Ok(Kind::Layered) => (0, 0, 2),
            Err(Refusal::Short) => (2, 0, 0),
            Err(Refusal::Mark) => (3, 0, 0),
            Err(Refusal::Count) => (4, 0, 0),
            Err(Refusal::Length) => (5, 0, 0),
            Err(Refusal::Record(place)) => (6, place, 0),
            Err(Refusal::Kind) => (7, 0, 0),
            Err(Refusal::Layers) => (8, 0, 0),
        };
        Answer { code, place, kind }
    }
}

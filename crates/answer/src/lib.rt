// What operations answer: `Ok` with a value, or `Err` with the refusal.
#![tactic(auto)]

ghost use Rattle.std.specs.Prelude.{◌≡◌};
ghost use Rattle.answer.specs.Said.{number_of, place_of};

// Why an operation refuses, in the order of document 01's numbers, each with its place. One without a place has 0.
#[derive(Clone, Copy, Debug, PartialEq, Eq)]
pub enum Refusal {
    Length,
    Range,
    Sample(u32),
    Consumer(u32),
    Crcc(u32),
    Validity(u32),
    Preamble(u32),
    Slot(u32),
    Parity(u32),
    Frame(u32),
    Group(u32),
    State(u32),
    Header(u32),
    Word(u32),
    Lane(u32),
    Checksum(u32),
    NoStart,
    WordLength(u32),
    Undeclared(u32),
    FaultMap(u32),
    Slots,
    Full,
    Count,
}

impl Refusal {
    // Document 01's number.
    pub fn number(self) -> u32
        ensures { result ≡ number_of self }
    {
        match self {
            Refusal::Length => 1,
            Refusal::Range => 2,
            Refusal::Sample(_) => 3,
            Refusal::Consumer(_) => 4,
            Refusal::Crcc(_) => 5,
            Refusal::Validity(_) => 6,
            Refusal::Preamble(_) => 7,
            Refusal::Slot(_) => 8,
            Refusal::Parity(_) => 9,
            Refusal::Frame(_) => 10,
            Refusal::Group(_) => 11,
            Refusal::State(_) => 12,
            Refusal::Header(_) => 13,
            Refusal::Word(_) => 14,
            Refusal::Lane(_) => 15,
            Refusal::Checksum(_) => 16,
            Refusal::NoStart => 17,
            Refusal::WordLength(_) => 18,
            Refusal::Undeclared(_) => 19,
            Refusal::FaultMap(_) => 20,
            Refusal::Slots => 21,
            Refusal::Full => 22,
            Refusal::Count => 23,
        }
    }

    // Its place.
    pub fn place(self) -> u32
        ensures { result ≡ place_of self }
    {
        match self {
            Refusal::Length
            | Refusal::Range
            | Refusal::NoStart
            | Refusal::Slots
            | Refusal::Full
            | Refusal::Count => 0,
            Refusal::Sample(at)
            | Refusal::Consumer(at)
            | Refusal::Crcc(at)
            | Refusal::Validity(at)
            | Refusal::Preamble(at)
            | Refusal::Slot(at)
            | Refusal::Parity(at)
            | Refusal::Frame(at)
            | Refusal::Group(at)
            | Refusal::State(at)
            | Refusal::Header(at)
            | Refusal::Word(at)
            | Refusal::Lane(at)
            | Refusal::Checksum(at)
            | Refusal::WordLength(at)
            | Refusal::Undeclared(at)
            | Refusal::FaultMap(at) => at,
        }
    }
}

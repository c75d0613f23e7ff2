// Why something is refused: fourteen refusals, each with its number; and a fault, which is a refusal with its place in a file.
#![tactic(auto)]

ghost use Rattle.std.specs.Prelude.{◌≡◌};
ghost use Rattle.faults.specs.Faults.{number_of};

// In the order in which a file is looked through; the number 0 stands for done, and there is no number 12.
#[derive(Clone, Copy, Debug, PartialEq, Eq)]
pub enum Refusal {
    // the bus file is longer than eight records, or no multiple of one
    BusLength = 1,
    RecordMark = 2,
    UnknownPart = 3,
    SlaveOverSeven = 4,
    // not above the slave address of the record before
    SlaveNotRising = 5,
    FlagBits = 6,
    ReservedByte = 7,
    // the event file is too long, or its end tears an event
    EventLength = 8,
    EventMark = 9,
    EventKind = 10,
    AnswerRoom = 11,
    SaveRoom = 13,
    // a view of a zone over 3, or of a slave address that no record has
    NoSuchZone = 14,
    // a table of devices that is not well-formed
    IllFormed = 15,
}

// The first fault of a file: what it is, and the byte offset where it stands.
#[derive(Clone, Copy, Debug, PartialEq, Eq)]
pub struct Fault {
    pub refusal: Refusal,
    pub at: usize,
}

impl Refusal {
    pub fn number(self) -> u8
        ensures { result ≡ number_of self }
    {
        self as u8
    }

    pub fn at(self, at: usize) -> Fault
        ensures { result ≡ record { refusal = self; at = at } }
    {
        Fault { refusal: self, at }
    }
}

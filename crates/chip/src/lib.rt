// One AT21CS01/AT21CS11 device and what it does with one event. The rules are on a small head (address.rt, place.rt, data.rt, sending.rt,
// events.rt); what an event asks of the bytes is an act and a drive, carried out in memory.rt; take.rt puts the two together.
#![tactic(auto)]

mod address;
mod data;
mod events;
mod memory;
mod place;
mod sending;
mod take;

ghost use Rattle.std.specs.Prelude.{◌≡◌};
ghost use Rattle.chip.specs.Stages.{past};
ghost use Rattle.chip.specs.Head.{at, pointing, choosing, paced, flagging, framing, silent, answering};

pub use data::FIRST_USER;
pub use memory::{burn, enact, level};
pub use sending::{LAST_ID, LAST_MAIN, LAST_SECURITY};

// The two parts that the model covers, each by its number in a record.
#[derive(Clone, Copy)]
pub enum Part {
    At21cs01 = 0x01,
    At21cs11 = 0x11,
}

// The two parts of the memory with pages: the main array (Ah) and the Security Register (Bh).
#[derive(Clone, Copy)]
pub enum Region {
    Main,
    Security,
}

// The command that a stage of a write names: Ah or Bh, 2h with R/W 0, 2h with R/W 1 (Check Lock), 7h, 1h.
#[derive(Clone, Copy)]
pub enum Command {
    Page(Region),
    Lock,
    Check,
    Rom,
    Freeze,
}

// What a byte that is put out comes from: cells at the pointer, ID byte 0 to 2, the selected zone's register.
#[derive(Clone, Copy)]
pub enum Source {
    Cells(Region),
    Id(u8),
    Register,
}

// What a device waits for. A stage that takes a byte holds how many of its bits came (8: the ninth frame is due) and their value so far.
#[derive(Clone, Copy)]
pub enum Stage {
    Standby,
    // device address: count, byte
    Address(u8, u8),
    // memory, zone, 6xh or 55h byte: command, count, byte
    Place(Command, u8, u8),
    // data byte: command, data bytes answered (it stays at 8), count, byte
    Data(Command, u8, u8, u8),
    // a byte is put out: source, bits that went (8: the master's ninth frame is due)
    Sending(Source, u8),
    // a cycle runs: command, data bytes gathered
    Programming(Command, u8),
}

// A byte under way: how many of its bits came or went, and their value.
#[derive(Clone, Copy, PartialEq, Eq)]
pub struct Byte {
    pub count: u8,
    pub bits: u8,
}

#[derive(Clone, Copy, PartialEq, Eq)]
pub enum Speed {
    High,
    Standard,
}

// A bit counts by its lowest bit; a Cut carries its mask.
#[derive(Clone, Copy)]
pub enum Event {
    Bit(u8),
    Null,
    Wait,
    Reset,
    Cut(u64),
}

// The opcodes of 003, table 5-1.
#[derive(Clone, Copy)]
pub enum Opcode {
    Access(Region),
    LockRegister,
    ZoneRegister,
    FreezeZones,
    ManufacturerId,
    StandardSpeed,
    HighSpeed,
    Unknown,
}

// A cycle: its command, and how many data bytes were answered.
#[derive(Clone, Copy)]
pub struct Cycle {
    pub command: Command,
    pub taken: u8,
}

// What of a device the rules look at and change: all but the bytes.
#[derive(Clone, Copy)]
pub struct Head {
    pub part: u8,
    pub slave: u8,
    pub flags: u8,
    pub pointer: u8,
    pub speed: Speed,
    // the zone that is selected, if one is
    pub selector: Option<u8>,
    pub stage: Stage,
}

// What a device does to the wire: leaves it free, drives 0, or shows a bit of the cell at an address or of an ID byte.
#[derive(Clone, Copy)]
pub enum Drive {
    Free,
    Low,
    CellBit(Region, u8, u8),
    IdBit(u8, u8),
}

// What an event asks of the bytes: nothing, a byte into the page, the end of a cycle (command, pointer, data bytes, mask).
#[derive(Clone, Copy)]
pub enum Act {
    Nothing,
    Put(u8, u8),
    Program(Command, u8, u8, u64),
}

#[derive(Clone, Copy)]
pub struct Framed {
    pub head: Head,
    pub drive: Drive,
    pub act: Act,
}

#[derive(Clone, Copy)]
pub struct Device {
    pub part: u8,
    pub slave: u8,
    pub id: [u8; 3],
    pub flags: u8,
    pub main: [u8; 128],
    pub serial: [u8; 8],
    pub user: [u8; 16],
    pub pointer: u8,
    pub speed: Speed,
    pub selector: Option<u8>,
    // the gathered bytes, each at its address mod 8
    pub page: [u8; 8],
    pub stage: Stage,
}

// The device after an event, and the level that it drives: 0, or 1 where it leaves the wire free.
#[derive(Clone, Copy)]
pub struct Taken {
    pub device: Device,
    pub level: u8,
}

impl Stage {
    // Past the device address: a device talks in such a stage.
    pub fn is_past(self) -> bool
        ensures { result ≡ past self }
    {
        !matches!(self, Stage::Standby | Stage::Address(..))
    }
}

impl Head {
    // On in another stage, with what it drives and asks of the bytes.
    pub fn frames(self, stage: Stage, drive: Drive, act: Act) -> Framed
        ensures { result ≡ framing self stage drive act }
    {
        Framed {
            head: self.at(stage),
            drive,
            act,
        }
    }

    pub fn silent(self, stage: Stage) -> Framed
        ensures { result ≡ silent self stage }
    {
        self.frames(stage, Drive::Free, Act::Nothing)
    }

    pub fn answering(self, stage: Stage) -> Framed
        ensures { result ≡ answering self stage }
    {
        self.frames(stage, Drive::Low, Act::Nothing)
    }

    pub fn at(self, stage: Stage) -> Head
        ensures { result ≡ at self stage }
    {
        Head { stage, ..self }
    }

    pub fn pointing(self, pointer: u8) -> Head
        ensures { result ≡ pointing self pointer }
    {
        Head { pointer, ..self }
    }

    pub fn flagging(self, flags: u8) -> Head
        ensures { result ≡ flagging self flags }
    {
        Head { flags, ..self }
    }

    pub fn choosing(self, selector: Option<u8>) -> Head
        ensures { result ≡ choosing self selector }
    {
        Head { selector, ..self }
    }

    pub fn paced(self, speed: Speed) -> Head
        ensures { result ≡ paced self speed }
    {
        Head { speed, ..self }
    }
}

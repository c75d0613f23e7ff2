// A script is lines of words, a colon and acts. Two digits send a byte; + and - read one and ask for the next or end; N, W and R are the events
// of these letters; a mask in brackets is a Cut; ? with two digits looks at a cell.
use chip::Event;

// What the next letter belongs to.
#[derive(Clone, Copy)]
pub enum Mode {
    Words,
    Acts,
    // the second digit of a byte, and the first
    Byte(u8),
    // the mask so far
    Mask(u64),
    // the first digit of a cell's address
    Cell,
    CellByte(u8),
}

// What a letter asks for.
#[derive(Clone, Copy)]
pub enum Act {
    Copy(u8),
    Send(u8),
    // with the master's ninth bit
    Read(u8),
    Take(Event),
    Look(u8),
}

// What a digit 0 to 9 or A to F stands for.
fn value(c: u8) -> Option<u8> {
    match c {
        b'0'..=b'9' => Some(c - b'0'),
        b'A'..=b'F' => Some(c - b'A' + 10),
        _ => None,
    }
}

// A letter that is no digit counts as 0 where one is due.
fn digit(c: u8) -> u8 {
    value(c).unwrap_or(0)
}

fn byte_of(high: u8, c: u8) -> u8 {
    high << 4 | digit(c)
}

// A letter among the acts, with nothing begun before it.
fn begins(c: u8) -> (Mode, Option<Act>) {
    match c {
        b'\n' => (Mode::Words, Some(Act::Copy(c))),
        b'N' => (Mode::Acts, Some(Act::Take(Event::Null))),
        b'W' => (Mode::Acts, Some(Act::Take(Event::Wait))),
        b'R' => (Mode::Acts, Some(Act::Take(Event::Reset))),
        b'+' => (Mode::Acts, Some(Act::Read(0))),
        b'-' => (Mode::Acts, Some(Act::Read(1))),
        b'(' => (Mode::Mask(0), None),
        b'?' => (Mode::Cell, None),
        _ => (value(c).map_or(Mode::Acts, Mode::Byte), None),
    }
}

impl Mode {
    // The mode after a letter, and what the letter asks for.
    pub fn step(self, c: u8) -> (Mode, Option<Act>) {
        match self {
            Mode::Words if c == b':' => (Mode::Acts, Some(Act::Copy(c))),
            Mode::Words => (Mode::Words, Some(Act::Copy(c))),
            Mode::Acts => begins(c),
            Mode::Byte(high) => (Mode::Acts, Some(Act::Send(byte_of(high, c)))),
            Mode::Mask(mask) if c == b')' => (Mode::Acts, Some(Act::Take(Event::Cut(mask)))),
            Mode::Mask(mask) => (Mode::Mask(mask << 4 | u64::from(digit(c))), None),
            Mode::Cell => (Mode::CellByte(digit(c)), None),
            Mode::CellByte(high) => (Mode::Acts, Some(Act::Look(byte_of(high, c)))),
        }
    }
}

// The wire as a whole: which events are carried out, its level, and the answer byte.
#![tactic(auto)]

ghost use Rattle.std.specs.Prelude.{◌≡◌};
ghost use Rattle.wire.specs.Wire.{busy, barred, masters_level, pulled, replied, answer_from, counted_from};

use chip::{Event, Stage};

// The answer to an event that is not carried out.
pub const NOT_CARRIED_OUT: u8 = 0x80;

// Whether a device programs.
pub fn busy(stage: Stage) -> bool
    ensures { result ≡ busy stage }
{
    stage.running().is_some()
}

// Whether an event is not carried out; `any`: a device programs.
pub fn barred(ev: Event, any: bool) -> bool
    ensures { result ≡ barred ev any }
{
    match ev {
        Event::Bit(_) | Event::Reset => any,
        Event::Null | Event::Wait | Event::Cut(_) => false,
    }
}

// What an event adds to the count of 80h answers; `barred`: it is not carried out.
pub fn counted(barred: bool) -> usize
    ensures { result ≡ counted_from barred }
{
    usize::from(barred)
}

// The level before any device drives.
pub fn masters_level(ev: Event) -> u8
    ensures { result ≡ masters_level ev }
{
    match ev {
        Event::Bit(b) => b % 2,
        Event::Null | Event::Wait | Event::Reset | Event::Cut(_) => 1,
    }
}

// The wire with one more device on it.
pub fn pulled(level: u8, wire: u8) -> u8
    ensures { result ≡ pulled level wire }
{
    if level == 0 { 0 } else { wire }
}

// The answer byte of an event that is carried out.
pub fn replied(ev: Event, wire: u8) -> u8
    ensures { result ≡ replied ev wire }
{
    match ev {
        Event::Bit(_) => wire,
        Event::Null => 0x02,
        Event::Wait => 0x03,
        // a device that pulls the wire down is there
        Event::Reset | Event::Cut(_) if wire == 0 => 0x04,
        Event::Reset | Event::Cut(_) => 0x05,
    }
}

// The answer byte of any event; `barred`: it is not carried out.
pub fn answer(barred: bool, ev: Event, wire: u8) -> u8
    ensures { result ≡ answer_from barred ev wire }
{
    if barred {
        NOT_CARRIED_OUT
    } else {
        replied(ev, wire)
    }
}

// Which devices an event is played on, and where it moves the others together. At most one device is past its device address: it talks.
ghost use Rattle.std.specs.Prelude.{◌≡◌, ◌<◌};
ghost use Rattle.bits.specs.Words.{pick};
ghost use Rattle.bus.specs.Held.{number, standing, bit_after, others_after, ninth_due, called, one_of, span_in, span_of};
ghost use Rattle.chip.specs.Stages.{past};

use chip::{Event, Head, Stage};
use std::ops::Range;

// Who talks, and the stage that all others share.
#[derive(Clone, Copy)]
pub struct Talk {
    pub talker: Option<usize>,
    pub others: Stage,
}

// At first all devices stand by.
pub const NOBODY: Talk = Talk {
    talker: None,
    others: Stage::Standby,
};

impl Talk {
    // Device k's head, of which the stage counts only where it talks.
    pub fn standing(self, h: Head, k: usize) -> Head
        ensures { result ≡ standing (number self.talker) self.others k h }
    {
        if self.talker == Some(k) {
            h
        } else {
            h.at(self.others)
        }
    }

    fn span_in(self, ev: Event, named: Option<usize>, count: usize) -> Range<usize>
        ensures { result ≡ span_in ev self.others (number self.talker) (number named) count }
    {
        match ev {
            Event::Bit(_) if ninth_due(self.others) => one_of(named, count),
            Event::Bit(_) | Event::Null | Event::Wait => one_of(self.talker, count),
            Event::Reset | Event::Cut(_) => 0..count,
        }
    }

    // The devices that an event is played on; `named` is the one with the slave address that is called.
    #[tactic(auto, unfolding(crate::specs::Held::span_of))]
    pub fn span_of(
        self,
        ev: Event,
        barred: bool,
        named: Option<usize>,
        count: usize,
    ) -> Range<usize>
        ensures { result ≡ span_of ev barred self.others (number self.talker) (number named) count }
    {
        if barred {
            0..0
        } else {
            self.span_in(ev, named, count)
        }
    }
}

fn bit_after(s: Stage, bit: u8) -> Stage
    ensures { result ≡ bit_after s bit }
{
    match s {
        Stage::Address(n, x) if n < 8 => Stage::Address(n + 1, bits::more(x, bit)),
        Stage::Address(..) => Stage::Standby,
        _ => s,
    }
}

// The stage that the others share after an event that is carried out.
pub fn others_after(ev: Event, s: Stage) -> Stage
    ensures { result ≡ others_after ev s }
{
    match ev {
        Event::Bit(b) => bit_after(s, b),
        Event::Null | Event::Wait => Stage::Address(0, 0),
        Event::Reset | Event::Cut(_) => Stage::Standby,
    }
}

fn ninth_due(s: Stage) -> bool
    ensures { result ≡ ninth_due s }
{
    matches!(s, Stage::Address(n, _) if n >= 8)
}

// The slave address that a device address calls.
pub fn called(s: Stage) -> usize
    ensures { (result ≡ called s) × (result < 8) }
{
    match s {
        Stage::Address(_, x) => usize::from(bits::slave(x)),
        _ => 0,
    }
}

fn one_of(k: Option<usize>, count: usize) -> Range<usize>
    ensures { result ≡ one_of (number k) count }
{
    match k {
        Some(k) if k < count => k..k + 1,
        _ => 0..0,
    }
}

// Who talks, now that device k is in stage s.
pub fn talks(next: Option<usize>, k: usize, s: Stage) -> Option<usize>
    ensures { number result ≡ pick (past s) k (number next) }
{
    if s.is_past() { Some(k) } else { next }
}

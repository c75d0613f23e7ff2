// Null, Wait, Reset and Cut: how a cycle begins and ends.
ghost use Rattle.std.specs.Prelude.{◌≡◌, None};
ghost use Rattle.chip.specs.Stages.{framed};
ghost use Rattle.chip.specs.Cycle.{running, due, nulled, one_way, rom_bit, flags_after, finished, restarted, reset_of, cut_of, heard};

use crate::{Act, Command, Cycle, Drive, Event, Framed, Head, Speed, Stage};

// The mask by which a cell takes every new bit.
const WHOLE: u64 = u64::MAX;

impl Stage {
    // The cycle that runs.
    pub fn running(self) -> Option<Cycle>
        ensures { result ≡ running self }
    {
        match self {
            Stage::Programming(command, taken) => Some(Cycle { command, taken }),
            _ => None,
        }
    }

    // The cycle that a Null or Wait starts.
    fn due(self) -> Option<Cycle>
        ensures { result ≡ due self }
    {
        match self {
            Stage::Data(command, taken, count, _) if count == 0 && taken != 0 => {
                Some(Cycle { command, taken })
            }
            _ => None,
        }
    }
}

// A one-way bit after a cycle.
fn one_way(flags: u8, place: u8, mask: u64) -> u8
    ensures { result ≡ one_way flags place mask }
{
    if bits::mask_byte(mask, 0) % 2 == 1 {
        bits::with_flag(flags, place)
    } else {
        flags
    }
}

fn rom_bit(flags: u8, selector: Option<u8>, mask: u64) -> u8
    ensures { result ≡ rom_bit flags selector mask }
{
    match selector {
        Some(zone) => one_way(flags, zone % 4, mask),
        None => flags,
    }
}

impl Head {
    pub fn nulled(self) -> Head
        ensures { result ≡ nulled self }
    {
        match (self.stage.running(), self.stage.due()) {
            (Some(_), _) => self,
            (None, Some(cycle)) => self.at(Stage::Programming(cycle.command, cycle.taken)),
            (None, None) => self.at(Stage::Address(0, 0)),
        }
    }

    pub fn flags_after(self, command: Command, mask: u64) -> u8
        ensures { result ≡ flags_after self command mask }
    {
        match command {
            Command::Page(_) | Command::Check => self.flags,
            Command::Lock => one_way(self.flags, bits::LOCKED, mask),
            Command::Rom => rom_bit(self.flags, self.selector, mask),
            Command::Freeze => one_way(self.flags, bits::FROZEN, mask),
        }
    }

    // A cycle that runs ends by itself.
    pub fn finished(self) -> Framed
        ensures { result ≡ finished self (running self.stage) }
    {
        match self.stage.running() {
            Some(cycle) => self.flagging(self.flags_after(cycle.command, WHOLE)).frames(
                Stage::Address(0, 0),
                Drive::Free,
                Act::Program(cycle.command, self.pointer, cycle.taken, WHOLE),
            ),
            None => self.silent(self.stage),
        }
    }

    pub fn restarted(self) -> Head
        ensures { result ≡ restarted self }
    {
        Head {
            pointer: 0,
            speed: Speed::High,
            selector: None,
            stage: Stage::Standby,
            ..self
        }
    }

    // Restarted with no cycle running: the device shows that it is there.
    fn discovered(self) -> Framed
        ensures { result ≡ reset_of self None }
    {
        Framed {
            head: self.restarted(),
            drive: Drive::Low,
            act: Act::Nothing,
        }
    }

    pub fn reset(self) -> Framed
        ensures { result ≡ reset_of self (running self.stage) }
    {
        match self.stage.running() {
            Some(_) => self.silent(self.stage),
            None => self.discovered(),
        }
    }

    pub fn cut(self, mask: u64) -> Framed
        ensures { result ≡ cut_of self (running self.stage) mask }
    {
        match self.stage.running() {
            Some(Cycle { command, taken }) => Framed {
                head: self.flagging(self.flags_after(command, mask)).restarted(),
                drive: Drive::Low,
                act: Act::Program(command, self.pointer, taken, mask),
            },
            None => self.discovered(),
        }
    }

    // A bit frame, by the stage.
    pub fn framed(self, bit: u8) -> Framed
        ensures { result ≡ framed self self.stage bit }
    {
        match self.stage {
            Stage::Address(n, x) => self.address_frame(n, x, bit),
            Stage::Place(c, n, x) => self.place_frame(c, n, x, bit),
            Stage::Data(c, t, n, x) => self.data_frame(c, t, n, x, bit),
            Stage::Sending(q, n) => self.sending_frame(q, n, bit),
            Stage::Standby | Stage::Programming(_, _) => self.silent(self.stage),
        }
    }

    // One event, as far as the head goes.
    #[tactic(auto, unfolding(crate::specs::Cycle::heard))]
    pub fn hears(self, ev: Event) -> Framed
        ensures { result ≡ heard self ev }
    {
        match ev {
            Event::Bit(b) => self.framed(b),
            Event::Null => Framed {
                head: self.nulled(),
                drive: Drive::Free,
                act: Act::Nothing,
            },
            Event::Wait => self.nulled().finished(),
            Event::Reset => self.reset(),
            Event::Cut(mask) => self.cut(mask),
        }
    }
}

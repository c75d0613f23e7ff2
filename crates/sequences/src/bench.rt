// A bench with one device: it plays a script and writes each act with what came back.
use crate::device::delivered;
use crate::script::{Act, Mode};
use crate::text::{self, say};
use crate::wire::{self, Got};
use chip::{Device, Event, Part, Region, Taken};

#[derive(Drop)]
struct Bench<'a, R> {
    rt: &'a R,
    device: Device,
}

impl<R: Print> Bench<'_, R> {
    fn sends(&mut self, byte: u8) {
        let Taken { device, level } = wire::sends(self.device, byte);
        self.device = device;
        say!(self.rt; " ");
        text::exchange(self.rt, byte, level);
    }

    fn reads(&mut self, ninth: u8) {
        let Got { device, byte } = wire::gets(self.device);
        self.device = wire::after(device, Event::Bit(ninth));
        say!(self.rt; " <");
        text::exchange(self.rt, byte, ninth);
    }

    // An event is written as its letter, with the mask of a Cut and the level of the discovery response.
    fn takes(&mut self, ev: Event) {
        let level = self.device.takes(ev);
        match ev {
            Event::Bit(b) => say!(self.rt; "{}", b % 2),
            Event::Null => say!(self.rt; " N"),
            Event::Wait => say!(self.rt; " W"),
            Event::Reset => {
                say!(self.rt; " R:");
                say!(self.rt; "{level}");
            }
            Event::Cut(mask) => {
                say!(self.rt; " C(");
                for byte in mask.to_be_bytes() {
                    text::byte(self.rt, byte);
                }
                say!(self.rt; "):");
                say!(self.rt; "{level}");
            }
        }
    }

    fn looks(&self, address: u8) {
        let cell = self.device.cell(Region::Main, address);
        say!(self.rt; " ?");
        text::byte(self.rt, address);
        say!(self.rt; "=");
        text::byte(self.rt, cell);
    }

    fn acts(&mut self, a: Act) {
        match a {
            Act::Copy(c) => text::letter(self.rt, c),
            Act::Send(byte) => self.sends(byte),
            Act::Read(ninth) => self.reads(ninth),
            Act::Take(ev) => self.takes(ev),
            Act::Look(address) => self.looks(address),
        }
    }
}

pub fn plays(rt: &impl Print, part: Part, letters: &[u8]) {
    let device = delivered(part);
    let mut bench = Bench { rt, device };
    let mut mode = Mode::Words;
    for letter in letters {
        let (next, act) = mode.step(*letter);
        if let Some(a) = act {
            bench.acts(a);
        }
        mode = next;
    }
}

// A device takes one event: its head hears it, and its bytes do what the head asks.
ghost use Rattle.std.specs.Prelude.{◌≡◌};
ghost use Rattle.chip.specs.Take.{head_of, joined, take_of};

use crate::{Device, Event, Head, Taken};

impl Device {
    pub fn head(&self) -> Head
        ensures { result ≡ head_of self.now }
    {
        Head {
            part: self.part,
            slave: self.slave,
            flags: self.flags,
            pointer: self.pointer,
            speed: self.speed,
            selector: self.selector,
            stage: self.stage,
        }
    }

    // The device's bytes under another head.
    pub fn put_head(&mut self, head: Head)
        ensures { self.new ≡ joined head self.old }
    {
        self.part = head.part;
        self.slave = head.slave;
        self.flags = head.flags;
        self.pointer = head.pointer;
        self.speed = head.speed;
        self.selector = head.selector;
        self.stage = head.stage;
    }

    // One event, in place; the level that the device drives: 0, or 1 where it leaves the wire free.
    #[tactic(auto, unfolding(crate::specs::Take::take_of))]
    pub fn takes(&mut self, ev: Event) -> u8
        ensures device { self.new ≡ (take_of self.old ev).device }
        ensures level { result ≡ (take_of self.old ev).level }
    {
        let framed = self.head().hears(ev);
        let level = self.level(framed.drive);
        self.put_head(framed.head);
        self.acts(framed.act);
        level
    }

    // The same by value.
    pub fn take(mut self, ev: Event) -> Taken
        ensures { result ≡ take_of self ev }
    {
        let level = self.takes(ev);
        Taken {
            device: self,
            level,
        }
    }
}

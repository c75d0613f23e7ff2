// The program keeps its devices in an array, and lends the first of them, as one table, to a step and to a save.
ghost use Rattle.std.specs.Prelude.{◌≡◌, length};
ghost use Rattle.lent.specs.Step.{step_answer};
ghost use Rattle.lent.specs.Save.{save_answer, saved_room};
ghost use Rattle.plays.specs.Lending.{lent_of, played_of};

use chip::{Device, Part, Speed, Stage};
use faults::Refusal;

// One more than a table may have, so that too many can be lent.
const KEPT: usize = 9;

// How many counts there are, from none to all: a count is taken modulo this, so that no caller owes a bound.
const COUNTS: usize = 10;

// The devices that are kept, of which the first `count` are on the wire: those are lent.
#[derive(Clone, Copy)]
pub struct Wired {
    devices: [Device; KEPT],
    count: usize,
}

fn device(slave: u8) -> Device {
    Device {
        part: Part::At21cs11 as u8,
        slave,
        id: [0x00, 0xD3, 0x80],
        flags: 0,
        main: [0xF0; 128],
        serial: [0xA0; 8],
        user: [0xFF; 16],
        pointer: 0,
        speed: Speed::High,
        selector: None,
        page: [0; 8],
        stage: Stage::Standby,
    }
}

impl Wired {
    // Devices at two slave addresses.
    pub fn pair(first: u8, second: u8) -> Self {
        let mut devices = [device(first); KEPT];
        devices[1] = device(second);
        Wired { devices, count: 2 }
    }

    // So many devices, all at slave address 0.
    pub fn alike(count: usize) -> Self {
        let devices = [device(0); KEPT];
        Wired { devices, count }
    }

    // A step over the first devices.
    pub fn step(&mut self, kind: u8, mask: u64) -> Result<u8, Refusal>
        ensures answer { result ≡ step_answer (lent_of self.old) kind mask }
        ensures devices { self.new ≡ played_of self.old kind mask }
    {
        lent::step(&mut self.devices[..self.count % COUNTS], kind, mask)
    }

    // A save of the first devices.
    pub fn save(&self, room: &mut [u8]) -> Result<(), Refusal>
        ensures { (result ≡ save_answer (lent_of self.now) (length room.old)) × (room.new ≡ saved_room (lent_of self.now) room.old) }
    {
        lent::save(&self.devices[..self.count % COUNTS], room)
    }
}

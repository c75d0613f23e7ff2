// The data bytes of a write.
ghost use Rattle.std.specs.Prelude.{◌≡◌};
ghost use Rattle.chip.specs.Stages.{one_more, answers_data, caused_by_data, framed};
ghost use Rattle.chip.specs.declared.Stage.TheVariants.{Data};

use crate::{Act, Command, Drive, Framed, Head, Region, Stage};

const ROM_BYTE: u8 = 0xFF;

const FREEZE_DATA: u8 = 0xAA;

// The first address of the Security Register's user bytes.
pub const FIRST_USER: u8 = 16;

pub fn one_more(taken: u8) -> u8
    ensures { result ≡ one_more taken }
{
    if taken < 8 { taken + 1 } else { 8 }
}

impl Head {
    pub fn answers_data(self, command: Command, taken: u8, byte: u8) -> bool
        ensures { result ≡ answers_data self command taken byte }
    {
        match command {
            Command::Page(Region::Main) => bits::open_zone(self.flags, self.pointer),
            Command::Page(Region::Security) => {
                self.pointer % 32 >= FIRST_USER && bits::unlocked(self.flags)
            }
            Command::Lock => taken == 0,
            Command::Check => false,
            Command::Rom => taken == 0 && byte == ROM_BYTE && bits::thawed(self.flags),
            Command::Freeze => taken == 0 && byte == FREEZE_DATA,
        }
    }

    pub fn data_causes(self, command: Command, taken: u8, byte: u8) -> Framed
        ensures { result ≡ caused_by_data self command taken byte }
    {
        match command {
            Command::Page(_) => {
                let p = self.pointer;
                let stage = Stage::Data(command, one_more(taken), 0, 0);
                self.pointing(bits::next_in_page(p))
                    .frames(stage, Drive::Low, Act::Put(p % 8, byte))
            }
            _ => self.answering(Stage::Data(command, 1, 0, 0)),
        }
    }

    pub fn data_frame(self, command: Command, taken: u8, count: u8, byte: u8, bit: u8) -> Framed
        ensures { result ≡ framed self (Data command taken count byte) bit }
    {
        if count < 8 {
            self.silent(Stage::Data(command, taken, count + 1, bits::more(byte, bit)))
        } else if self.answers_data(command, taken, byte) {
            self.data_causes(command, taken, byte)
        } else {
            self.silent(Stage::Standby)
        }
    }
}

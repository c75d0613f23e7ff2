// The address byte of a write: memory address, zone byte, 6xh or 55h.
ghost use Rattle.std.specs.Prelude.{◌≡◌};
ghost use Rattle.chip.specs.Stages.{answers_place, address_in, caused_by_place, framed};
ghost use Rattle.chip.specs.declared.Stage.TheVariants.{Place};

use crate::{Command, Framed, Head, Region, Stage};

impl Region {
    fn address_in(self, byte: u8) -> u8
        ensures { result ≡ address_in self byte }
    {
        match self {
            Region::Main => bits::main_address(byte),
            Region::Security => bits::security_address(byte),
        }
    }
}

impl Head {
    pub fn answers_place(self, command: Command, byte: u8) -> bool
        ensures { result ≡ answers_place self command byte }
    {
        match command {
            Command::Page(_) => true,
            Command::Lock | Command::Check => {
                bits::is_lock_byte(byte) && bits::unlocked(self.flags)
            }
            Command::Rom => bits::zone_of(byte).is_some(),
            Command::Freeze => bits::is_freeze_byte(byte),
        }
    }

    pub fn place_causes(self, command: Command, byte: u8) -> Framed
        ensures { result ≡ caused_by_place self command byte }
    {
        let head = match command {
            Command::Page(region) => self.pointing(region.address_in(byte)),
            Command::Rom => self.choosing(bits::zone_of(byte)),
            Command::Lock | Command::Check | Command::Freeze => self,
        };
        head.answering(Stage::Data(command, 0, 0, 0))
    }

    pub fn place_frame(self, command: Command, count: u8, byte: u8, bit: u8) -> Framed
        ensures { result ≡ framed self (Place command count byte) bit }
    {
        if count < 8 {
            self.silent(Stage::Place(command, count + 1, bits::more(byte, bit)))
        } else if self.answers_place(command, byte) {
            self.place_causes(command, byte)
        } else {
            self.silent(Stage::Standby)
        }
    }
}

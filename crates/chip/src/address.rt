// The device address: opcode, three slave address bits, R/W.
ghost use Rattle.std.specs.Prelude.{◌≡◌};
ghost use Rattle.chip.specs.Stages.{named, answers_opcode, answers_address, opened, caused_by_address, framed};
ghost use Rattle.chip.specs.declared.Stage.TheVariants.{Address};

use crate::{Act, Command, Drive, Framed, Head, Opcode, Part, Region, Source, Speed, Stage};

impl From<u8> for Opcode {
    ghost from_gives = { λ code opcode. opcode ≡ named code };

    #[tactic(auto, unfolding(crate::specs::Stages::named))]
    fn from(code: u8) -> Opcode {
        match code {
            0xA => Opcode::Access(Region::Main),
            0xB => Opcode::Access(Region::Security),
            0x2 => Opcode::LockRegister,
            0x7 => Opcode::ZoneRegister,
            0x1 => Opcode::FreezeZones,
            0xC => Opcode::ManufacturerId,
            0xD => Opcode::StandardSpeed,
            0xE => Opcode::HighSpeed,
            _ => Opcode::Unknown,
        }
    }
}

impl Head {
    fn answers_opcode(self, opcode: Opcode, reads: bool) -> bool
        ensures { result ≡ answers_opcode self opcode reads }
    {
        match opcode {
            Opcode::Access(_) | Opcode::LockRegister => true,
            Opcode::ZoneRegister => !reads || self.selector.is_some(),
            Opcode::FreezeZones => bits::thawed(self.flags),
            Opcode::ManufacturerId => reads,
            Opcode::StandardSpeed => {
                self.part != Part::At21cs11 as u8 && (!reads || self.speed == Speed::Standard)
            }
            Opcode::HighSpeed => !reads || self.speed == Speed::High,
            Opcode::Unknown => false,
        }
    }

    pub fn answers_address(self, byte: u8) -> bool
        ensures { result ≡ answers_address self byte }
    {
        bits::slave(byte) == self.slave
            && self.answers_opcode(Opcode::from(bits::opcode(byte)), bits::reads(byte))
    }

    // Where an answered device address leads, by its opcode and R/W.
    fn opens(self, opcode: Opcode, reads: bool) -> Head
        ensures { result ≡ opened self opcode reads }
    {
        match (opcode, reads) {
            (Opcode::Access(region), true) => self.at(Stage::Sending(Source::Cells(region), 0)),
            (Opcode::Access(region), false) => self.at(Stage::Place(Command::Page(region), 0, 0)),
            (Opcode::LockRegister, true) => self.at(Stage::Place(Command::Check, 0, 0)),
            (Opcode::LockRegister, false) => self.at(Stage::Place(Command::Lock, 0, 0)),
            (Opcode::ZoneRegister, true) => self.at(Stage::Sending(Source::Register, 0)),
            (Opcode::ZoneRegister, false) => self.at(Stage::Place(Command::Rom, 0, 0)),
            (Opcode::FreezeZones, false) => self.at(Stage::Place(Command::Freeze, 0, 0)),
            (Opcode::ManufacturerId, _) => self.at(Stage::Sending(Source::Id(0), 0)),
            (Opcode::StandardSpeed, false) => self.paced(Speed::Standard).at(Stage::Standby),
            (Opcode::HighSpeed, false) => self.paced(Speed::High).at(Stage::Standby),
            (_, _) => self.at(Stage::Standby),
        }
    }

    pub fn address_causes(self, byte: u8) -> Framed
        ensures { result ≡ caused_by_address self byte }
    {
        Framed {
            head: self.opens(Opcode::from(bits::opcode(byte)), bits::reads(byte)),
            drive: Drive::Low,
            act: Act::Nothing,
        }
    }

    pub fn address_frame(self, count: u8, byte: u8, bit: u8) -> Framed
        ensures { result ≡ framed self (Address count byte) bit }
    {
        if count < 8 {
            self.silent(Stage::Address(count + 1, bits::more(byte, bit)))
        } else if self.answers_address(byte) {
            self.address_causes(byte)
        } else {
            self.silent(Stage::Standby)
        }
    }
}

// A byte that is put out: cells at the pointer, the ID bytes, the selected zone's register.
ghost use Rattle.std.specs.Prelude.{◌≡◌};
ghost use Rattle.chip.specs.Stages.{after_eighth, next_byte, register_drive, shows, sending_of};

use crate::{Act, Drive, Framed, Head, Region, Source, Stage};

// The last addresses of the main array and of the Security Register.
pub const LAST_MAIN: u8 = 127;

pub const LAST_SECURITY: u8 = 31;

// The number of the last ID byte.
pub const LAST_ID: u8 = 2;

impl Source {
    // The pointer after the eighth bit.
    fn after_eighth(self, pointer: u8) -> u8
        ensures { result ≡ after_eighth self pointer }
    {
        match self {
            Source::Cells(Region::Main) => bits::after_in::<LAST_MAIN>(pointer),
            Source::Cells(Region::Security) => bits::after_in::<LAST_SECURITY>(pointer),
            Source::Id(_) | Source::Register => pointer,
        }
    }

    // The stage in which the next byte is put out.
    fn next_byte(self) -> Stage
        ensures { result ≡ next_byte self }
    {
        match self {
            Source::Id(k) if k < LAST_ID => Stage::Sending(Source::Id(k + 1), 0),
            Source::Id(_) => Stage::Standby,
            Source::Cells(_) | Source::Register => Stage::Sending(self, 0),
        }
    }
}

// 0 for the register of a zone that is not ROM.
fn register_drive(flags: u8, selector: Option<u8>) -> Drive
    ensures { result ≡ register_drive flags selector }
{
    match selector {
        Some(zone) if !bits::is_rom(flags, zone) => Drive::Low,
        _ => Drive::Free,
    }
}

impl Head {
    // What frame n of a byte drives.
    pub fn shows(self, source: Source, n: u8) -> Drive
        ensures { result ≡ shows self source n }
    {
        match source {
            Source::Cells(region) => Drive::CellBit(region, self.pointer, n),
            Source::Id(k) => Drive::IdBit(k, n),
            Source::Register => register_drive(self.flags, self.selector),
        }
    }

    pub fn sending_frame(self, source: Source, count: u8, bit: u8) -> Framed
        ensures { result ≡ sending_of self source count bit }
    {
        let shown = self.shows(source, count);
        if count < 7 {
            self.frames(Stage::Sending(source, count + 1), shown, Act::Nothing)
        } else if count == 7 {
            self.pointing(source.after_eighth(self.pointer))
                .frames(Stage::Sending(source, 8), shown, Act::Nothing)
        } else if bit % 2 == 0 {
            self.silent(source.next_byte())
        } else {
            self.silent(Stage::Standby)
        }
    }
}

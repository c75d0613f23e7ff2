// The stage of one device: who is past its device address, who reads it, and with which bits. The numbers are the summands of a count.
ghost use Rattle.std.specs.Prelude.{◌≡◌};
ghost use Rattle.table.specs.WellFormed.{is_past, is_hearing, is_started, same_as};
ghost use Rattle.table.specs.Survey.{same_with, first_of};

use chip::{Byte, Stage};

pub fn is_past(stage: Stage) -> u8
    ensures { result ≡ is_past stage }
{
    u8::from(stage.is_past())
}

pub fn is_hearing(stage: Stage) -> u8
    ensures { result ≡ is_hearing stage }
{
    match stage {
        Stage::Address(_, _) => 1,
        _ => 0,
    }
}

pub fn is_started(stage: Stage) -> u8
    ensures { result ≡ is_started stage }
{
    match stage {
        Stage::Address(0, _) => 1,
        _ => 0,
    }
}

// Whether a device agrees with the bits of a device address so far.
pub fn same_as(byte: Byte, stage: Stage) -> bool
    ensures { result ≡ same_as byte.count byte.bits stage }
{
    match stage {
        Stage::Address(count, bits) => byte == Byte { count, bits },
        _ => true,
    }
}

// Whether it agrees with the first that reads its device address, if there is one before it.
#[tactic(auto, unfolding(crate::specs::Survey::same_with))]
pub fn same_with(first: Option<Byte>, stage: Stage) -> bool
    ensures { result ≡ same_with first stage }
{
    match first {
        Some(byte) => same_as(byte, stage),
        None => true,
    }
}

// The bits of the first, with one more device: its own where it is the first.
#[tactic(auto, unfolding(crate::specs::Survey::first_of))]
pub fn first_of(first: Option<Byte>, stage: Stage) -> Option<Byte>
    ensures { result ≡ first_of first stage }
{
    match (first, stage) {
        (None, Stage::Address(count, bits)) => Some(Byte { count, bits }),
        _ => first,
    }
}

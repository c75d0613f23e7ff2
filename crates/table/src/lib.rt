// Whether a lent table of devices is well-formed, in place. Each device by itself (devices.rt): its loaded fields, the ranges of its pointer, selector and counts
// (ranges.rt), the answered bytes that its stage holds (held.rt). All devices: who talks (talk.rt). One pass gathers both (surveying.rt).
#![tactic(auto)]

mod devices;
mod held;
mod ranges;
mod surveying;
mod talk;

ghost use Rattle.std.specs.Prelude.{◌≡◌};
ghost use Rattle.table.specs.Verdict.{verdict_of};

use chip::{Byte, Device};

// What a pass over the heads has seen. The counts are exact below sixteen.
#[derive(Clone, Copy)]
pub struct Survey {
    pub good: bool,
    pub least: u8,
    pub past: u8,
    pub hearing: u8,
    pub started: u8,
    pub programming: u8,
    // of the first device that reads its device address, if one does
    pub first: Option<Byte>,
    pub same: bool,
    pub busy: bool,
}

// Whether a table is well-formed, and whether a device of it programs.
#[derive(Clone, Copy)]
pub struct Verdict {
    pub good: bool,
    pub busy: bool,
}

// One pass over the heads of the lent devices.
pub fn judge(table: &[Device]) -> Verdict
    ensures { result ≡ verdict_of table.now }
{
    let mut survey = Survey::none();
    for device in table {
        survey = survey.with(device.head());
    }
    survey.verdict(table.len())
}

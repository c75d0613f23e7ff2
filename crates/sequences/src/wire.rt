// The master's end of the wire with one device on it: an event, a byte sent, a byte read.
ghost use Rattle.std.specs.Prelude.{◌≡◌};
ghost use Rattle.chip.specs.Take.{take_of};
ghost use Rattle.chip.specs.declared.Event.TheVariants.{Bit, Null};
ghost use Rattle.sequences.specs.Wire.{sent_to, got_with, got_to};

use chip::{Device, Event, Taken};

// The device after a byte was read, and the byte.
#[derive(Clone, Copy)]
pub struct Got {
    pub device: Device,
    pub byte: u8,
}

pub fn after(d: Device, ev: Event) -> Device
    ensures { result ≡ (take_of d ev).device }
{
    d.take(ev).device
}

// A Null: Start or Stop.
pub fn started(d: Device) -> Device
    ensures { result ≡ (take_of d Null).device }
{
    after(d, Event::Null)
}

// The eight bit frames of a byte.
#[tactic(auto, unfolding(crate::specs::Wire::sent_to))]
fn frames(d: Device, byte: u8) -> Device
    ensures { result ≡ sent_to 8 d byte }
{
    let mut e = d;
    for k in 0..8u8 {
        e = after(e, Event::Bit(bits::bit_at(byte, k)));
    }
    e
}

// A byte and its answer frame, which the master sends as 1: the level is the answer.
pub fn sends(d: Device, byte: u8) -> Taken
    ensures { result ≡ take_of (sent_to 8 d byte) (Bit 1) }
{
    frames(d, byte).take(Event::Bit(1))
}

// The same, for a byte whose answer is not looked at.
pub fn passes(d: Device, byte: u8) -> Device
    ensures { result ≡ (take_of (sent_to 8 d byte) (Bit 1)).device }
{
    sends(d, byte).device
}

// One frame of a byte that is read.
fn bit_more(d: Device, byte: u8) -> Got
    ensures { result ≡ got_with byte (take_of d (Bit 1)) }
{
    let t = d.take(Event::Bit(1));
    Got {
        device: t.device,
        byte: bits::more(byte, t.level),
    }
}

// The eight frames that read a byte; the ninth is the master's.
#[tactic(auto, unfolding(crate::specs::Wire::got_to))]
pub fn gets(d: Device) -> Got
    ensures { result ≡ got_to 8 d }
{
    let mut g = Got { device: d, byte: 0 };
    for _k in 0..8u8 {
        g = bit_more(g.device, g.byte);
    }
    g
}

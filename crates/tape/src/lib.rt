// The event file: its first fault with its place, or the number of its events; and the event at a byte position.
#![tactic(auto)]

ghost use Rattle.std.specs.Prelude.{◌≡◌, ◌<◌, ◌≤◌, length, get_or, drop};
ghost use Rattle.tape.specs.Tape.{longest, size_of, mask_of, kind_event, read_of, event_fault, scan_of, plain, Plain};

use chip::Event;
use faults::{Fault, Refusal};

// The most bytes of an event file.
pub const LONGEST: usize = 49152;

// The place of the kind byte in an event.
pub const KIND: usize = 2;

// Mark and kind, the bytes of an event that has no mask.
pub const SHORT: usize = 3;

// The bytes of a mask.
const MASK: usize = 8;

// The kinds after 0 and 1, which are a bit frame's.
pub const NULL: u8 = 2;

pub const WAIT: u8 = 3;

pub const RESET: u8 = 4;

// The last kind, and the only one with a mask.
pub const CUT: u8 = 5;

// An event and the number of its bytes.
#[derive(Clone, Copy)]
pub struct Read {
    pub event: Event,
    pub size: usize,
}

// The number of bytes of an event of a kind.
pub fn size_of(kind: u8) -> usize
    ensures { result ≡ size_of kind }
{
    if kind == CUT { SHORT + MASK } else { SHORT }
}

// The event of a kind; only a Cut looks at the mask, and a kind over 5, which no scanned file has, reads as Null.
#[tactic(auto, unfolding(crate::specs::Tape::kind_event))]
pub fn event_of(kind: u8, mask: u64) -> Event
    ensures { result ≡ kind_event kind mask }
{
    match kind {
        0 | 1 => Event::Bit(kind),
        NULL => Event::Null,
        WAIT => Event::Wait,
        RESET => Event::Reset,
        CUT => Event::Cut(mask),
        _ => Event::Null,
    }
}

// The fault of the event that begins what is left of the file, `at` bytes from its start.
#[tactic(auto, unfolding(crate::specs::Tape::event_fault))]
fn event_fault(left: &[u8], at: usize) -> Result<(), Fault>
    requires { at < longest }
    ensures { result ≡ event_fault at left.now }
{
    let &[_, _, kind, ..] = left else {
        return Err(Refusal::EventLength.at(at));
    };
    if !left.starts_with(b"EV") {
        return Err(Refusal::EventMark.at(at));
    }
    if CUT < kind {
        return Err(Refusal::EventKind.at(at + KIND));
    }
    if left.len() < size_of(kind) {
        return Err(Refusal::EventLength.at(at));
    }
    Ok(())
}

// Whether an event has neither a fault nor a mask.
fn is_plain(event: &[u8]) -> bool
    ensures { result ≡ plain event.now }
{
    matches!(event, [b'E', b'V', kind, ..] if *kind < CUT)
}

// How many events from `start` on are plain, one after the other: most of a file, three bytes each.
fn plain_ahead(tape: &[u8], start: usize) -> usize
    requires { start ≤ length tape.now }
    ensures { Plain tape.now start result }
{
    tape[start..]
        .chunks_exact(SHORT)
        .take_while(|event| is_plain(event))
        .count()
}

// The first fault, or the number of events. The step is as long as the event there, so the loop counts its bytes by hand.
#[tactic(auto, unfolding(crate::specs::Tape::scan_of, crate::specs::Tape::tape_fault), using(crate::proofs::ScanLaws::fits))]
pub fn scan_tape(tape: &[u8]) -> Result<usize, Fault>
    ensures { result ≡ scan_of tape.now }
{
    if LONGEST < tape.len() {
        return Err(Refusal::EventLength.at(0));
    }
    let mut at = 0;
    let mut events = 0;
    while at < tape.len() {
        event_fault(&tape[at..], at)?;
        at += size_of(tape[at + KIND]);
        events += 1;
        let plain = plain_ahead(tape, at);
        at += SHORT * plain;
        events += plain;
    }
    Ok(events)
}

// What is left of the file from a byte position on, nothing past its end.
fn left_from(tape: &[u8], at: usize) -> &[u8]
    ensures { result.now ≡ drop at tape.now }
{
    tape.get(at..).unwrap_or_default()
}

// Byte k of what is left of the file, 0 where there is none.
fn byte_at(left: &[u8], k: usize) -> u8
    ensures { result ≡ get_or left.now k 0 }
{
    left.get(k).copied().unwrap_or(0)
}

// The mask of the event that begins what is left of the file, whole or not.
fn mask_of(left: &[u8]) -> u64
    ensures { result ≡ mask_of left.now }
{
    let mut mask = [0; MASK];
    for (k, byte) in mask.iter_mut().enumerate() {
        *byte = byte_at(left, SHORT + k);
    }
    u64::from_le_bytes(mask)
}

// The event at a byte position and the number of its bytes.
#[tactic(auto, unfolding(crate::specs::Tape::kind_event))]
pub fn event_at(tape: &[u8], at: usize) -> Read
    ensures { result ≡ read_of (drop at tape.now) }
{
    let left = left_from(tape, at);
    let kind = byte_at(left, KIND);
    let mask = if kind == CUT { mask_of(left) } else { 0 };
    Read {
        event: event_of(kind, mask),
        size: size_of(kind),
    }
}

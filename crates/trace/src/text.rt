// What the trace program writes: "refused N", or a header and a line for each event.
ghost use Rattle.std.specs.Prelude.{◌≤◌};

use bus::Ran;
use chip::Event;
use std::fmt;
use std::fmt::Write;

// Text in a room of a fixed size; what does not fit is left out.
#[derive(Drop)]
pub struct Text<const ROOM: usize> {
    bytes: [u8; ROOM],
    length: usize,
    ghost within: { length ≤ ROOM },
}

impl<const ROOM: usize> Text<ROOM> {
    pub fn new() -> Self {
        Text {
            bytes: [0; ROOM],
            length: 0,
        }
    }

    pub fn as_bytes(&self) -> &[u8] {
        &self.bytes[..self.length]
    }

    fn put(&mut self, byte: u8) {
        if self.length < ROOM {
            self.bytes[self.length] = byte;
            self.length += 1;
        }
    }

    // At once where all have room: byte by byte, the longest event file takes a sixth more instructions.
    fn put_all(&mut self, bytes: &[u8]) {
        let room = &mut self.bytes[..];
        if let Some(place) = room[self.length..].get_mut(..bytes.len()) {
            place.copy_from_slice(bytes);
            self.length += bytes.len();
        } else {
            for &byte in bytes {
                self.put(byte);
            }
        }
    }
}

impl<const ROOM: usize> fmt::Write for Text<ROOM> {
    fn write_str(&mut self, words: &str) -> fmt::Result {
        self.put_all(words.as_bytes());
        Ok(())
    }
}

fn letter(event: Event) -> u8 {
    match event {
        Event::Bit(b) => b'0' + b % 2,
        Event::Null => b'N',
        Event::Wait => b'W',
        Event::Reset => b'R',
        Event::Cut(_) => b'C',
    }
}

fn digit(n: u8) -> u8 {
    b"0123456789ABCDEF"[usize::from(n % 16)]
}

// A line for each event, with its answer as two hex digits, as document 01's example has them.
// The number alone is formatted: with the whole line in one format, the longest event file takes twice as many instructions.
fn event_lines<const ROOM: usize>(
    text: &mut Text<ROOM>,
    tape: &[u8],
    answers: &[u8],
    events: usize,
) -> fmt::Result {
    let mut at = 0;
    for (i, answer) in answers.iter().take(events).enumerate() {
        let read = tape::event_at(tape, at);
        write!(text, "{i}")?;
        let (high, low) = (digit(answer / 16), digit(answer % 16));
        text.put_all(&[b' ', letter(read.event), b' ', high, low, b'\n']);
        at = at.saturating_add(read.size);
    }
    Ok(())
}

// The text of a run.
pub fn traced<const ROOM: usize>(
    bus: &mut [u8],
    tape: &[u8],
    answers: &mut [u8],
    text: &mut Text<ROOM>,
) -> fmt::Result {
    match bus::run(bus, tape, answers) {
        Err(fault) => writeln!(text, "refused {}", fault.refusal.number()),
        Ok(Ran { events, refused }) => {
            writeln!(text, "events {events} refused {refused}")?;
            event_lines(text, tape, answers, events)
        }
    }
}

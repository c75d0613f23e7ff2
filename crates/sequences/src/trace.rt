// Document 01, "The trace program": its example, to the letter.
use crate::device::delivered;
use crate::text::{self, say};
use chip::{Device, Event, Part, Stage};

const EVENTS: usize = 10;

const NULL_ANSWER: u8 = 0x02;

const NOT_CARRIED_OUT: u8 = 0x80;

// N, or a bit 0 or 1.
fn event(letter: u8) -> Event {
    match letter {
        b'N' => Event::Null,
        _ => Event::Bit(letter % 2),
    }
}

// The answer byte: the wire is 0 if the master's bit is 0 or the device drives 0.
fn answer(d: Device, ev: Event) -> u8 {
    match ev {
        Event::Bit(_) if matches!(d.stage, Stage::Programming(..)) => NOT_CARRIED_OUT,
        Event::Bit(bit) => bit & d.take(ev).level,
        _ => NULL_ANSWER,
    }
}

fn answers(letters: [u8; EVENTS]) -> [u8; EVENTS] {
    let mut d = delivered(Part::At21cs11);
    letters.map(|letter| {
        let ev = event(letter);
        let found = answer(d, ev);
        d.takes(ev);
        found
    })
}

// One AT21CS11 at address 0.
pub fn example(rt: &impl Print) {
    let letters = *b"N101000001";
    let found = answers(letters);
    let refused = found.iter().filter(|f| **f == NOT_CARRIED_OUT).count();
    say!(rt; "events ");
    say!(rt; "{EVENTS}");
    say!(rt; " refused ");
    say!(rt; "{refused}");
    say!(rt; "\n");
    for (i, (letter, byte)) in letters.into_iter().zip(found).enumerate() {
        say!(rt; "{i}");
        say!(rt; " ");
        text::letter(rt, letter);
        say!(rt; " ");
        text::byte(rt, byte);
        say!(rt; "\n");
    }
}

// The devices of a bus file on one wire, and a run of an event file over them.
#![tactic(auto)]

mod act;
mod glide;
mod play;
mod talk;

ghost use Rattle.std.specs.Prelude.{◌≡◌, length};
ghost use Rattle.bus.specs.Read.{bus_read};
ghost use Rattle.bus.specs.Run.{ran_of, bus_after, answers_after};

use faults::{Fault, Refusal};

// What a run that is not refused answers: the number of events, and of those that were not carried out.
#[derive(Clone, Copy)]
pub struct Ran {
    pub events: usize,
    pub refused: usize,
}

// How far a run has come: the place in the event file, the number of answers.
#[derive(Clone, Copy)]
pub struct Progress {
    pub at: usize,
    pub answered: usize,
}

// The event file's events on the bus file's devices: an answer byte for each, and the stored fields as they are then in the bus file.
pub fn run(bus: &mut [u8], tape: &[u8], answers: &mut [u8]) -> Result<Ran, Fault>
    ensures value { result ≡ ran_of bus.old tape.now (length answers.old) }
    ensures bus_after { bus.new ≡ bus_after bus.old tape.now (length answers.old) }
    ensures answers_after { answers.new ≡ answers_after bus.old tape.now answers.old }
    ensures reading { bus.new ≡ bus_read bus.old tape.now (length answers.old) }
{
    let loaded = image::load(bus)?;
    let events = tape::scan_tape(tape)?;
    let lacks_room = answers.len() < events;
    if lacks_room {
        return Err(Refusal::AnswerRoom.at(0));
    }
    let refused = play::play(loaded.devices, loaded.count, bus, tape, answers);
    Ok(Ran { events, refused })
}

// The C face: functions on bytes and numbers, declared in include/borewizard.h.
#![tactic(auto)]

ghost use Rattle.std.specs.Prelude.{◌≡◌, length};
ghost use Rattle.faults.specs.Faults.{number_in};
ghost use Rattle.bus.specs.Run.{event_count_of, refused_count_of, ran_of, bus_after, answers_after};
ghost use Rattle.image.specs.View.{view_fault, view_at};

#[unsafe(no_mangle)]
pub extern "C" fn borewizard_run(
    bus: &mut [u8],
    events: &[u8],
    answers: &mut [u8],
    count: &mut usize,
    refused: &mut usize,
) -> u32
    ensures value { result ≡ number_in (ran_of bus.old events.now (length answers.old)) }
    ensures bus_after { bus.new ≡ bus_after bus.old events.now (length answers.old) }
    ensures answers_after { answers.new ≡ answers_after bus.old events.now answers.old }
    ensures count_after { count.new ≡ event_count_of (ran_of bus.old events.now (length answers.old)) }
    ensures refused_after { refused.new ≡ refused_count_of (ran_of bus.old events.now (length answers.old)) }
{
    match bus::run(bus, events, answers) {
        Ok(ran) => {
            *count = ran.events;
            *refused = ran.refused;
            0
        }
        Err(fault) => {
            *count = 0;
            *refused = 0;
            u32::from(fault.refusal.number())
        }
    }
}

#[unsafe(no_mangle)]
pub extern "C" fn borewizard_zone(bus: &[u8], slave: u8, zone: u8, from: &mut usize) -> u32
    ensures value { result ≡ number_in (view_fault bus.now slave zone) }
    ensures from_after { from.new ≡ view_at bus.now slave zone }
{
    *from = image::view_at(bus, slave, zone);
    match image::view_fault(bus, slave, zone) {
        Ok(()) => 0,
        Err(fault) => u32::from(fault.refusal.number()),
    }
}

// Document 01's step and save over the devices that a caller lends as one table, in place. One pass over the heads judges the table (crate table); in a second each
// device takes the event, or has its record written. No device is copied.
#![tactic(auto)]

ghost use Rattle.std.specs.Prelude.{◌≡◌, ◌*◌, ◌≤◌, true, false, length, MatchResult};
ghost use Rattle.faults.specs.declared.Refusal.TheVariants.{IllFormed};
ghost use Rattle.wire.specs.Wire.{any_busy, table_of, wire_of, masters_level};
ghost use Rattle.image.specs.Layout.{record_size};
ghost use Rattle.image.specs.Image.{laid, saved_of};
ghost use Rattle.table.specs.WellFormed.{well_formed};
ghost use Rattle.lent.specs.Step.{stepped_of, step_answer};
ghost use Rattle.lent.specs.Save.{save_answer, saved_room};

use chip::{Device, Event};
use faults::Refusal;
use image::RECORD_SIZE;

// Whether a device of the table programs, if the table is well-formed.
fn judged(table: &[Device]) -> Result<bool, Refusal>
    ensures { MatchResult result (λ busy. (well_formed table.now ≡ true) × (busy ≡ any_busy table.now)) (λ refusal. (well_formed table.now ≡ false) × (refusal ≡ IllFormed)) }
{
    let verdict = table::judge(table);
    if verdict.good {
        Ok(verdict.busy)
    } else {
        Err(Refusal::IllFormed)
    }
}

// Each device takes the event; the wire's level after all of them.
fn take_all(table: &mut [Device], ev: Event) -> u8
    ensures devices { table.new ≡ table_of table.old ev }
    ensures level { result ≡ wire_of table.old ev (masters_level ev) }
{
    let mut level = wire::masters_level(ev);
    for device in table.iter_mut() {
        level = wire::pulled(device.takes(ev), level);
    }
    level
}

// The record of each device, one after the other.
fn save_records(table: &[Device], room: &mut [u8])
    requires { record_size * length table.now ≤ length room.old }
    ensures { room.new ≡ laid room.old 0 (saved_of table.now) }
{
    for (i, device) in table.iter().enumerate() {
        image::save_record(room, i * RECORD_SIZE, device);
    }
}

// One event over the lent devices; a refusal leaves them as they were.
#[tactic(auto, unfolding(crate::specs::Step::step_check, crate::specs::Step::stepped_of, crate::specs::Step::step_answer))]
pub fn step(table: &mut [Device], kind: u8, mask: u64) -> Result<u8, Refusal>
    ensures { (result ≡ step_answer table.old kind mask) × (table.new ≡ stepped_of table.old kind mask) }
{
    let busy = judged(table)?;
    if tape::CUT < kind {
        return Err(Refusal::EventKind);
    }
    let ev = tape::event_of(kind, mask);
    if wire::barred(ev, busy) {
        return Ok(wire::NOT_CARRIED_OUT);
    }
    let level = take_all(table, ev);
    Ok(wire::replied(ev, level))
}

// The stored fields of the lent devices at the start of a lent room; a refusal leaves it as it was.
#[tactic(auto, unfolding(crate::specs::Save::save_answer, crate::specs::Save::saved_room))]
pub fn save(table: &[Device], room: &mut [u8]) -> Result<(), Refusal>
    ensures { (result ≡ save_answer table.now (length room.old)) × (room.new ≡ saved_room table.now room.old) }
{
    judged(table)?;
    if room.len() / RECORD_SIZE < table.len() {
        return Err(Refusal::SaveRoom);
    }
    save_records(table, room);
    Ok(())
}

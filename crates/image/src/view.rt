// The view of one zone.
ghost use Rattle.std.specs.Prelude.{◌≡◌};
ghost use Rattle.faults.specs.Faults.{if_clean};
ghost use Rattle.image.specs.View.{view_fault, view_at, view_of};

use crate::layout::{HIGHEST_ZONE, MAIN_AT, RECORD_SIZE, SLAVE_AT, ZONE_SIZE};
use crate::scan;
use faults::{Fault, Refusal};

// Where the bytes of a zone begin in the file, or why it is not shown.
#[tactic(auto, using(crate::proofs::Views::shown_bad, crate::proofs::Views::shown_far))]
fn find_zone(bus: &[u8], slave: u8, zone: u8) -> Result<usize, Fault>
    ensures { result ≡ if_clean (view_fault bus.now slave zone) (view_at bus.now slave zone) }
{
    scan::bus_fault(bus)?;
    if zone > HIGHEST_ZONE {
        return Err(Refusal::NoSuchZone.at(0));
    }
    let Some(k) = bus
        .chunks_exact(RECORD_SIZE)
        .position(|record| record[SLAVE_AT] == slave)
    else {
        return Err(Refusal::NoSuchZone.at(0));
    };
    Ok(k * RECORD_SIZE + MAIN_AT + ZONE_SIZE * usize::from(zone))
}

// Why a view is refused.
pub fn view_fault(bus: &[u8], slave: u8, zone: u8) -> Result<(), Fault>
    ensures { result ≡ view_fault bus.now slave zone }
{
    find_zone(bus, slave, zone)?;
    Ok(())
}

// Where the bytes of a zone begin in the file; 0 on a refusal.
#[tactic(auto, using(crate::proofs::Views::shown_or))]
pub fn view_at(bus: &[u8], slave: u8, zone: u8) -> usize
    ensures { result ≡ view_at bus.now slave zone }
{
    find_zone(bus, slave, zone).unwrap_or(0)
}

// The bytes of a zone, as a part of the caller's own bus file; nothing on a refusal.
#[tactic(auto, unfolding(crate::specs::View::view_of), using(crate::proofs::Views::shown_room))]
pub fn zone_view(bus: &[u8], slave: u8, zone: u8) -> &[u8]
    ensures { result.now ≡ view_of bus.now slave zone }
{
    match find_zone(bus, slave, zone) {
        Ok(at) => &bus[at..at + ZONE_SIZE],
        Err(_) => &bus[..0],
    }
}

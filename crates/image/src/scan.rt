// The first fault of a bus file, with its place.
ghost use Rattle.std.specs.Prelude.{◌≡◌, ◌≤◌, ◌<◌, length};
ghost use Rattle.bits.specs.Words.{is_not};
ghost use Rattle.image.specs.Layout.{record_size, longest_file};
ghost use Rattle.image.specs.Scan.{not_part, record_fault, bus_fault};

use crate::layout::{
    FLAGS_AT, HIGHEST_FLAGS, HIGHEST_SLAVE, LONGEST_FILE, MARK, PART_AT, RECORD_SIZE, RESERVED_AT,
    RESERVED_BYTE, RESERVED_SIZE, SLAVE_AT,
};
use chip::Part;
use faults::{Fault, Refusal};

// Whether a part's byte is that of an AT21CS01 or an AT21CS11.
pub fn is_part(part: u8) -> bool
    ensures { result ≡ is_not (not_part part) }
{
    part == Part::At21cs01 as u8 || part == Part::At21cs11 as u8
}

// The first fault of a record, `at` bytes from the file's start; `least` is the least slave address that it may have.
#[tactic(auto, unfolding(crate::specs::Scan::record_fault))]
fn record_fault(bytes: &[u8], at: usize, least: u8) -> Result<(), Fault>
    requires { (record_size ≤ length bytes.now) × (at < longest_file) }
    ensures { result ≡ record_fault at least bytes.now }
{
    if !bytes.starts_with(&MARK) {
        return Err(Refusal::RecordMark.at(at));
    }
    if !is_part(bytes[PART_AT]) {
        return Err(Refusal::UnknownPart.at(at + PART_AT));
    }
    let slave = bytes[SLAVE_AT];
    if slave > HIGHEST_SLAVE {
        return Err(Refusal::SlaveOverSeven.at(at + SLAVE_AT));
    }
    if slave < least {
        return Err(Refusal::SlaveNotRising.at(at + SLAVE_AT));
    }
    if bytes[FLAGS_AT] > HIGHEST_FLAGS {
        return Err(Refusal::FlagBits.at(at + FLAGS_AT));
    }
    let reserved = &bytes[RESERVED_AT..RESERVED_AT + RESERVED_SIZE];
    if let Some(good) = reserved.iter().position(|&byte| byte != RESERVED_BYTE) {
        return Err(Refusal::ReservedByte.at(at + RESERVED_AT + good));
    }
    Ok(())
}

#[tactic(auto, unfolding(crate::specs::Scan::bus_fault), using(crate::proofs::Records::scanned_bad, crate::proofs::Records::scanned_low, crate::proofs::Records::scanned_all))]
pub fn bus_fault(bus: &[u8]) -> Result<(), Fault>
    ensures { result ≡ bus_fault bus.now }
{
    if bus.len() > LONGEST_FILE || bus.len() % RECORD_SIZE != 0 {
        return Err(Refusal::BusLength.at(0));
    }
    let mut least = 0;
    for (k, record) in bus.chunks_exact(RECORD_SIZE).enumerate() {
        record_fault(record, k * RECORD_SIZE, least)?;
        least = record[SLAVE_AT] + 1;
    }
    Ok(())
}

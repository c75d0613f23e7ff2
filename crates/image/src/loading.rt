// A bus file's records as devices.
ghost use Rattle.std.specs.Prelude.{◌≡◌, ◌+◌, ◌≤◌, length, take, drop};
ghost use Rattle.image.specs.Layout.{record_size};
ghost use Rattle.image.specs.Image.{device_of, blank_device, device_at, loaded_of};

use crate::layout::{
    FLAGS_AT, ID_AT, ID_SIZE, MAIN_AT, MAIN_SIZE, MOST_RECORDS, PART_AT, RECORD_SIZE, SERIAL_AT,
    SERIAL_SIZE, SLAVE_AT, USER_AT, USER_SIZE,
};
use crate::{Loaded, scan};
use chip::{Device, Speed, Stage};
use faults::Fault;

#[tactic(auto, unfolding(crate::specs::Image::blank_device))]
fn blank() -> Device
    ensures { result ≡ blank_device }
{
    Device {
        part: 0,
        slave: 0,
        id: [0; ID_SIZE],
        flags: 0,
        main: [0; MAIN_SIZE],
        serial: [0; SERIAL_SIZE],
        user: [0; USER_SIZE],
        pointer: 0,
        speed: Speed::High,
        selector: None,
        page: [0; 8],
        stage: Stage::Standby,
    }
}

// The bytes of a record's field.
fn field<const SIZE: usize>(bytes: &[u8], at: usize) -> [u8; SIZE]
    requires { at + SIZE ≤ length bytes.now }
    ensures { result ≡ take SIZE (drop at bytes.now) }
{
    let mut field = [0; SIZE];
    field.copy_from_slice(&bytes[at..at + SIZE]);
    field
}

// The device of a record.
#[tactic(auto, unfolding(crate::specs::Image::device_of, crate::specs::Image::blank_device))]
fn read_record(bytes: &[u8]) -> Device
    requires { record_size ≤ length bytes.now }
    ensures { result ≡ device_of bytes.now }
{
    Device {
        part: bytes[PART_AT],
        slave: bytes[SLAVE_AT],
        id: field(bytes, ID_AT),
        flags: bytes[FLAGS_AT],
        main: field(bytes, MAIN_AT),
        serial: field(bytes, SERIAL_AT),
        user: field(bytes, USER_AT),
        ..blank()
    }
}

// The device of the record at a place, blank where a record's bytes are not there.
#[tactic(auto, unfolding(crate::specs::Image::device_at))]
pub fn load_record(bus: &[u8], at: usize) -> Device
    ensures { result ≡ device_at bus.now at }
{
    if bus.len().saturating_sub(at) < RECORD_SIZE {
        blank()
    } else {
        read_record(&bus[at..])
    }
}

// The devices of a bus file, or its first fault.
#[tactic(auto, unfolding(crate::specs::Image::loaded_of), using(crate::proofs::Files::devices_count, crate::proofs::Files::table_is, crate::proofs::Files::loaded_all))]
pub fn load(bus: &[u8]) -> Result<Loaded, Fault>
    ensures { result ≡ loaded_of bus.now }
{
    scan::bus_fault(bus)?;
    let mut devices = [blank(); MOST_RECORDS];
    for (k, record) in bus.chunks_exact(RECORD_SIZE).enumerate() {
        devices[k] = read_record(record);
    }
    Ok(Loaded {
        count: bus.len() / RECORD_SIZE,
        devices,
    })
}

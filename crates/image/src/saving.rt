// The stored fields of a device as a record of a bus file.
ghost use Rattle.std.specs.Prelude.{◌≡◌, ◌+◌, ◌≤◌, length};
ghost use Rattle.image.specs.Layout.{record_size};
ghost use Rattle.image.specs.Image.{record_of, saved_at};

use crate::layout::{
    FLAGS_AT, ID_AT, MAIN_AT, MARK, PART_AT, RECORD_SIZE, RESERVED_AT, RESERVED_BYTE, SERIAL_AT,
    SLAVE_AT, USER_AT,
};
use chip::Device;

// The record of a device into a room of a record's size.
fn write_record(room: &mut [u8], device: &Device)
    requires { length room.old ≡ record_size }
    ensures written { room.new ≡ record_of device.now }
    ensures whole { length (record_of device.now) ≡ record_size }
{
    room[..PART_AT].copy_from_slice(&MARK);
    room[PART_AT] = device.part;
    room[SLAVE_AT] = device.slave;
    room[ID_AT..FLAGS_AT].copy_from_slice(&device.id);
    room[FLAGS_AT] = device.flags;
    room[MAIN_AT..SERIAL_AT].copy_from_slice(&device.main);
    room[SERIAL_AT..RESERVED_AT].copy_from_slice(&device.serial);
    room[RESERVED_AT..USER_AT].fill(RESERVED_BYTE);
    room[USER_AT..RECORD_SIZE].copy_from_slice(&device.user);
}

// The record of a device at a place of a room; nothing where a record's bytes are not there. The second promise is for who saves the devices of a slice: a proof knows
// how long the arrays of a device are where it is lent by itself, and not where it lies in a slice.
#[tactic(auto, unfolding(crate::specs::Image::saved_at), using(crate::proofs::Lists::put_laid))]
pub fn save_record(room: &mut [u8], at: usize, device: &Device)
    ensures placed { room.new ≡ saved_at room.old at device.now }
    ensures whole { at + record_size ≤ length room.old → length (record_of device.now) ≡ record_size }
{
    if room.len().saturating_sub(at) >= RECORD_SIZE {
        write_record(&mut room[at..at + RECORD_SIZE], device);
    }
}

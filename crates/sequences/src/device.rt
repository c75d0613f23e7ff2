// A device as it is delivered (003, section 9): every cell FFh, nothing ROM, frozen or locked; slave address 0, just loaded.
use chip::{Device, Part, Speed, Stage};

fn id(part: Part) -> [u8; 3] {
    match part {
        Part::At21cs01 => [0x00, 0xD2, 0x00],
        Part::At21cs11 => [0x00, 0xD3, 0x80],
    }
}

pub fn delivered(part: Part) -> Device {
    Device {
        part: part as u8,
        slave: 0,
        id: id(part),
        flags: 0,
        main: [0xFF; 128],
        // the last byte is the CRC of the other seven by 7.4.1's polynomial, the most significant bit first
        serial: [0xA0, 0x01, 0x02, 0x03, 0x04, 0x05, 0x06, 0x37],
        user: [0xFF; 16],
        pointer: 0,
        speed: Speed::High,
        selector: None,
        page: [0; 8],
        stage: Stage::Standby,
    }
}

// The bus file's layout, named as in specs/Layout.antt: every size, offset and limit is here and nowhere else.
pub const MOST_RECORDS: usize = 8;

pub const RECORD_SIZE: usize = 168;

pub const LONGEST_FILE: usize = MOST_RECORDS * RECORD_SIZE;

pub const MARK: [u8; 2] = *b"SW";

pub const PART_AT: usize = 2;

pub const SLAVE_AT: usize = 3;

pub const HIGHEST_SLAVE: u8 = 7;

pub const ID_AT: usize = 4;

pub const ID_SIZE: usize = 3;

pub const FLAGS_AT: usize = 7;

pub const HIGHEST_FLAGS: u8 = 63;

pub const MAIN_AT: usize = 8;

pub const MAIN_SIZE: usize = 128;

pub const SERIAL_AT: usize = 136;

pub const SERIAL_SIZE: usize = 8;

pub const RESERVED_AT: usize = 144;

pub const RESERVED_SIZE: usize = 8;

pub const RESERVED_BYTE: u8 = 0xFF;

pub const USER_AT: usize = 152;

pub const USER_SIZE: usize = 16;

pub const ZONE_SIZE: usize = 32;

pub const HIGHEST_ZONE: u8 = 3;

// The bus file: its first fault with the place (scan.rt), its records as devices (loading.rt), a record of a device's stored fields (saving.rt), the view of one zone (view.rt).
#![tactic(auto)]

mod layout;
mod loading;
mod saving;
mod scan;
mod view;

use chip::Device;
pub use layout::{
    FLAGS_AT, HIGHEST_FLAGS, HIGHEST_SLAVE, HIGHEST_ZONE, ID_AT, LONGEST_FILE, MAIN_AT, MAIN_SIZE,
    MOST_RECORDS, RECORD_SIZE, SERIAL_AT, USER_AT, USER_SIZE,
};
pub use loading::{load, load_record};
pub use saving::save_record;
pub use scan::{bus_fault, is_part};
pub use view::{view_at, view_fault, zone_view};

// How many devices a file has, and these, with blank ones after them.
#[derive(Clone, Copy)]
pub struct Loaded {
    pub count: usize,
    pub devices: [Device; MOST_RECORDS],
}

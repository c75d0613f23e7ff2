// Each device by itself, in the table's order.
ghost use Rattle.std.specs.Prelude.{◌≡◌};
ghost use Rattle.table.specs.WellFormed.{good_load, good_device};
ghost use Rattle.table.specs.Survey.{bare};

use crate::{held, ranges};
use chip::Head;
use image::{HIGHEST_FLAGS, HIGHEST_SLAVE};

// The loaded fields obey the rules; `least` is the least slave address that is above the one before.
#[tactic(auto, unfolding(crate::specs::WellFormed::good_load))]
pub fn good_load(least: u8, head: Head) -> bool
    ensures { result ≡ good_load least (bare head) }
{
    image::is_part(head.part)
        && head.slave <= HIGHEST_SLAVE
        && least <= head.slave
        && head.flags <= HIGHEST_FLAGS
}

// What a device is in, whatever the others do.
#[tactic(auto, unfolding(crate::specs::WellFormed::good_device))]
pub fn good_device(head: Head) -> bool
    ensures { result ≡ good_device (bare head) }
{
    ranges::good_pointer(head)
        && ranges::good_selector(head)
        && ranges::good_counts(head.stage)
        && held::good_held(head)
}

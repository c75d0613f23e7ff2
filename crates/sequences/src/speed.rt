// 003, section 6.6: the speeds, set with R/W 0 and asked with R/W 1. Part 11h has no standard speed.
use crate::bench;
use crate::text::say;
use chip::Part;

fn speeds(rt: &impl Print, part: Part) {
    bench::plays(
        rt,
        part,
        b"6.6 high at first: N E1 N D1
6.6.1 standard speed: N D0 N D1 N E1
6.6.2 high speed: N E0 N D1 N E1
",
    );
}

pub fn plays(rt: &impl Print) {
    say!(rt; "\nSpeed, AT21CS01\n");
    speeds(rt, Part::At21cs01);
    say!(rt; "\nSpeed, AT21CS11\n");
    speeds(rt, Part::At21cs11);
}

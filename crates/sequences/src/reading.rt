// 003, sections 7.1 to 7.3 and 7.5: reads of the main array, and the manufacturer ID.
use crate::bench;
use crate::text::say;
use chip::Part;

fn main_array(rt: &impl Print) {
    bench::plays(
        rt,
        Part::At21cs01,
        b"
Reading
6.3 cells 00h to 07h: N A0 00 10 11 12 13 14 15 16 17 W
6.3 cells 7Eh and 7Fh: N A0 7E E1 E2 W
7.2 random read: N A0 05 N A1 -
7.1 current address read, twice: N A1 - N A1 -
7.3 sequential read, from 7Fh to 00h: N A0 7E N A1 + + + -
7.1 standby after the master's 1: N A1 - -
",
    );
}

// Document 01: "three ID bytes, each next one asked for as above, then standby; the pointer stays".
fn manufacturer_id(rt: &impl Print, part: Part) {
    bench::plays(
        rt,
        part,
        b"7.5 R/W 0: N C0
7.5 the pointer is set: N A0 02 12 W N A0 02
7.5 manufacturer ID, then standby: N C1 + + + -
7.5 the pointer stayed: N A1 -
",
    );
}

pub fn plays(rt: &impl Print) {
    main_array(rt);
    say!(rt; "\nManufacturer ID, AT21CS01\n");
    manufacturer_id(rt, Part::At21cs01);
    say!(rt; "\nManufacturer ID, AT21CS11\n");
    manufacturer_id(rt, Part::At21cs11);
}

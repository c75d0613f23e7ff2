// 003, sections 4 and 6.1 to 6.3: device address, byte write, page write, and the device during a cycle.
use crate::bench;
use chip::Part;

fn byte_write(rt: &impl Print) {
    bench::plays(
        rt,
        Part::At21cs01,
        b"
Writing
4 device address, another slave's, no opcode: N A0 N A2 N 90
6.2 byte write: N A0 2A 5C W
6.2 cell 2Ah: N A0 2A N A1 -
4 address bit 7 is ignored: N A0 AA N A1 -
",
    );
}

// The last four of twelve bytes replace the first four of the page; the next page is untouched.
fn page_write(rt: &impl Print) {
    bench::plays(
        rt,
        Part::At21cs01,
        b"6.3 page write of twelve bytes: N A0 40 01 02 03 04 05 06 07 08 09 0A 0B 0C W
6.3 the pointer is inside the page: N A1 -
6.3 the page and two cells of the next: N A0 40 N A1 + + + + + + + + + -
6.3 three bytes at 06h: N A0 06 11 22 33 W
6.3 cells 00h to 08h: N A0 00 N A1 + + + + + + + + -
6.3 a Reset straight after data: N A0 06 44 55 R N A0 06 N A1 + -
",
    );
}

fn during_a_cycle(rt: &impl Print) {
    bench::plays(
        rt,
        Part::At21cs01,
        b"6.1 a cycle runs: N A0 30 5A N
6.1 frames, a Null and a Reset meanwhile: A0 31 77 N A0 R
6.1 stored meanwhile, and after the Wait: ?30 W ?30
6.1 cells 30h and 31h: A0 30 N A1 + -
",
    );
}

pub fn plays(rt: &impl Print) {
    byte_write(rt);
    page_write(rt);
    during_a_cycle(rt);
}

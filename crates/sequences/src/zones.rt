// 003, section 8: the ROM zones, their registers, and the freeze.
use crate::bench;
use chip::Part;

pub fn plays(rt: &impl Print) {
    bench::plays(
        rt,
        Part::At21cs01,
        b"
ROM zones
8.2.1 no zone selected: N 71
8.2.1 zone 0, repeated: N 70 01 N 71 + -
8.2.2 another byte than FFh: N 70 01 FE W N 71 -
8.2.2 a second data byte: N 70 01 FF FF W N 71 -
8.2.2 zone 0 becomes ROM: N 70 01 FF W
8.2.1 zone 0, repeated: N 70 01 N 71 + -
8.2.2 ROM already, with a cycle: N 70 01 FF N A0 W N 71 -
8.2 two low bits, and none: N 70 03 N 70 F0
8.2.2 F4h is zone 2: N 70 F4 FF W
8.2.1 zones 1, 2 and 3: N 70 02 N 71 - N 70 04 N 71 - N 70 08 N 71 -
8.3 data at 1Fh and 20h: N A0 1F 5C W N A0 20 5C W
8.3 data at 3Fh and 40h: N A0 3F 5D W N A0 40 5D W
8.3 data at 5Fh and 60h: N A0 5F 5E W N A0 60 5E W
8.3 cells 1Fh and 20h: N A0 1F N A1 + -
8.3 cells 3Fh and 40h: N A0 3F N A1 + -
8.3 cells 5Fh and 60h: N A0 5F N A1 + -
8.2.3 another byte than 55h: N 10 54
8.2.3 another byte than AAh: N 10 55 AB W
8.2.3 a second data byte: N 10 55 AA AA W
8.2.3 R/W 1 ends there: N 11 55
8.2.3 freeze: N 10 55 AA W
8.2.3 frozen: N 10 N 11
8.2.3 zone 1 is not ROM and stays so: N 70 02 FF W N 71 -
8.2.3 zone 0 is ROM and stays so: N 70 01 FF W N 71 -
8.2.3 cell 21h can be written: N A0 21 66 W N A0 21 N A1 -
",
    );
}

// Document 01: "After load, Reset or Cut: pointer 00h, high speed, no zone selector, and bits are ignored until a Null or Wait." No lock is cleared.
use crate::bench;
use chip::Part;

pub fn plays(rt: &impl Print) {
    bench::plays(
        rt,
        Part::At21cs01,
        b"
Reset
bits before the first Null: A0
cells 00h and 45h: N A0 00 A5 W N A0 45 B6 W
zone 0 ROM, zones frozen, register locked: N 70 01 FF W N 10 55 AA W N 20 60 00 W
standard speed, zone 2, pointer 45h: N D0 N 70 04 N A0 45
Reset, and bits before a Null: R A1
pointer 00h: N A1 -
high speed: N E1 N D1
no zone selector: N 71
zone 0 is ROM: N 70 01 N 71 - N A0 00 00
zones frozen, register locked: N 10 N 20 60
cell 45h: N A0 45 N A1 -
",
    );
}

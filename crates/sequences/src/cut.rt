// Document 01, "Mixture": a Cut while the device programs. Mask bytes are counted from the right.
use crate::bench;
use chip::Part;

fn cells(rt: &impl Print) {
    bench::plays(
        rt,
        Part::At21cs01,
        b"
Cut
old bytes: N A0 10 F0 F0 F0 F0 F0 W
mask byte 0 for cell 10h: N A0 10 3C N (000000000000000F) N A0 10 N A1 + -
mask bytes 3 and 4 for cells 13h and 14h: N A0 13 3C 3C N (F0F0F0F00FF0F0F0) N A0 12 N A1 + + -
no cycle yet: N A0 10 00 (FFFFFFFFFFFFFFFF) N A0 10 N A1 -
pointer 00h after it: N A0 10 N A1 - (0000000000000000) N A1 -
",
    );
}

fn one_way_bits(rt: &impl Print) {
    bench::plays(
        rt,
        Part::At21cs01,
        b"lock, lowest mask bit 0: N 20 60 00 N (FFFFFFFFFFFFFFFE) N 20 60
lock, lowest mask bit 1: N 20 60 00 N (0000000000000001) N 20 60
zone 3, lowest mask bit 0: N 70 08 FF N (FFFFFFFFFFFFFFFE) N 70 08 N 71 -
zone 3, lowest mask bit 1: N 70 08 FF N (0000000000000001) N 70 08 N 71 -
zone 3, set already: N 70 08 FF N (0000000000000000) N 70 08 N 71 -
freeze, lowest mask bit 0: N 10 55 AA N (FFFFFFFFFFFFFFFE) N 10
freeze, lowest mask bit 1: N 10 55 AA N (0000000000000001) N 10
",
    );
}

pub fn plays(rt: &impl Print) {
    cells(rt);
    one_way_bits(rt);
}

// 003, sections 6.4, 6.5 and 7.4: the Security Register, its serial number and its lock.
use crate::device::delivered;
use crate::text::say;
use crate::{bench, wire};
use chip::Part;

const ADDRESSES: u8 = 32;

// The answer to a data byte at an address.
fn answer_at(address: u8) -> u8 {
    let d = wire::started(delivered(Part::At21cs01));
    let a = wire::passes(wire::passes(d, 0xB0), address);
    wire::sends(a, 0x77).level
}

fn answers(rt: &impl Print) {
    say!(rt; "6.4 answers to data at 00h to 1Fh: ");
    for address in 0..ADDRESSES {
        say!(rt; "{}", answer_at(address));
    }
    say!(rt; "\n");
}

fn register(rt: &impl Print) {
    bench::plays(
        rt,
        Part::At21cs01,
        b"
Security Register
6.4 two user bytes: N B0 10 C1 C2 W
6.4 three at 1Eh, inside their page: N B0 1E 01 02 03 W
6.4 data at 00h and 0Fh: N B0 00 77 W N B0 0F 77 W
7.4 cells 10h to 17h: N B0 10 N B1 + + + + + + + -
7.4 cells 18h to 1Fh, then 00h: N B0 F8 N B1 + + + + + + + + -
7.4.1 serial number, reserved bytes: N B0 00 N B1 + + + + + + + + + + + + + + + -
7 one pointer, 45h is Security 05h: N A0 45 N B1 -
6.5.2 check lock: N 20 60 N 21 60 00
6.5 another byte than 6xh: N 20 50
6.5 a second data byte: N 20 60 00 00 W
6.5.2 check lock: N 20 60 N 21 60
6.5 lock: N 20 6F A5 W
6.5.2 check lock: N 20 60 N 21 60
6.5.1 data for the locked register: N B0 10 77 W
6.5.1 cell 10h: N B0 10 N B1 -
",
    );
}

pub fn plays(rt: &impl Print) {
    register(rt);
    answers(rt);
}

// Plays document 01's trace example and the sequences of 003, sections 4 to 8, on one proved device, and writes what went over the wire.
#![tactic(auto)]

mod abandoned;
mod bench;
mod cut;
mod device;
mod reading;
mod reset;
mod script;
mod security;
mod speed;
mod text;
mod trace;
mod wire;
mod writing;
mod zones;

use text::say;

fn main(rt: HostRuntime) {
    trace::example(&rt);
    say!(rt; "
N Null, W Wait, R:p Reset, C(mask):p Cut, p the level of the discovery response
A0:0 a byte sent and its answer, <5C:1 a byte read and the master's ninth bit
?30=FF what a cell holds, not over the wire
");
    writing::plays(&rt);
    abandoned::plays(&rt);
    security::plays(&rt);
    speed::plays(&rt);
    reading::plays(&rt);
    zones::plays(&rt);
    cut::plays(&rt);
    reset::plays(&rt);
}

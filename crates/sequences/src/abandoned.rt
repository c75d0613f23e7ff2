// 003, section 6.2: "If a Stop condition is sent at any other time, the write operation is aborted." Each write command, with a second data byte, is
// left by a Null after each number of frames.
use crate::device::delivered;
use crate::text::say;
use crate::wire;
use chip::{Device, Event, Part};

const FRAMES: u8 = 36;

const CELL: u8 = 0x2A;

const NEW: u8 = 0x5C;

// Frame k of a command: nine frames a byte, the answer frame sent as 1.
fn frame(bytes: [u8; 4], k: u8) -> u8 {
    match k % 9 {
        8 => 1,
        place => bits::bit_at(bytes[usize::from(k / 9 % 4)], place),
    }
}

// A device just after n frames of a command and a Null.
fn left_after(bytes: [u8; 4], n: u8) -> Device {
    let mut d = wire::started(delivered(Part::At21cs01));
    for k in 0..n {
        d = wire::after(d, Event::Bit(frame(bytes, k)));
    }
    wire::started(d)
}

// A device that programs does not answer its address.
fn programs(bytes: [u8; 4], n: u8) -> bool {
    wire::sends(left_after(bytes, n), 0xA0).level == 1
}

fn random_read(d: Device, address: u8) -> u8 {
    let e = wire::started(wire::passes(wire::passes(d, 0xA0), address));
    wire::gets(wire::passes(e, 0xA1)).byte
}

// The cell has the new byte after a Wait.
fn arrives(bytes: [u8; 4], n: u8) -> bool {
    let d = wire::after(left_after(bytes, n), Event::Wait);
    random_read(d, CELL) == NEW
}

// A line with the numbers of frames after which a command is seen to have ended in a Stop.
fn tries<F: Fn([u8; 4], u8) -> bool>(rt: &impl Print, words: &str, bytes: [u8; 4], ended: F)
    requires { F.IsAlwaysCallable ended }
{
    say!(rt; "{words}");
    for n in 0..=FRAMES {
        if ended(bytes, n) {
            say!(rt; " ");
            say!(rt; "{n}");
        }
    }
    say!(rt; "\n");
}

pub fn plays(rt: &impl Print) {
    let page = [0xA0, CELL, NEW, 0x5D];
    say!(rt; "\nA Null after each number of frames, 0 to 36\n");
    tries(
        rt,
        "6.2 N A0 2A 5C 5D, cell 2Ah reads 5Ch after",
        page,
        arrives,
    );
    for (words, bytes) in [
        ("6.2 N A0 2A 5C 5D programs after", page),
        ("6.4 N B0 12 5C 5D programs after", [0xB0, 0x12, 0x5C, 0x5D]),
        ("6.5 N 20 60 00 00 programs after", [0x20, 0x60, 0x00, 0x00]),
        (
            "8.2.2 N 70 01 FF FF programs after",
            [0x70, 0x01, 0xFF, 0xFF],
        ),
        (
            "8.2.3 N 10 55 AA AA programs after",
            [0x10, 0x55, 0xAA, 0xAA],
        ),
    ] {
        tries(rt, words, bytes, programs);
    }
}

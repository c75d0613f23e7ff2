// Text on standard output, each piece by a write of its own. What cannot be written is passed over: the plays go on to their end.

macro_rules! say {
    ($rt:expr; $($text:tt)+) => {{
        let _ = print!($rt; $($text)+);
    }};
}

pub(crate) use say;

// A letter as it stands, without a format.
pub fn letter(rt: &impl Print, c: u8) {
    let _ = rt.write_all(&[c]);
}

// A byte as two digits.
pub fn byte(rt: &impl Print, x: u8) {
    say!(rt; "{:X}", x >> 4);
    say!(rt; "{:X}", x & 0xF);
}

// A byte that went over the wire, and the bit of its ninth frame.
pub fn exchange(rt: &impl Print, passed: u8, ninth: u8) {
    byte(rt, passed);
    say!(rt; ":");
    say!(rt; "{ninth}");
}

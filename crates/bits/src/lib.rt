// Bytes taken apart by masks and shifts, and merged. Every function is total.
#![tactic(auto)]

ghost use Rattle.std.specs.Prelude.{◌≡◌, ◌+◌, ◌%◌};
ghost use Rattle.bits.specs.Words.{is_not};
ghost use Rattle.bits.specs.Bytes.{more_of, bit_at, opcode_of, slave_of, read_of, main_address, security_address, after_in, next_in, is_lock_byte, is_freeze_byte, zone_of};
ghost use Rattle.bits.specs.Bytes.{has_flag, with_flag, is_rom, is_frozen, is_locked, zone_at, mask_byte, merged};

// The places of the one-way bits in the flags beside the zones' 0 to 3.
pub const FROZEN: u8 = 4;

pub const LOCKED: u8 = 5;

// The high four bits that 2h asks for.
const LOCK_BYTE: u8 = 6;

const FREEZE_BYTE: u8 = 0x55;

// The last address of a page of eight.
const LAST_IN_PAGE: u8 = 7;

// The byte so far with one bit more, the most significant first.
pub fn more(byte: u8, bit: u8) -> u8
    ensures { result ≡ more_of byte bit }
{
    (byte % 128) * 2 + bit % 2
}

// The bit that frame `count`, 0 to 7, puts out.
pub fn bit_at(byte: u8, count: u8) -> u8
    ensures { result ≡ bit_at byte count }
{
    (byte >> (7 - count % 8)) & 1
}

pub fn opcode(byte: u8) -> u8
    ensures { result ≡ opcode_of byte }
{
    byte >> 4
}

pub fn slave(byte: u8) -> u8
    ensures { result ≡ slave_of byte }
{
    (byte >> 1) & 7
}

// The R/W bit of a device address.
pub fn reads(byte: u8) -> bool
    ensures { result ≡ read_of byte }
{
    byte & 1 == 1
}

pub fn main_address(byte: u8) -> u8
    ensures { result ≡ main_address byte }
{
    byte & 127
}

pub fn security_address(byte: u8) -> u8
    ensures { result ≡ security_address byte }
{
    byte & 31
}

// The address after p in a region whose last address is LAST, where it goes round.
pub fn after_in<const LAST: u8>(p: u8) -> u8
    ensures { result ≡ after_in (LAST + 1) p }
{
    let size = u16::from(LAST) + 1;
    ((u16::from(p) % size + 1) % size) as u8
}

// The next address inside a page of eight.
pub fn next_in_page(p: u8) -> u8
    ensures { result ≡ next_in 8 p }
{
    p / 8 * 8 + after_in::<LAST_IN_PAGE>(p)
}

// The byte that 2h takes after its device address.
pub fn is_lock_byte(byte: u8) -> bool
    ensures { result ≡ is_lock_byte byte }
{
    byte >> 4 == LOCK_BYTE
}

// The byte that 1h takes after its device address.
pub fn is_freeze_byte(byte: u8) -> bool
    ensures { result ≡ is_freeze_byte byte }
{
    byte == FREEZE_BYTE
}

// The zone that a zone byte names: the place of the only one among its four low bits.
pub fn zone_of(byte: u8) -> Option<u8>
    ensures { result ≡ zone_of byte }
{
    let low = byte & 15;
    if low.count_ones() == 1 {
        Some(low.trailing_zeros() as u8)
    } else {
        None
    }
}

// Whether the flag at a place is set.
pub fn flag(flags: u8, place: u8) -> bool
    ensures { result ≡ has_flag flags place }
{
    (flags >> (place % 8)) & 1 == 1
}

// The flags with the one at a place set.
pub fn with_flag(flags: u8, place: u8) -> u8
    ensures { result ≡ with_flag flags place }
{
    flags | (1 << (place % 8))
}

// Whether a zone is ROM.
pub fn is_rom(flags: u8, zone: u8) -> bool
    ensures { result ≡ is_rom flags zone }
{
    flag(flags, zone % 4)
}

// The zones are not frozen.
pub fn thawed(flags: u8) -> bool
    ensures { result ≡ is_not (is_frozen flags) }
{
    !flag(flags, FROZEN)
}

// The Security Register is not locked.
pub fn unlocked(flags: u8) -> bool
    ensures { result ≡ is_not (is_locked flags) }
{
    !flag(flags, LOCKED)
}

// The zone of a main address is not ROM.
pub fn open_zone(flags: u8, address: u8) -> bool
    ensures { result ≡ is_not (is_rom flags (zone_at address)) }
{
    !is_rom(flags, address % 128 / 32)
}

// The mask byte of a cell, by the cell's place in its page.
#[tactic(auto, unfolding(crate::specs::Bytes::mask_byte))]
pub fn mask_byte(mask: u64, address: u8) -> u8
    ensures { result ≡ mask_byte mask address }
{
    ((mask >> (8 * (address % 8))) & 255) as u8
}

// The new byte's bits where the mask has ones, the old byte's elsewhere.
pub fn merge(old: u8, new: u8, mask: u8) -> u8
    ensures { result ≡ merged old new mask }
{
    (new & mask) | (old & !mask)
}

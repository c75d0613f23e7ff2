// The bytes of a device: what stands at an address, and what a cycle leaves.
ghost use Rattle.std.specs.Prelude.{◌≡◌, ◌%◌, [], true};
ghost use Rattle.chip.specs.Memory.{of_bytes, security_byte, cell_of, level_of, gathered, burnt_cell, burnt_to, acted, enacted};

use crate::{Act, Command, Device, Drive, Region};

// Whether page cell k is one of the `taken` cells just before the pointer.
pub fn gathered(p: u8, taken: u8, k: u8) -> bool
    ensures { result ≡ gathered p taken k }
{
    (p % 8 + 7 - k % 8) % 8 < taken
}

// One cell of a cycle: the new byte's bits where its mask byte has ones.
fn burn_cell(cells: &mut [u8], at: usize, new: u8, mask: u8)
    ensures { cells.new ≡ burnt_cell cells.old at true new mask }
{
    if at < cells.len() {
        cells[at] = bits::merge(cells[at], new, mask);
    }
}

// A cycle on the page of eight that begins at `base`: the cells that were gathered.
#[tactic(auto, unfolding(crate::specs::Memory::burnt_to))]
pub fn burn(cells: &mut [u8], base: u8, page: &[u8; 8], p: u8, taken: u8, mask: u64)
    ensures { cells.new ≡ burnt_to 8 cells.old base page.now p taken mask }
{
    for k in 0..8 {
        if gathered(p, taken, k) {
            burn_cell(
                cells,
                usize::from(base) + usize::from(k),
                page[usize::from(k)],
                bits::mask_byte(mask, k),
            );
        }
    }
}

// The byte of the Security Register at an address.
fn security_byte(serial: &[u8; 8], user: &[u8; 16], address: u8) -> u8
    ensures { result ≡ security_byte (of_bytes [] [] serial.now user.now []) (address % 32) }
{
    match usize::from(address % 32) {
        at @ 0..8 => serial[at],
        8..16 => 0xFF,
        at => user[at - 16],
    }
}

// The byte at an address of a region.
fn cell(main: &[u8; 128], serial: &[u8; 8], user: &[u8; 16], region: Region, p: u8) -> u8
    ensures { result ≡ cell_of (of_bytes [] main.now serial.now user.now []) region p }
{
    match region {
        Region::Main => main[usize::from(p % 128)],
        Region::Security => security_byte(serial, user, p),
    }
}

// The level that a drive puts on the wire, by the bytes where they lie.
#[tactic(auto, unfolding(crate::specs::Memory::level_of))]
pub fn level(drive: Drive, id: &[u8; 3], main: &[u8; 128], serial: &[u8; 8], user: &[u8; 16]) -> u8
    ensures { result ≡ level_of (of_bytes id.now main.now serial.now user.now []) drive }
{
    match drive {
        Drive::Free => 1,
        Drive::Low => 0,
        Drive::CellBit(region, p, n) => bits::bit_at(cell(main, serial, user, region, p), n),
        Drive::IdBit(k, n) => bits::bit_at(id[usize::from(k % 3)], n),
    }
}

// What an act makes of the bytes, where they lie.
#[tactic(auto, unfolding(crate::specs::Memory::acted))]
pub fn enact(act: Act, main: &mut [u8; 128], user: &mut [u8; 16], page: &mut [u8; 8])
    ensures main { main.new ≡ (enacted act main.old user.old page.old).main }
    ensures user { user.new ≡ (enacted act main.old user.old page.old).user }
    ensures page { page.new ≡ (enacted act main.old user.old page.old).page }
{
    match act {
        Act::Nothing => {}
        Act::Put(k, byte) => page[usize::from(k % 8)] = byte,
        Act::Program(Command::Page(Region::Main), p, taken, mask) => {
            burn(main, p % 128 / 8 * 8, page, p, taken, mask);
        }
        Act::Program(Command::Page(Region::Security), p, taken, mask) => {
            burn(user, p % 16 / 8 * 8, page, p, taken, mask);
        }
        Act::Program(..) => {}
    }
}

impl Device {
    // The byte at an address of a region.
    pub fn cell(&self, region: Region, p: u8) -> u8
        ensures { result ≡ cell_of self.now region p }
    {
        cell(&self.main, &self.serial, &self.user, region, p)
    }

    // The level that a drive puts on the wire.
    #[tactic(auto, using(crate::proofs::ByteLaws::level_bytes))]
    pub fn level(&self, drive: Drive) -> u8
        ensures { result ≡ level_of self.now drive }
    {
        level(drive, &self.id, &self.main, &self.serial, &self.user)
    }

    // What an act makes of the bytes.
    #[tactic(auto, using(crate::proofs::ByteLaws::acted_bytes))]
    pub fn acts(&mut self, act: Act)
        ensures { self.new ≡ acted self.old act }
    {
        enact(act, &mut self.main, &mut self.user, &mut self.page);
    }
}

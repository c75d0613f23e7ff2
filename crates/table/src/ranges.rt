// The ranges of one device's pointer, selector and stage counts.
ghost use Rattle.std.specs.Prelude.{◌≡◌};
ghost use Rattle.table.specs.WellFormed.{highest_in, highest_pointer, good_pointer, in_zones, asks_zone, past_zone_byte, good_selector, good_bits, most_taken, good_source, good_counts};
ghost use Rattle.table.specs.Survey.{bare};

use chip::{Command, Head, LAST_ID, LAST_MAIN, LAST_SECURITY, Region, Source, Stage};
use image::HIGHEST_ZONE;

// The highest pointer wherever no address is below it.
const HIGHEST: u8 = LAST_MAIN;

const BYTE_BITS: u8 = 8;

const PAGE_SIZE: u8 = 8;

// ---- the pointer
fn highest_in(command: Command) -> u8
    ensures { result ≡ highest_in command }
{
    match command {
        Command::Page(Region::Security) => LAST_SECURITY,
        _ => HIGHEST,
    }
}

fn highest_pointer(stage: Stage) -> u8
    ensures { result ≡ highest_pointer stage }
{
    match stage {
        Stage::Data(command, _, _, _) | Stage::Programming(command, _) => highest_in(command),
        _ => HIGHEST,
    }
}

pub fn good_pointer(head: Head) -> bool
    ensures { result ≡ good_pointer (bare head) }
{
    head.pointer <= highest_pointer(head.stage)
}

// ---- the selector
fn in_zones(selector: Option<u8>) -> bool
    ensures { result ≡ in_zones selector }
{
    selector.is_none_or(|zone| zone <= HIGHEST_ZONE)
}

fn asks_zone(command: Command) -> bool
    ensures { result ≡ asks_zone command }
{
    matches!(command, Command::Rom)
}

fn past_zone_byte(stage: Stage) -> bool
    ensures { result ≡ past_zone_byte stage }
{
    match stage {
        Stage::Data(command, _, _, _) | Stage::Programming(command, _) => asks_zone(command),
        _ => false,
    }
}

pub fn good_selector(head: Head) -> bool
    ensures { result ≡ good_selector (bare head) }
{
    in_zones(head.selector) && (!past_zone_byte(head.stage) || head.selector.is_some())
}

// ---- the stage's counts
// A byte that comes in: up to eight bits, and their value so far.
fn good_bits(n: u8, x: u8) -> bool
    ensures { result ≡ good_bits n x }
{
    n == BYTE_BITS || (n < BYTE_BITS && x < 1 << n)
}

// How many data bytes a command answers.
fn most_taken(command: Command) -> u8
    ensures { result ≡ most_taken command }
{
    match command {
        Command::Page(_) => PAGE_SIZE,
        Command::Check => 0,
        Command::Lock | Command::Rom | Command::Freeze => 1,
    }
}

fn good_source(source: Source) -> bool
    ensures { result ≡ good_source source }
{
    match source {
        Source::Id(k) => k <= LAST_ID,
        Source::Cells(_) | Source::Register => true,
    }
}

pub fn good_counts(stage: Stage) -> bool
    ensures { result ≡ good_counts stage }
{
    match stage {
        Stage::Standby => true,
        Stage::Address(n, x) | Stage::Place(_, n, x) => good_bits(n, x),
        Stage::Data(command, taken, n, x) => taken <= most_taken(command) && good_bits(n, x),
        Stage::Sending(source, n) => good_source(source) && n <= BYTE_BITS,
        Stage::Programming(command, taken) => 0 < taken && taken <= most_taken(command),
    }
}

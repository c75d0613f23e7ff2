// The answered bytes that a stage presupposes: none that the rules would not answer.
ghost use Rattle.std.specs.Prelude.{◌≡◌};
ghost use Rattle.table.specs.WellFormed.{address_held, place_held, data_held, source_held, good_held};
ghost use Rattle.table.specs.Survey.{bare};

use chip::{Command, FIRST_USER, Head, Region, Source, Stage};

fn address_held(head: Head, command: Command) -> bool
    ensures { result ≡ address_held (bare head) command }
{
    match command {
        Command::Freeze => bits::thawed(head.flags),
        Command::Page(_) | Command::Lock | Command::Check | Command::Rom => true,
    }
}

fn place_held(head: Head, command: Command) -> bool
    ensures { result ≡ place_held (bare head) command }
{
    match command {
        Command::Lock | Command::Check => bits::unlocked(head.flags),
        Command::Page(_) | Command::Rom | Command::Freeze => true,
    }
}

fn data_held(head: Head, command: Command) -> bool
    ensures { result ≡ data_held (bare head) command }
{
    match command {
        Command::Page(Region::Main) => bits::open_zone(head.flags, head.pointer),
        Command::Page(Region::Security) => {
            FIRST_USER <= head.pointer && bits::unlocked(head.flags)
        }
        Command::Rom => bits::thawed(head.flags),
        Command::Lock | Command::Check | Command::Freeze => true,
    }
}

fn source_held(head: Head, source: Source) -> bool
    ensures { result ≡ source_held (bare head) source }
{
    match source {
        Source::Register => head.selector.is_some(),
        Source::Cells(_) | Source::Id(_) => true,
    }
}

pub fn good_held(head: Head) -> bool
    ensures { result ≡ good_held (bare head) head.stage }
{
    match head.stage {
        Stage::Standby | Stage::Address(_, _) => true,
        Stage::Place(command, _, _) => address_held(head, command),
        Stage::Data(command, taken, _, _) => {
            address_held(head, command)
                && place_held(head, command)
                && (taken == 0 || data_held(head, command))
        }
        Stage::Sending(source, _) => source_held(head, source),
        Stage::Programming(command, _) => {
            address_held(head, command) && place_held(head, command) && data_held(head, command)
        }
    }
}

// The trace program: bus.img and events.trc of the current directory in, a line of text for each event out. It writes no file.
#![tactic(auto)]

ghost use Rattle.std.specs.Prelude.{◌≤◌, length};

mod text;

use std::fs::File;
use std::io;
use std::io::{Read, Write};
use text::Text;

// One byte more than document 01 allows, so that a longer file is seen to be longer and refused by its number.
const BUS_ROOM: usize = image::LONGEST_FILE + 1;

const TAPE_ROOM: usize = tape::LONGEST + 1;

const ANSWER_ROOM: usize = tape::LONGEST / tape::SHORT;

// A line has at most eleven bytes, as `16383 C 80` and LF, and the header fewer than 64.
const TEXT_ROOM: usize = 11 * ANSWER_ROOM + 64;

// The start of a file, as much of it as the room has place for; a missing file counts as empty.
fn read_file<'a>(rt: &HostRuntime, name: &str, room: &'a mut [u8]) -> &'a mut [u8]
    ensures { length result.now ≤ length room.old }
{
    match File::open(rt, name) {
        Ok(file) => read_full(file, room),
        Err(_) => &mut [],
    }
}

// The bytes of a file until it or the room ends, or no more can be read.
fn read_full(mut file: File, room: &mut [u8]) -> &mut [u8]
    ensures { length result.now ≤ length room.old }
{
    let mut filled = 0;
    while filled < room.len()
        && let Ok(more) = file.read(&mut room[filled..])
    {
        if more == 0 {
            break;
        }
        filled += more;
    }
    &mut room[..filled]
}

fn main(rt: HostRuntime) -> io::Result<()> {
    let mut bus_room = [0; BUS_ROOM];
    let mut tape_room = [0; TAPE_ROOM];
    let mut answers = [0; ANSWER_ROOM];
    let mut text = Text::<TEXT_ROOM>::new();
    let bus = read_file(&rt, "bus.img", &mut bus_room);
    let tape = read_file(&rt, "events.trc", &mut tape_room);
    // Text refuses nothing that is written to it.
    let _ = text::traced(bus, tape, &mut answers, &mut text);
    rt.stdout().write_all(text.as_bytes())
}

// A run keeps the devices' heads in an array and their gathered pages in another; their other bytes stay in the bus file, where the end of a cycle changes them.
ghost use Rattle.std.specs.Prelude.{◌≡◌, map, ◌*◌, ◌≤◌, length, take};
ghost use Rattle.std.proofs.lemmas.List.Edits.{sets};
ghost use Rattle.bits.specs.Words.{pick};
ghost use Rattle.faults.specs.Faults.{number_in};
ghost use Rattle.chip.specs.Take.{head_of};
ghost use Rattle.wire.specs.Wire.{last_of, answers_of, refused_of};
ghost use Rattle.tape.specs.Tape.{tape_fault, events_of};
ghost use Rattle.image.specs.Layout.{record_size};
ghost use Rattle.image.specs.Scan.{bus_fault};
ghost use Rattle.image.specs.Image.{devices_of, saved_of};
ghost use Rattle.bus.specs.Held.{number, NamedIn, Played};

use crate::talk::Talk;
use crate::{Progress, act, glide, talk};
use chip::{Device, Event, Head};
use image::RECORD_SIZE;
use std::ops::Range;

fn heads_of(devices: [Device; 8]) -> [Head; 8]
    ensures { result ≡ map head_of devices }
{
    devices.map(|device| device.head())
}

// Where the device with each slave address stands.
fn places_of(heads: &[Head]) -> [Option<usize>; 8]
    ensures { NamedIn heads.now result }
{
    let mut who = [None; 8];
    for (j, head) in heads.iter().enumerate() {
        who[usize::from(head.slave % 8)] = Some(j);
    }
    who
}

// What an event that was played gives: the wire's level, who talks then, and whether a device programs.
#[derive(Clone, Copy)]
struct Heard {
    level: u8,
    talker: Option<usize>,
    busy: bool,
}

// An event played on the devices of a span. Without the hint LLVM makes worse code of the loop, and a run is a tenth slower.
#[inline(always)]
fn hear(
    bus: &mut [u8],
    heads: &mut [Head; 8],
    pages: &mut [[u8; 8]; 8],
    ev: Event,
    span: Range<usize>,
    talk: Talk,
) -> Heard
    requires { (span.start ≤ span.end) × (span.end ≤ 8) × (record_size * span.end ≤ length bus.old) }
    ensures { Played ev (number talk.talker) talk.others span.start heads.old pages.old bus.old span.end heads.new pages.new bus.new result.level (number result.talker) result.busy }
{
    let mut level = wire::masters_level(ev);
    let mut talker = None;
    let mut busy = false;
    for j in span.start..span.end {
        let from = j * RECORD_SIZE;
        let framed = talk.standing(heads[j], j).hears(ev);
        let head = framed.head;
        let shown = act::shown(bus, from, framed.drive);
        level = wire::pulled(act::level(framed.drive, shown), level);
        act::act(bus, from, &mut pages[j], head.flags, framed.act);
        heads[j] = head;
        talker = talk::talks(talker, j, head.stage);
        busy |= wire::busy(head.stage);
    }
    Heard {
        level,
        talker,
        busy,
    }
}

// All events, over the loaded devices of a clean file and a clean tape, with room for the answers; how many were not carried out. Events differ in length and a turn plays more than one, so no `for` goes over them.
pub fn play(
    devices: [Device; 8],
    count: usize,
    bus: &mut [u8],
    tape: &[u8],
    answers: &mut [u8],
) -> usize
    requires { (number_in (bus_fault bus.old) ≡ 0) × (take count devices ≡ devices_of bus.old) × (number_in (tape_fault tape.now) ≡ 0) × (length (events_of tape.now) ≤ length answers.old) × (count ≤ 8) }
    ensures value { result ≡ refused_of (devices_of bus.old) (events_of tape.now) }
    ensures bus_after { bus.new ≡ saved_of (last_of (devices_of bus.old) (events_of tape.now)) }
    ensures answers_after { answers.new ≡ sets answers.old 0 (answers_of (devices_of bus.old) (events_of tape.now)) }
{
    let mut heads = heads_of(devices);
    let who = places_of(&heads[..count]);
    let mut pages = [[0u8; 8]; 8];
    let mut talk = talk::NOBODY;
    let mut any = false;
    let mut refused: usize = 0;
    let mut progress = Progress { at: 0, answered: 0 };
    while progress.at < tape.len() {
        let read = tape::event_at(tape, progress.at);
        let ev = read.event;
        let barred = wire::barred(ev, any);
        let named = who[talk::called(talk.others)];
        let span = talk.span_of(ev, barred, named, count);
        let heard = hear(bus, &mut heads, &mut pages, ev, span, talk);
        if !barred {
            talk.talker = heard.talker;
            talk.others = talk::others_after(ev, talk.others);
            any = heard.busy;
        }
        answers[progress.answered] = wire::answer(barred, ev, heard.level);
        refused += wire::counted(barred);
        progress.at += read.size;
        progress.answered += 1;
        progress = glide::glide(count, bus, tape, progress, &mut talk, &mut heads, answers);
    }
    refused
}

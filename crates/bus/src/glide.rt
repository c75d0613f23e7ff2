// The frames of a byte before its ninth, played together: they move the byte on, and no more.
ghost use Rattle.std.specs.Prelude.{◌≡◌, ◌*◌, ◌≤◌, length};
ghost use Rattle.image.specs.Layout.{record_size};
ghost use Rattle.bus.specs.Held.{number, byte_of, resumed, pointed, glided, driven, Room, Frames, Glides};

use crate::act::SILENT;
use crate::talk::Talk;
use crate::{Progress, act};
use chip::{Byte, Drive, Head, Stage};
use image::RECORD_SIZE;
use tape::{KIND, NULL, SHORT};

// Frames from a place of the event file on, until the byte's ninth is due or another event comes; `shown` is put out.
fn frames(
    tape: &[u8],
    start: Progress,
    answers: &mut [u8],
    under: Byte,
    shown: u8,
) -> (Progress, Byte)
    requires { Room tape.now start (length answers.old) }
    ensures { Frames tape.now shown start under answers.old result.0 result.1 answers.new }
{
    let mut progress = start;
    let mut byte = under;
    // How far the byte came is what is asked, so its count is no `for`'s.
    while byte.count < 8 && progress.at < tape.len() {
        let bit = tape[progress.at + KIND];
        if bit >= NULL {
            break;
        }
        answers[progress.answered] = wire::pulled(bits::bit_at(shown, byte.count), bit);
        byte = Byte {
            count: byte.count + 1,
            bits: bits::more(byte.bits, bit),
        };
        progress.at += SHORT;
        progress.answered += 1;
    }
    (progress, byte)
}

// The same; frames in which nothing is put out, the most, have the loop with that constant in it: a run is a tenth slower without.
fn frames_of(
    tape: &[u8],
    start: Progress,
    answers: &mut [u8],
    under: Byte,
    shown: u8,
) -> (Progress, Byte)
    requires { Room tape.now start (length answers.old) }
    ensures { Frames tape.now shown start under answers.old result.0 result.1 answers.new }
{
    if shown == SILENT {
        frames(tape, start, answers, under, SILENT)
    } else {
        frames(tape, start, answers, under, shown)
    }
}

// The byte under way in a stage.
fn byte_of(s: Stage) -> Byte
    ensures { result ≡ byte_of s }
{
    match s {
        Stage::Standby => Byte { count: 0, bits: 0 },
        Stage::Address(count, bits)
        | Stage::Place(_, count, bits)
        | Stage::Data(_, _, count, bits) => Byte { count, bits },
        Stage::Sending(_, count) => Byte { count, bits: 0 },
        Stage::Programming(..) => Byte { count: 8, bits: 0 },
    }
}

fn resumed(s: Stage, b: Byte) -> Stage
    ensures { result ≡ resumed s b }
{
    match s {
        Stage::Address(..) => Stage::Address(b.count, b.bits),
        Stage::Place(c, ..) => Stage::Place(c, b.count, b.bits),
        Stage::Data(c, t, ..) => Stage::Data(c, t, b.count, b.bits),
        Stage::Sending(q, _) => Stage::Sending(q, b.count),
        Stage::Standby | Stage::Programming(..) => s,
    }
}

fn driven(h: Head) -> Drive
    ensures { result ≡ driven h h.stage }
{
    match h.stage {
        Stage::Sending(q, _) => h.shows(q, 0),
        _ => Drive::Free,
    }
}

// The head after frames up to frame `count`: the eighth bit of a byte that is put out moves the pointer.
fn pointed(h: Head, count: u8) -> Head
    ensures { result ≡ pointed h h.stage count }
{
    match h.stage {
        Stage::Sending(q, n) if n < 8 && count == 8 => h.sending_frame(q, 7, 0).head,
        _ => h,
    }
}

fn glided(h: Head, b: Byte) -> Head
    ensures { result ≡ glided h b }
{
    pointed(h, b.count).at(resumed(h.stage, b))
}

// The frames ahead that only move a byte on: that of the device that talks, or the one that all others hear.
pub fn glide(
    count: usize,
    bus: &[u8],
    tape: &[u8],
    start: Progress,
    talk: &mut Talk,
    heads: &mut [Head; 8],
    answers: &mut [u8],
) -> Progress
    requires { Room tape.now start (length answers.old) × (count ≤ 8) × (length bus.now ≡ record_size * count) }
    ensures talker { talk.new.talker ≡ talk.old.talker }
    ensures glides { Glides count bus.now tape.now (number talk.old.talker) start talk.old.others heads.old answers.old result talk.new.others heads.new answers.new }
{
    match talk.talker {
        Some(k) if k < count => {
            let head = heads[k];
            let shown = act::shown(bus, RECORD_SIZE * k, driven(head));
            let (progress, byte) = frames_of(tape, start, answers, byte_of(head.stage), shown);
            heads[k] = glided(head, byte);
            progress
        }
        _ => {
            let (progress, byte) = frames(tape, start, answers, byte_of(talk.others), SILENT);
            talk.others = resumed(talk.others, byte);
            progress
        }
    }
}

// One pass over the heads of a table, one head further; and what is said of the table after the last.
ghost use Rattle.std.specs.Prelude.{◌≡◌};
ghost use Rattle.table.specs.Survey.{unseen, seen, tally, talks_of, well_of};

use crate::{Survey, Verdict, devices, talk};
use chip::Head;
use image::MOST_RECORDS;

fn tally(n: u8, k: u8) -> u8
    ensures { result ≡ tally n k }
{
    n % 16 + k % 2
}

impl Survey {
    // Before the first device.
    #[tactic(auto, unfolding(crate::specs::Survey::unseen))]
    pub fn none() -> Survey
        ensures { result ≡ unseen }
    {
        Survey {
            good: true,
            least: 0,
            past: 0,
            hearing: 0,
            started: 0,
            programming: 0,
            first: None,
            same: true,
            busy: false,
        }
    }

    // With one more head.
    #[tactic(auto, unfolding(crate::specs::Survey::seen))]
    pub fn with(self, head: Head) -> Survey
        ensures { result ≡ seen self head }
    {
        let stage = head.stage;
        Survey {
            good: self.good && devices::good_load(self.least, head) && devices::good_device(head),
            least: head.slave % 128 + 1,
            past: tally(self.past, talk::is_past(stage)),
            hearing: tally(self.hearing, talk::is_hearing(stage)),
            started: tally(self.started, talk::is_started(stage)),
            programming: tally(self.programming, u8::from(wire::busy(stage))),
            first: talk::first_of(self.first, stage),
            same: self.same && talk::same_with(self.first, stage),
            busy: self.busy || wire::busy(stage),
        }
    }

    #[tactic(auto, unfolding(crate::specs::Survey::talks_of))]
    fn talks(self, count: usize) -> bool
        ensures { result ≡ talks_of self count }
    {
        match self.past {
            0 => self.same,
            1 if self.programming == 0 => self.hearing == 0,
            1 => usize::from(self.started) + 1 == count,
            _ => false,
        }
    }

    #[tactic(auto, unfolding(crate::specs::Survey::well_of))]
    fn well_formed(self, count: usize) -> bool
        ensures { result ≡ well_of self count }
    {
        count <= MOST_RECORDS && self.good && self.talks(count)
    }

    // Of a table of `count` devices, after the last of them.
    pub fn verdict(self, count: usize) -> Verdict
        ensures { result ≡ record { good = well_of self count; busy = self.busy } }
    {
        Verdict {
            good: self.well_formed(count),
            busy: self.busy,
        }
    }
}

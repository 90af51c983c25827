ghost use Rattle.std.specs.Prelude.{◌≡◌, ◌<◌, ◌≤◌};
ghost use Rattle.player.specs.Runs.{past, total};

use crate::progress::{Phase, Progress};
use codes::Refusal;
use playback::Answer;

// A checked file that is being played. Each record that is counted has moved the place on.
#[derive(Drop)]
pub struct Run<'a> {
    pub(crate) bytes: &'a [u8],
    pub(crate) progress: Progress,
    ghost counted: { total progress.counts ≤ progress.place },
}

impl Run<'_> {
    // Where the run stands.
    pub fn progress(&self) -> Progress
        ensures { result ≡ self.now.progress }
    {
        self.progress
    }

    // Counts the answer to the record at the place, and goes to its end; an end record stays where it is.
    pub(crate) fn pass(&mut self, answer: Result<Answer, Refusal>, end: usize)
        requires { self.old.progress.place < end }
        ensures bytes { self.new.bytes.now ≡ self.old.bytes.now }
        ensures progress { self.new.progress ≡ past end answer self.old.progress }
    {
        let progress = &mut self.progress;
        match answer {
            Ok(Answer::Ended) => {
                progress.phase = Phase::Ended;
                return;
            }
            Ok(Answer::Taken) => progress.counts.taken += 1,
            Ok(Answer::PassedOver) => progress.counts.passed_over += 1,
            Err(_) => progress.counts.refused += 1,
        }
        progress.place = end;
    }
}

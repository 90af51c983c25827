ghost use Rattle.std.specs.Prelude.{◌≡◌, ◌<◌};
ghost use Rattle.player.specs.Runs.{begun, found_outcome, Obeys, Stepped, Tells, Foretells};

use crate::fault::{RecordFault, StepFault};
use crate::finding::{Found, find};
use crate::progress::{Counts, Phase, Progress};
use crate::run::Run;
use metafile::{Checked, Record};
use playback::{Answer, DeviceContext};
use surface::Surface;

// A run of a checked file, at its first record.
pub fn start<'a>(checked: Checked<'a>) -> Run<'a>
    ensures bytes { result.bytes.now ≡ checked.entry.bytes.now }
    ensures progress { result.progress ≡ begun checked.entry.first checked.entry.objects }
{
    let progress = Progress {
        place: checked.first(),
        phase: Phase::Playing,
        counts: Counts {
            taken: 0,
            refused: 0,
            passed_over: 0,
        },
        context: DeviceContext::new(usize::from(checked.objects())),
    };
    Run {
        bytes: checked.bytes(),
        progress,
    }
}

// Each call that steps a run says that its bytes stay: a type says nothing of two values, and a name for the equation is no plainer.
impl<'a> Run<'a> {
    // Plays what was found at the place. Inlined as `decode`.
    #[inline(always)]
    fn obey<S: Surface>(&mut self, found: Found<'_>, surface: &mut S) -> Result<Answer, StepFault>
        requires { self.old.progress.place < found.end }
        ensures bytes { self.new.bytes.now ≡ self.old.bytes.now }
        ensures obeyed { Obeys S.means S.keeps S.rest found.entry.end (found_outcome found.entry.decoded self.old.progress.context) result self.old.progress self.new.progress surface.old surface.new }
    {
        let place = self.progress.place;
        // A match and no `and_then`: of what its closure would do to the surface, nothing would be known.
        let answer = match found.decoded {
            Ok(record) => self.progress.context.play(record, surface),
            Err(cause) => Err(cause),
        };
        self.pass(answer, found.end);
        answer.map_err(|cause| StepFault::Record(RecordFault { cause, place }))
    }

    // Plays the record at the run's place.
    pub fn step<S: Surface>(&mut self, surface: &mut S) -> Result<Answer, StepFault>
        ensures bytes { self.new.bytes.now ≡ self.old.bytes.now }
        ensures stepped { Stepped S.means S.keeps S.rest (λ w. w) self.old.bytes.now self.old.progress surface.old result self.new.progress surface.new }
    {
        let place = self.progress.place;
        match (self.progress.phase, find(self.bytes, place)) {
            (Phase::Ended, _) => Ok(Answer::Ended),
            (Phase::Playing, Err(fault)) => Err(StepFault::from(fault)),
            (Phase::Playing, Ok(found)) => self.obey(found, surface),
        }
    }

    // What the next step comes to, as far as the file tells: the record at its place, none where the run has ended, or a fault.
    pub fn question(&self) -> Result<Option<Record<'a>>, StepFault>
        ensures tells { Tells self.now.bytes.now self.now.progress result }
        ensures foretold { Foretells self.now.bytes.now self.now.progress result }
    {
        if self.progress.phase == Phase::Ended {
            return Ok(None);
        }
        let place = self.progress.place;
        let found = find(self.bytes, place)?;
        let record = found.decoded.map_err(|cause| RecordFault { cause, place })?;
        Ok(Some(record))
    }

    // Takes the run away, and answers its counts.
    pub fn finish(self) -> Counts
        ensures { result ≡ self.entry.progress.counts }
    {
        self.progress.counts
    }
}

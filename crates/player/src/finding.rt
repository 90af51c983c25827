ghost use Rattle.std.specs.Result.{MatchResult};
ghost use Rattle.metafile.specs.Frames.{Unframed};
ghost use Rattle.player.specs.Finding.{FoundAt};

use codes::Refusal;
use metafile::{FileFault, Record, decode, frame_at};

// What lies at a place: a record, or the rule of its function that it breaks; and where it ends.
#[derive(Clone, Copy)]
pub(crate) struct Found<'a> {
    pub decoded: Result<Record<'a>, Refusal>,
    pub end: usize,
}

// What lies at a place of a file that ends with its bytes. Inlined as `decode`.
#[inline(always)]
pub(crate) fn find(bytes: &[u8], place: usize) -> Result<Found<'_>, FileFault>
    ensures { MatchResult result (FoundAt bytes.now place) (Unframed bytes.now place) }
{
    let frame = frame_at(bytes, place)?;
    Ok(Found {
        decoded: decode(frame),
        end: place + 6 + frame.parameters.len(),
    })
}

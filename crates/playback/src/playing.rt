ghost use Rattle.std.specs.Prelude.{◌≡◌};
ghost use Rattle.playback.specs.Contexts.{select_in, select_answer};
ghost use Rattle.playback.specs.Records.{line_to, pat_blt, bit_blt, plays, answered, Happens};

use crate::answer::Answer;
use crate::context::DeviceContext;
use crate::objects::Object;
use codes::Refusal;
use copies::copy;
use drawing::paint;
use lines::line;
use metafile::{LogicalArea, LogicalPoint, Record};
use pencil::BrushInk;
use surface::Surface;

impl DeviceContext {
    // Takes the object at an index for drawing.
    fn select(&mut self, index: u16) -> Result<(), Refusal>
        ensures answer { result ≡ select_answer index self.old }
        ensures context { self.new ≡ select_in index self.old }
    {
        match self.objects.slot(index).ok_or(Refusal::NoObject)? {
            Object::Pen(pen) => self.pencil.pen = pen,
            Object::Brush(brush) => self.pencil.brush = brush,
        }
        Ok(())
    }

    // A line from the position, which moves to its end.
    fn line_to<S: Surface>(&mut self, to: LogicalPoint, surface: &mut S) -> Result<(), Refusal>
        ensures { Happens S.means S.keeps S.rest (line_to to self.old) (answered result) self.new surface.old surface.new }
    {
        let from = self.origins.device(self.position);
        line(surface, &self.pencil, from, self.origins.device(to))?;
        self.position = to;
        Ok(())
    }

    // A paint with the brush.
    fn pat_blt<S: Surface>(
        &self,
        code: u8,
        area: LogicalArea,
        surface: &mut S,
    ) -> Result<(), Refusal>
        ensures { Happens S.means S.keeps S.rest (pat_blt code area self.now) (answered result) self.now surface.old surface.new }
    {
        let area = self.origins.area(area);
        let ink = self.pencil.brush.ink(self.pencil.back);
        paint(surface, &self.pencil, area, code, &ink)
    }

    // A copy with the brush.
    fn bit_blt<S: Surface>(
        &self,
        code: u8,
        area: LogicalArea,
        source: LogicalPoint,
        surface: &mut S,
    ) -> Result<(), Refusal>
        ensures { Happens S.means S.keeps S.rest (bit_blt code area source self.now) (answered result) self.now surface.old surface.new }
    {
        let area = self.origins.area(area);
        let source = self.origins.device(source);
        let ink = self.pencil.brush.ink(self.pencil.back);
        copy(surface, &self.pencil, area, source, code, &ink)
    }

    // Does what a record asks for.
    pub fn play<S: Surface>(
        &mut self,
        record: Record<'_>,
        surface: &mut S,
    ) -> Result<Answer, Refusal>
        ensures { Happens S.means S.keeps S.rest (plays «record».entry self.old) result self.new surface.old surface.new }
    {
        match record {
            Record::End => return Ok(Answer::Ended),
            Record::Unlisted { .. } => return Ok(Answer::PassedOver),
            Record::SetWindowOrg { origin } => self.origins.window = origin,
            Record::SetViewportOrg { origin } => self.origins.viewport = origin,
            Record::MoveTo { to } => self.position = to,
            Record::LineTo { to } => self.line_to(to, surface)?,
            Record::PatBlt { code, area } => self.pat_blt(code, area, surface)?,
            Record::BitBlt { code, area, source } => self.bit_blt(code, area, source, surface)?,
            Record::IntersectClipRect { near, far } => {
                self.pencil.cut_clip(self.origins.rect(near, far));
            }
            Record::SetRop2 { mode } => self.pencil.mode = mode,
            Record::SetBkColor { colour } => self.pencil.back = colour,
            Record::CreateBrushIndirect { brush } => self.objects.put(Object::Brush(brush))?,
            Record::CreatePenIndirect { pen } => self.objects.put(Object::Pen(pen))?,
            Record::SelectObject { index } => self.select(index)?,
            Record::DeleteObject { index } => self.objects.remove(index)?,
        }
        Ok(Answer::Taken)
    }
}

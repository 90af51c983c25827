ghost use Rattle.std.specs.Prelude.{◌≡◌, ◌*◌, ◌<◌, ◌≤◌, pos, ◌≤ℤ◌, length, MatchResult, ◌≢◌, EachIndex, slice_index};
ghost use Rattle.codes.specs.declared.refusal.Refusal.TheVariants.{RecordSize, Colour, Operation, Value};
ghost use Rattle.std.specs.Int.{w16};
ghost use Rattle.std.proofs.Common.{to_z};
ghost use Rattle.metafile.specs.Bytes.{word};
ghost use Rattle.metafile.specs.Exact.{Exact};
ghost use Rattle.metafile.specs.Functions.{function_of};
ghost use Rattle.metafile.specs.Decoding.{PointIs, Negative, Shows, Breaks};

use crate::bytes::u16_at;
use crate::frame::Frame;
use crate::logical::{LogicalArea, LogicalPoint};
use crate::record::Record;
use crate::record_type::{RecordType, UnlistedFunction};
use codes::{LineMode, Refusal, depends_on_source};
use pencil::{Brush, Pen};

// What a framed record asks for, or the first rule that it breaks. Inlined where it is played, so that a record is not put together in
// memory and read back.
#[inline(always)]
pub fn decode<'a>(frame: Frame<'a>) -> Result<Record<'a>, Refusal>
    ensures { MatchResult result (Shows frame.entry.function frame.entry.parameters.now) (Breaks frame.entry.function frame.entry.parameters.now) }
{
    let parameters = frame.parameters;
    match RecordType::try_from(frame.function) {
        Ok(record_type) => listed(record_type, parameters),
        Err(UnlistedFunction(function)) => Ok(Record::Unlisted {
            function,
            parameters,
        }),
    }
}

// For every function and all parameters there is one record that is shown or one rule that is broken, and no second.
pub fn decoding_is_exact()
    ensures { Exact }
{}

// What the parameters of a listed function ask for. Inlined as `decode`.
#[inline(always)]
fn listed(record_type: RecordType, p: &[u8]) -> Result<Record<'_>, Refusal>
    ensures { MatchResult result (Shows (function_of record_type) p.now) (Breaks (function_of record_type) p.now) }
{
    match record_type {
        RecordType::Eof => {
            words::<0>(p)?;
            Ok(Record::End)
        }
        RecordType::SetWindowOrg => Ok(Record::SetWindowOrg { origin: point(p)? }),
        RecordType::SetViewportOrg => Ok(Record::SetViewportOrg { origin: point(p)? }),
        RecordType::MoveTo => Ok(Record::MoveTo { to: point(p)? }),
        RecordType::LineTo => Ok(Record::LineTo { to: point(p)? }),
        RecordType::PatBlt => pat_blt(p),
        RecordType::BitBlt => bit_blt(p),
        RecordType::IntersectClipRect => intersect_clip_rect(p),
        RecordType::SetRop2 => set_rop2(p),
        RecordType::SetBkColor => set_bk_color(p),
        RecordType::CreateBrushIndirect => create_brush_indirect(p),
        RecordType::CreatePenIndirect => create_pen_indirect(p),
        RecordType::SelectObject => Ok(Record::SelectObject { index: index(p)? }),
        RecordType::DeleteObject => Ok(Record::DeleteObject { index: index(p)? }),
    }
}

// Parameters of so many words.
fn words<const N: usize>(p: &[u8]) -> Result<[u16; N], Refusal>
    ensures { MatchResult result (λ w. (length p.now ≡ N * 2) × EachIndex w (λ k. slice_index w k ≡ word p.now (k * 2))) (λ e. (e ≡ RecordSize) × (length p.now ≢ N * 2)) }
{
    if p.len() % 2 != 0 || p.len() / 2 != N {
        return Err(Refusal::RecordSize);
    }
    let mut words = [0; N];
    for (k, word) in words.iter_mut().enumerate() {
        *word = u16_at(p, k * 2);
    }
    Ok(words)
}

fn index(p: &[u8]) -> Result<u16, Refusal>
    ensures { MatchResult result (λ i. (length p.now ≡ 2) × (i ≡ word p.now 0)) (λ e. (e ≡ RecordSize) × (length p.now ≢ 2)) }
{
    let [index] = words::<1>(p)?;
    Ok(index)
}

fn point(p: &[u8]) -> Result<LogicalPoint, Refusal>
    ensures { MatchResult result (PointIs p.now) (λ e. (e ≡ RecordSize) × (length p.now ≢ 4)) }
{
    let [y, x] = words::<2>(p)?;
    Ok(point_of(y, x))
}

// The point of two words with their signs, y before x.
fn point_of(y: u16, x: u16) -> LogicalPoint
    ensures { result ≡ record { x = to_z w16 x; y = to_z w16 y } }
{
    LogicalPoint {
        x: x.cast_signed(),
        y: y.cast_signed(),
    }
}

// The area of four words with their signs, in their order in the file.
fn area_of(height: u16, width: u16, y: u16, x: u16) -> Result<LogicalArea, Refusal>
    ensures { MatchResult result (λ a. (a.height ≡ to_z w16 height) × (a.width ≡ to_z w16 width) × (a.at.y ≡ to_z w16 y) × (a.at.x ≡ to_z w16 x) × (pos 0 ≤ℤ a.width) × (pos 0 ≤ℤ a.height)) (λ e. (e ≡ Value) × Negative (to_z w16 width) (to_z w16 height)) }
{
    let area = LogicalArea {
        at: point_of(y, x),
        width: width.cast_signed(),
        height: height.cast_signed(),
    };
    if area.width < 0 || area.height < 0 {
        return Err(Refusal::Value);
    }
    Ok(area)
}

// The colour whose number of 32 bits has these halves.
fn colour(lower: u16, upper: u16) -> Result<u16, Refusal>
    ensures { MatchResult result (λ c. (upper ≡ 0x0100) × (c ≡ lower)) (λ e. (e ≡ Colour) × (upper ≢ 0x0100)) }
{
    if upper != 0x0100 {
        return Err(Refusal::Colour);
    }
    Ok(lower)
}

// The code whose number of 32 bits has this upper half.
fn code(upper: u16) -> Result<u8, Refusal>
    ensures { MatchResult result (λ c. (upper < 256) × (c ≡ upper)) (λ e. (e ≡ Operation) × (256 ≤ upper)) }
{
    u8::try_from(upper).map_err(|_| Refusal::Operation)
}

fn set_bk_color(p: &[u8]) -> Result<Record<'_>, Refusal>
    ensures { MatchResult result (Shows (function_of RecordType.SetBkColor) p.now) (Breaks (function_of RecordType.SetBkColor) p.now) }
{
    let [lower, upper] = words::<2>(p)?;
    let colour = colour(lower, upper)?;
    Ok(Record::SetBkColor { colour })
}

fn set_rop2(p: &[u8]) -> Result<Record<'_>, Refusal>
    ensures { MatchResult result (Shows (function_of RecordType.SetRop2) p.now) (Breaks (function_of RecordType.SetRop2) p.now) }
{
    if !matches!(p.len(), 2 | 4) {
        return Err(Refusal::RecordSize);
    }
    Ok(Record::SetRop2 {
        mode: LineMode::try_from(u16_at(p, 0))?,
    })
}

fn create_brush_indirect(p: &[u8]) -> Result<Record<'_>, Refusal>
    ensures { MatchResult result (Shows (function_of RecordType.CreateBrushIndirect) p.now) (Breaks (function_of RecordType.CreateBrushIndirect) p.now) }
{
    let [style, lower, upper, hatch] = words::<4>(p)?;
    let brush = Brush::new(style, colour(lower, upper)?, hatch)?;
    Ok(Record::CreateBrushIndirect { brush })
}

fn create_pen_indirect(p: &[u8]) -> Result<Record<'_>, Refusal>
    ensures { MatchResult result (Shows (function_of RecordType.CreatePenIndirect) p.now) (Breaks (function_of RecordType.CreatePenIndirect) p.now) }
{
    let [style, width, _, lower, upper] = words::<5>(p)?;
    let pen = Pen::new(style, width.cast_signed(), colour(lower, upper)?)?;
    Ok(Record::CreatePenIndirect { pen })
}

fn intersect_clip_rect(p: &[u8]) -> Result<Record<'_>, Refusal>
    ensures { MatchResult result (Shows (function_of RecordType.IntersectClipRect) p.now) (Breaks (function_of RecordType.IntersectClipRect) p.now) }
{
    let [bottom, right, top, left] = words::<4>(p)?;
    Ok(Record::IntersectClipRect {
        near: point_of(top, left),
        far: point_of(bottom, right),
    })
}

fn pat_blt(p: &[u8]) -> Result<Record<'_>, Refusal>
    ensures { MatchResult result (Shows (function_of RecordType.PatBlt) p.now) (Breaks (function_of RecordType.PatBlt) p.now) }
{
    let [_, upper, height, width, y, x] = words::<6>(p)?;
    let code = code(upper)?;
    if depends_on_source(code) {
        return Err(Refusal::Operation);
    }
    Ok(Record::PatBlt {
        code,
        area: area_of(height, width, y, x)?,
    })
}

fn bit_blt(p: &[u8]) -> Result<Record<'_>, Refusal>
    ensures { MatchResult result (Shows (function_of RecordType.BitBlt) p.now) (Breaks (function_of RecordType.BitBlt) p.now) }
{
    let [_, upper, source_y, source_x, _, height, width, y, x] = words::<9>(p)?;
    Ok(Record::BitBlt {
        code: code(upper)?,
        area: area_of(height, width, y, x)?,
        source: point_of(source_y, source_x),
    })
}

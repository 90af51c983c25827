ghost use Rattle.std.specs.Prelude.{◌≡◌, MatchOption, MatchResult};
ghost use Rattle.metafile.specs.Functions.{Listed, Named, function_of};

// The functions of the record table, by their published names.
#[derive(Clone, Copy, PartialEq, Eq, Debug)]
pub enum RecordType {
    Eof,
    SetRop2,
    SelectObject,
    DeleteObject,
    SetBkColor,
    SetWindowOrg,
    SetViewportOrg,
    LineTo,
    MoveTo,
    CreatePenIndirect,
    CreateBrushIndirect,
    IntersectClipRect,
    PatBlt,
    BitBlt,
}

// A function that is not in the record table.
#[derive(Clone, Copy, PartialEq, Eq, Debug)]
pub struct UnlistedFunction(pub u16);

impl TryFrom<u16> for RecordType {
    type Error = UnlistedFunction;

    ghost try_from_gives = { λ f r. MatchResult r (λ t. function_of t ≡ f) (λ e. (e.0 ≡ f) × (Listed f → ⊥)) };

    fn try_from(function: u16) -> Result<RecordType, UnlistedFunction> {
        match function {
            0x0000 => Ok(RecordType::Eof),
            0x0104 => Ok(RecordType::SetRop2),
            0x012D => Ok(RecordType::SelectObject),
            0x01F0 => Ok(RecordType::DeleteObject),
            0x0201 => Ok(RecordType::SetBkColor),
            0x020B => Ok(RecordType::SetWindowOrg),
            0x020D => Ok(RecordType::SetViewportOrg),
            0x0213 => Ok(RecordType::LineTo),
            0x0214 => Ok(RecordType::MoveTo),
            0x02FA => Ok(RecordType::CreatePenIndirect),
            0x02FC => Ok(RecordType::CreateBrushIndirect),
            0x0416 => Ok(RecordType::IntersectClipRect),
            0x061D => Ok(RecordType::PatBlt),
            0x0922 => Ok(RecordType::BitBlt),
            _ => Err(UnlistedFunction(function)),
        }
    }
}

impl RecordType {
    // Its published name.
    pub fn name(self) -> &'static str
        ensures { Named (function_of self) result.now }
    {
        match self {
            RecordType::Eof => "META_EOF",
            RecordType::SetRop2 => "META_SETROP2",
            RecordType::SelectObject => "META_SELECTOBJECT",
            RecordType::DeleteObject => "META_DELETEOBJECT",
            RecordType::SetBkColor => "META_SETBKCOLOR",
            RecordType::SetWindowOrg => "META_SETWINDOWORG",
            RecordType::SetViewportOrg => "META_SETVIEWPORTORG",
            RecordType::LineTo => "META_LINETO",
            RecordType::MoveTo => "META_MOVETO",
            RecordType::CreatePenIndirect => "META_CREATEPENINDIRECT",
            RecordType::CreateBrushIndirect => "META_CREATEBRUSHINDIRECT",
            RecordType::IntersectClipRect => "META_INTERSECTCLIPRECT",
            RecordType::PatBlt => "META_PATBLT",
            RecordType::BitBlt => "META_BITBLT",
        }
    }
}

// The published name of a listed function.
pub fn record_name(function: u16) -> Option<&'static str>
    ensures { MatchOption result (Listed function → ⊥) (λ name. Named function name.now) }
{
    RecordType::try_from(function).ok().map(RecordType::name)
}

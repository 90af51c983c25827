use crate::logical::{LogicalArea, LogicalPoint};
use codes::LineMode;
use pencil::{Brush, Pen};

// What a record asks for, by its published name.
#[derive(Clone, Copy)]
pub enum Record<'a> {
    End,
    SetWindowOrg {
        origin: LogicalPoint,
    },
    SetViewportOrg {
        origin: LogicalPoint,
    },
    MoveTo {
        to: LogicalPoint,
    },
    LineTo {
        to: LogicalPoint,
    },
    PatBlt {
        code: u8,
        area: LogicalArea,
    },
    BitBlt {
        code: u8,
        area: LogicalArea,
        source: LogicalPoint,
    },
    IntersectClipRect {
        near: LogicalPoint,
        far: LogicalPoint,
    },
    SetRop2 {
        mode: LineMode,
    },
    SetBkColor {
        colour: u16,
    },
    CreateBrushIndirect {
        brush: Brush,
    },
    CreatePenIndirect {
        pen: Pen,
    },
    SelectObject {
        index: u16,
    },
    DeleteObject {
        index: u16,
    },
    // A function that is not in the table, with its parameters as they lie in the file.
    Unlisted {
        function: u16,
        parameters: &'a [u8],
    },
}

// A point in the coordinates of the file.
#[derive(Clone, Copy)]
pub struct LogicalPoint {
    pub x: i16,
    pub y: i16,
}

// A width and a height from a corner on, in the coordinates of the file.
#[derive(Clone, Copy)]
pub struct LogicalArea {
    pub at: LogicalPoint,
    pub width: i16,
    pub height: i16,
}

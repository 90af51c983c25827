ghost use Rattle.std.specs.Prelude.{◌≡◌, Some};
ghost use Rattle.codes.specs.Refusals.{numbered, told};

use std::error::Error;
use std::fmt;

// Why a call or a record is refused. Each cause has its number in the table of refusals.
#[derive(Clone, Copy, PartialEq, Eq, Debug)]
pub enum Refusal {
    // Width or height of a raster outside 1 to 4,096.
    Size = 1,
    // Memory shorter than the raster.
    Memory = 2,
    // File shorter than 18 bytes or longer than 65,536.
    FileLength = 3,
    // Any other rule of the header.
    Header = 4,
    // No record lies here before the stated end.
    Frame = 5,
    // A listed record's size is not the record table's.
    RecordSize = 6,
    // The upper half of a record's colour.
    Colour = 7,
    // The top byte of an operation, or a paint that depends on a source.
    Operation = 8,
    // A mode, style, hatch or pen width, or a record's negative width or height.
    Value = 9,
    // No slot of the object table is empty.
    TableFull = 10,
    // An index without an object.
    NoObject = 11,
    // A direct coordinate, width or height out of range.
    Range = 12,
    // The output buffer is too short.
    Buffer = 13,
    // A picture without cells, or a row outside it.
    Row = 14,
}

impl Refusal {
    // The number in the table of refusals. Named, and no From: u8::from would not say which number it is.
    pub fn number(self) -> u8
        ensures { result ≡ numbered self }
    {
        self as u8
    }
}

// The cause in words. By hand, since a derived Display states no text.
impl fmt::Display for Refusal {
    ghost output = { λ refusal. Some (told refusal) };

    fn fmt<W: fmt::Write>(&self, f: &mut fmt::Formatter<W>) -> fmt::Result {
        f.write_str(match self {
            Refusal::Size => "width or height outside 1 to 4096",
            Refusal::Memory => "memory shorter than the picture",
            Refusal::FileLength => "file shorter than 18 bytes or longer than 65536",
            Refusal::Header => "header field out of range",
            Refusal::Frame => "no record lies here before the stated end",
            Refusal::RecordSize => "size not that of the function",
            Refusal::Colour => "upper half of a colour is not 0x0100",
            Refusal::Operation =>
                "top byte of a raster operation is not 0, or a paint depends on the source",
            Refusal::Value => "mode, style, hatch, pen width or size out of range",
            Refusal::TableFull => "no empty slot in the object table",
            Refusal::NoObject => "no object at the index",
            Refusal::Range => "coordinate, width or height out of range",
            Refusal::Buffer => "output buffer too short",
            Refusal::Row => "picture without cells, or row outside it",
        })
    }
}

impl Error for Refusal {}

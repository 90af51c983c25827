ghost use Rattle.std.specs.Prelude.{◌≡◌, ◌+ℤ◌, ◌-ℤ◌};
ghost use Rattle.playback.specs.Places.{device, device_area, device_rect};
ghost use Rattle.playback.specs.Contexts.{initial};

use crate::objects::ObjectTable;
use drawing::{Area, Point};
use metafile::{LogicalArea, LogicalPoint};
use pencil::Pencil;
use surface::Rect;

// How logical points become cells: less the window origin, plus the viewport origin.
#[derive(Clone, Copy)]
pub struct Origins {
    pub window: LogicalPoint,
    pub viewport: LogicalPoint,
}

// A logical coordinate, less the window's, plus the viewport's.
fn shifted(at: i16, window: i16, viewport: i16) -> i32
    ensures { result ≡ (at -ℤ window) +ℤ viewport }
{
    i32::from(at) - i32::from(window) + i32::from(viewport)
}

impl Origins {
    // The cell of a logical point.
    pub(crate) fn device(self, at: LogicalPoint) -> Point
        ensures { result ≡ device self at }
    {
        Point {
            x: shifted(at.x, self.window.x, self.viewport.x),
            y: shifted(at.y, self.window.y, self.viewport.y),
        }
    }

    // The cells of a logical area.
    pub(crate) fn area(self, area: LogicalArea) -> Area
        ensures { result ≡ device_area self area }
    {
        let corner = self.device(area.at);
        Area {
            x: corner.x,
            y: corner.y,
            w: i32::from(area.width),
            h: i32::from(area.height),
        }
    }

    // The cells of a rectangle between two logical corners.
    pub(crate) fn rect(self, near: LogicalPoint, far: LogicalPoint) -> Rect
        ensures { result ≡ device_rect self near far }
    {
        let near = self.device(near);
        let far = self.device(far);
        Rect {
            left: near.x,
            top: near.y,
            right: far.x,
            bottom: far.y,
        }
    }
}

// What records change.
#[derive(Clone, Copy)]
pub struct DeviceContext {
    pub position: LogicalPoint,
    pub origins: Origins,
    pub pencil: Pencil,
    pub objects: ObjectTable,
}

const ORIGIN: LogicalPoint = LogicalPoint { x: 0, y: 0 };

impl DeviceContext {
    // The context that a run starts with, whose table has so many slots.
    pub fn new(objects: usize) -> DeviceContext
        ensures { result ≡ initial objects }
    {
        DeviceContext {
            position: ORIGIN,
            origins: Origins {
                window: ORIGIN,
                viewport: ORIGIN,
            },
            pencil: Pencil::new(),
            objects: ObjectTable::new(objects),
        }
    }
}

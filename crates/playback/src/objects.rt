ghost use Rattle.std.specs.Prelude.{◌≡◌, take};
ghost use Rattle.playback.specs.Objects.{size, slot_at, free, blank, put_in, put_answer, removed, remove_answer};

use codes::Refusal;
use pencil::{Brush, Pen};

// What a record makes.
#[derive(Clone, Copy)]
pub enum Object {
    Pen(Pen),
    Brush(Brush),
}

// The objects that records make: as many slots as the file's header states, which are at most sixteen.
// A fixed array, since a player has no heap; no vector of a fixed capacity, since slots fall empty anywhere and the table is copied.
#[derive(Clone, Copy)]
pub struct ObjectTable {
    pub slots: [Option<Object>; 16],
    pub count: usize,
}

impl ObjectTable {
    // A table of so many empty slots.
    pub fn new(count: usize) -> ObjectTable
        ensures { result ≡ blank count }
    {
        ObjectTable {
            slots: [None; 16],
            count,
        }
    }

    // The slots that there are.
    fn slots(&self) -> &[Option<Object>]
        ensures { result.now ≡ take (size self.now) self.now.slots }
    {
        &self.slots[..self.count.min(16)]
    }

    // What stands at an index; nothing stands past the table.
    pub(crate) fn slot(&self, index: u16) -> Option<Object>
        ensures { result ≡ slot_at self.now index }
    {
        self.slots().get(usize::from(index)).copied().flatten()
    }

    // The lowest empty slot.
    fn free(&self) -> Option<usize>
        ensures { result ≡ free self.now }
    {
        self.slots().iter().position(Option::is_none)
    }

    // Puts an object into the lowest empty slot.
    pub(crate) fn put(&mut self, object: Object) -> Result<(), Refusal>
        ensures answer { result ≡ put_answer self.old }
        ensures table { self.new ≡ put_in object self.old }
    {
        let free = self.free().ok_or(Refusal::TableFull)?;
        self.slots[free] = Some(object);
        Ok(())
    }

    // Empties the slot of an object.
    pub(crate) fn remove(&mut self, index: u16) -> Result<(), Refusal>
        ensures answer { result ≡ remove_answer (slot_at self.old index) }
        ensures table { self.new ≡ removed (slot_at self.old index) index self.old }
    {
        self.slot(index).ok_or(Refusal::NoObject)?;
        self.slots[usize::from(index)] = None;
        Ok(())
    }
}

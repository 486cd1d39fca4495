// How a table is made, and how its records are read and written.
ghost use Rattle.std.specs.Prelude.{◌≡◌, length, IfOk};
ghost use Rattle.memory.specs.Model.{make_of};
ghost use Rattle.memory.specs.Sizes.{table_sized};
ghost use Rattle.memory.specs.Tables.{tabled, tabled_by};

use super::ObjectTable;
use crate::keeping::allowed;
use crate::object::{Cell, Object};
use crate::records::Records;
use table::fault::Fault;

impl<'a> ObjectTable<'a> {
    // An empty table, with room for as many objects as the slice has records.
    pub fn new(objects: &'a mut [Object]) -> Result<ObjectTable<'a>, Fault>
        ensures value { tabled_by result ≡ make_of (length objects.old) }
        ensures untouched { IfOk result (λ t. t.objects.now ≡ objects.old) }
    {
        allowed(objects.len())?;
        Ok(ObjectTable { objects, count: 0 })
    }
}

impl Records for ObjectTable<'_> {
    ghost held = { tabled };

    fn room(&self) -> usize {
        self.objects.len()
    }

    fn used(&self) -> usize {
        self.count
    }

    fn kind_at(&self, object: usize) -> u8 {
        self.objects[object].kind
    }

    fn cell_at(&self, object: usize, cell: usize) -> Cell {
        self.objects[object].cells[cell]
    }

    fn append(&mut self, kind: u8) {
        self.objects[self.count] = Object {
            kind,
            ..Object::BLANK
        };
        self.count += 1;
    }

    fn set_cell(&mut self, object: usize, cell: usize, value: Cell) {
        self.objects[object].cells[cell] = value;
    }

    ghost sized = { table_sized };
}

// The object that a value refers to: its fields and cells.
// Table and memory stay two parameters: those who write the memory hold it exclusively, so a struct of both is made anew at each call.
// Values and their fields stay apart too: a test has up to three of the one and two of the other.
ghost use Rattle.std.specs.Prelude.{◌≡◌, ◌<◌, true, length, nat_lt, Err};
ghost use Rattle.table.specs.Faults.{number_of, numbered};
ghost use Rattle.table.specs.Reading.{program_of};
ghost use Rattle.memory.specs.Model.{object_at, cell_at, has_object};
ghost use Rattle.machine.specs.declared.threads.Slot.TheVariants.{Reference};
ghost use Rattle.machine.specs.Values.{value_of};
ghost use Rattle.machine.specs.Reading.{fields, field, refers};
ghost use Rattle.machine.specs.Seeing.{seen, targeted, InMemory, paired, PairInMemory};

use super::threads::Slot;
use memory::keeping::Memory;
use memory::object::Cell;
use table::Table;
use table::fault::{Refusal, require};
use table::types::{Field, Kind};

// An object that is there, a field of its struct, and that field's cell.
#[derive(Clone, Copy, Drop)]
pub struct Target {
    pub object: u32,
    pub field: Field,
    pub cell: Cell,
}

impl Target {
    // What the field holds.
    pub(crate) fn value(self) -> Slot
        ensures { result ≡ value_of self.field.ty self.cell.word }
    {
        Slot::of_cell(self.field.ty, self.cell.word)
    }
}

// Whether the memory has the object.
fn has_object<M: Memory>(memory: &M, object: u32) -> bool
    ensures { result ≡ has_object (M.Memory.model memory.now) object }
{
    (object as usize) < memory.count()
}

// The number of an object's struct, and 0 where there is no such object.
fn kind_of<M: Memory>(memory: &M, object: u32) -> usize
    ensures { result ≡ (object_at (M.Memory.model memory.now) object).kind }
{
    memory.kind(object as usize).unwrap_or(0) as usize
}

// Whether the object's struct has the field.
fn has_field<M: Memory>(table: &Table, memory: &M, object: u32, f: u8) -> bool
    ensures value { result ≡ nat_lt f (length (fields (program_of table.now) (M.Memory.model memory.now) (Reference object))) }
    ensures near { result ≡ true → f < 8 }
{
    (f as usize) < table.fields(kind_of(memory, object))
}

// A field that is there.
fn field_at<M: Memory>(table: &Table, memory: &M, object: u32, f: u8) -> Field
    ensures value { result ≡ field (program_of table.now) (M.Memory.model memory.now) (Reference object) f }
{
    table
        .field(kind_of(memory, object), f as usize)
        .unwrap_or(Field::NONE)
}

// A cell that is there.
fn cell_at<M: Memory>(memory: &M, object: u32, f: u8) -> Cell
    requires there { has_object (M.Memory.model memory.now) object ≡ true }
    requires near { f < 8 }
    ensures { result ≡ cell_at (M.Memory.model memory.now) object f }
{
    memory
        .load(object as usize, f as usize)
        .unwrap_or(Cell::ZERO)
}

// What a value refers to, at a field; none for what refers to nothing.
pub fn resolve<M: Memory>(
    table: &Table,
    memory: &M,
    value: Slot,
    f: u8,
) -> Result<Option<Target>, Refusal>
    ensures value { numbered result ≡ targeted (program_of table.now) (M.Memory.model memory.now) value f }
    ensures there { InMemory (M.Memory.model memory.now) f (numbered result) }
{
    let Slot::Reference(object) = value else {
        return Ok(None);
    };
    require(has_object(memory, object), Refusal::Lost)?;
    require(has_field(table, memory, object, f), Refusal::NoPart)?;
    Ok(Some(Target {
        object,
        field: field_at(table, memory, object, f),
        cell: cell_at(memory, object, f),
    }))
}

// The field of the object that a value refers to, if both are there.
pub fn see<M: Memory>(table: &Table, memory: &M, value: Slot, f: u8) -> Option<Field>
    ensures value { result ≡ seen (program_of table.now) (M.Memory.model memory.now) value f }
{
    let Slot::Reference(object) = value else {
        return None;
    };
    // Not by `resolve`, which loads the cell too.
    if has_object(memory, object) && has_field(table, memory, object, f) {
        Some(field_at(table, memory, object, f))
    } else {
        None
    }
}

// Whether the field is a reference, where that can be judged.
pub fn refers<M: Memory>(table: &Table, memory: &M, value: Slot, f: u8) -> bool
    ensures { result ≡ refers (program_of table.now) (M.Memory.model memory.now) value f }
{
    see(table, memory, value, f).is_none_or(|field| field.ty.kind != Kind::Number)
}

// The targets of a test on two fields.
#[derive(Clone, Copy, Drop)]
pub struct Pair {
    pub from: Target,
    pub to: Target,
}

// Both targets: 73 of either comes before 74.
pub fn resolve_both<M: Memory>(
    table: &Table,
    memory: &M,
    a: Slot,
    f: u8,
    b: Slot,
    g: u8,
) -> Result<Option<Pair>, Refusal>
    ensures value { numbered result ≡ paired (targeted (program_of table.now) (M.Memory.model memory.now) a f) (targeted (program_of table.now) (M.Memory.model memory.now) b g) }
    ensures there { PairInMemory (M.Memory.model memory.now) f (numbered result) }
{
    let second = resolve(table, memory, b, g);
    let from = resolve(table, memory, a, f).map_err(|refusal| first_of(refusal, second))?;
    let to = second?;
    Ok(from.zip(to).map(|(from, to)| Pair { from, to }))
}

// The lower of a refusal and of another one, if there is one.
fn first_of(refusal: Refusal, other: Result<Option<Target>, Refusal>) -> Refusal
    ensures { Err (number_of result) ≡ paired (Err (number_of refusal)) (numbered other) }
{
    match other {
        Err(second) if second.number() < refusal.number() => second,
        _ => refusal,
    }
}

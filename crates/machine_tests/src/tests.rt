use super::{holding, running};
use list::Front;
use machine::clashing::Clash;
use machine::threads::{Machine, Status};
use memory::keeping::Memory;
use memory::object::Object;
use memory::object_table::ObjectTable;
use owning::owners;
use std::test::Fail;
use stepping::{clash, start};
use table::types::Ty;
use table::{Fault, Place, Table, open};

// Refusals by number: the tests pin what number each name has.

// Not accepted: record 3 gets the var field 0 of an alias in slot 2.
const GETS: &[u8; 86] = b"\
    \x01\x01\x01\x00\x0c\x00\x15\x00\x21\x00\x35\x00\x04\x00\x00\x00\x00\x00\x03\x02\x00\x00\x00\x01\
    \x02\x00\x00\x00\x02\x02\x00\x00\x00\x00\x00\x00\x00\x00\x01\x00\x00\x00\x00\x00\x00\x00\x00\x00\
    \x00\x00\x05\x01\x00\x00\x00\x00\x00\x00\x00\x00\x00\x00\x04\x02\x01\x00\x00\x00\x00\x00\x00\x00\
    \x00\x00\x06\x03\x02\x00\x00\x00\x00\x00\x00\x00\x00\x00";

// Accepted: slot 0 is pristine, from record 2 on slot 1 is owned, and at record 3 slot 2 is a number.
const OWNS: &[u8; 86] = b"\
    \x01\x01\x01\x00\x0c\x00\x15\x00\x21\x00\x35\x00\x04\x00\x00\x00\x00\x00\x03\x02\x00\x00\x00\x01\
    \x02\x00\x00\x00\x02\x02\x00\x00\x00\x00\x00\x00\x00\x00\x01\x00\x00\x00\x00\x00\x00\x00\x00\x00\
    \x00\x00\x05\x01\x00\x00\x00\x00\x00\x00\x00\x00\x00\x00\x03\x02\x00\x00\x00\x00\x00\x00\x07\x00\
    \x00\x00\x0c\x00\x02\x00\x00\x00\x00\x00\x00\x00\x00\x00";

#[test]
fn starts(rt: HostRuntime) -> Result<(), Fail> {
    let mut objects = [Object::BLANK; 1];
    let mut memory = ObjectTable::new(&mut objects)?;
    let machine = start(&memory)?;
    assert_eq!(rt; machine.threads.len, 1);
    assert_eq!(rt; machine.threads.all().len(), 1);
    memory.add(0)?;
    assert_eq!(rt; start(&memory).err(), Some(Fault::new(60, Place::Nothing)));
    Ok(())
}

fn met(lower: usize, higher: usize) -> Option<Clash> {
    Some(Clash {
        lower,
        higher,
        object: 1,
        field: 0,
    })
}

#[test]
fn clashes(rt: HostRuntime) -> Result<(), Fail> {
    let table = open(GETS)?;
    let mut objects = [Object::BLANK; 2];
    let mut memory = ObjectTable::new(&mut objects)?;
    memory.add(0)?;
    memory.add(0)?;
    let mut machine = Machine {
        threads: Front {
            items: [running(1, holding(3, 2, 1)); 8],
            len: 3,
        },
    };
    assert_eq!(rt; clash(&table, &machine, &memory), met(0, 1));
    machine.threads.items[0] = running(1, holding(3, 2, 0));
    assert_eq!(rt; clash(&table, &machine, &memory), met(1, 2));
    machine.threads.items[2] = running(1, holding(2, 2, 1));
    assert_eq!(rt; clash(&table, &machine, &memory), None);
    machine.threads.len = 9;
    assert_eq!(rt; clash(&table, &machine, &memory), met(1, 3));
    machine.threads.items[1].status = Status::Halted;
    assert_eq!(rt; clash(&table, &machine, &memory), met(3, 4));
    Ok(())
}

fn counted(
    table: &Table,
    depth: usize,
    index: usize,
    x: u8,
    object: usize,
) -> Result<usize, Fault> {
    let mut objects = [Object::BLANK; 1];
    let mut memory = ObjectTable::new(&mut objects)?;
    memory.add(0)?;
    let machine = Machine {
        threads: Front {
            items: [running(depth, holding(index, x, 0)); 8],
            len: 2,
        },
    };
    let mut scratch = [Ty::NUMBER; 128];
    owners(table, &machine, &memory, object, &mut scratch)
}

#[test]
fn counts_owners(rt: HostRuntime) -> Result<(), Fail> {
    let table = open(OWNS)?;
    assert_eq!(rt; counted(&table, 1, 1, 0, 0), Ok(2));
    assert_eq!(rt; counted(&table, 3, 2, 1, 0), Ok(6));
    // not in scope yet, and a number
    assert_eq!(rt; counted(&table, 1, 1, 1, 0), Ok(0));
    assert_eq!(rt; counted(&table, 1, 3, 2, 0), Ok(0));
    Ok(())
}

#[test]
fn refuses_to_count(rt: HostRuntime) -> Result<(), Fail> {
    let table = open(OWNS)?;
    let missing = Fault::new(63, Place::Nothing);
    assert_eq!(rt; counted(&table, 1, 4, 1, 1), Err(missing));
    assert_eq!(rt;
        counted(&table, 1, 4, 1, 0),
        Err(Fault::new(69, Place::Thread(0)))
    );
    let place = Place::Record {
        function: 0,
        index: 3,
    };
    assert_eq!(rt;
        counted(&open(GETS)?, 1, 3, 1, 1),
        Err(Fault::new(26, place))
    );
    Ok(())
}

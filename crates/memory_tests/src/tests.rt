use super::asking::{Question, ask};
use memory::byte_image::ByteImage;
use memory::keeping::{LIMIT, Memory, allowed};
use memory::object::{Cell, Object};
use memory::object_table::ObjectTable;
use memory::replay::{Call, replay};
use std::test::Fail;
use table::fault::{Fault, Place};

// Refusals by number: the tests pin what number each name has.

const WORD: u32 = 0x7fff_ffff;

const QUESTIONS: [Question; 30] = [
    Question::Capacity,
    Question::Count,
    Question::Kind(0),
    Question::Load(0, 0),
    Question::Store(0, 0, 1),
    Question::Add(16),
    Question::Add(15),
    Question::Count,
    Question::Kind(0),
    Question::Kind(1),
    Question::Load(0, 7),
    Question::Load(0, 8),
    Question::Store(0, 7, WORD),
    Question::Load(0, 7),
    Question::Store(0, 7, WORD + 1),
    Question::Store(0, 8, 1),
    Question::Exchange(0, 7, 1, 2, true),
    Question::Exchange(0, 7, WORD, 2, true),
    Question::Load(0, 7),
    Question::Exchange(0, 7, 2, 3, false),
    Question::Exchange(0, 7, WORD + 1, 3, false),
    Question::Exchange(0, 7, 2, WORD + 1, false),
    Question::Store(0, 7, 2),
    Question::Load(0, 7),
    Question::Exchange(0, 7, 2, 3, false),
    Question::Add(0),
    Question::Add(16),
    Question::Add(1),
    Question::Load(1, 0),
    Question::Count,
];

// What a slice may hold before it is lent.
const STALE: Object = Object {
    kind: 7,
    cells: [Cell {
        word: 9,
        mark: true,
    }; 8],
};

#[test]
fn memories_agree(rt: HostRuntime) -> Result<(), Fail> {
    let mut objects = [STALE; 2];
    let mut bytes = [255u8; 80];
    let mut table = ObjectTable::new(&mut objects)?;
    let mut image = ByteImage::new(&mut bytes)?;
    for question in QUESTIONS {
        assert_eq!(rt; ask(&mut table, question), ask(&mut image, question));
    }
    Ok(())
}

#[test]
fn replays_agree(rt: HostRuntime) -> Result<(), Fail> {
    let calls = [
        Call::Add { kind: 3 },
        Call::Add { kind: 16 },
        Call::Store {
            object: 0,
            cell: 1,
            word: 5,
        },
        Call::Exchange {
            object: 0,
            cell: 1,
            expected: 5,
            word: 6,
            mark: true,
        },
        Call::Exchange {
            object: 1,
            cell: 1,
            expected: 5,
            word: 6,
            mark: true,
        },
    ];
    let mut objects = [STALE; 2];
    let mut bytes = [255u8; 80];
    let mut table = ObjectTable::new(&mut objects)?;
    let mut image = ByteImage::new(&mut bytes)?;
    assert_eq!(rt; replay(&mut table, &calls), 3);
    assert_eq!(rt; replay(&mut image, &calls), 3);
    assert_eq!(rt; ask(&mut table, Question::Load(0, 1)), Ok((6, true)));
    assert_eq!(rt; ask(&mut image, Question::Load(0, 1)), Ok((6, true)));
    Ok(())
}

#[test]
fn full_memory(rt: HostRuntime) -> Result<(), Fail> {
    let mut objects = [STALE; 2];
    let mut table = ObjectTable::new(&mut objects)?;
    assert_eq!(rt; table.add(3), Ok(0));
    assert_eq!(rt; table.add(4), Ok(1));
    assert_eq!(rt; table.add(5), Err(Fault::new(50, Place::Nothing)));
    assert_eq!(rt; table.add(16), Err(Fault::new(51, Place::Nothing)));
    assert_eq!(rt; table.kind(0), Ok(3));
    assert_eq!(rt; table.kind(2), Err(Fault::new(51, Place::Nothing)));
    Ok(())
}

#[test]
fn bytes_of_an_object(rt: HostRuntime) -> Result<(), Fail> {
    let mut bytes = [255u8; 80];
    let mut image = ByteImage::new(&mut bytes)?;
    assert_eq!(rt; image.add(3), Ok(0));
    assert_eq!(rt; image.store(0, 1, 5), Ok(()));
    assert_eq!(rt; image.exchange(0, 2, 0, 300, true), Ok(true));
    assert_eq!(rt; image.exchange(0, 2, 300, 7, false), Ok(false));
    let shown = image.bytes();
    assert!(rt; shown.len() >= 37);
    assert_eq!(rt;
        &shown[0..16],
        [3u8, 0, 0, 0, 0, 0, 0, 0, 10, 0, 0, 0, 0x59, 2, 0, 0].as_slice()
    );
    assert_eq!(rt; &shown[16..36], [0u8; 20].as_slice());
    assert_eq!(rt; shown[36], 255);
    Ok(())
}

#[test]
fn capacities(rt: HostRuntime) -> Result<(), Fail> {
    let refused = Err(Fault::new(52, Place::Nothing));
    assert_eq!(rt; allowed(0), refused);
    assert_eq!(rt; allowed(1), Ok(()));
    assert_eq!(rt; allowed(LIMIT), Ok(()));
    assert_eq!(rt; allowed(LIMIT + 1), refused);
    let mut short = [0u8; 35];
    assert_eq!(rt;
        ByteImage::new(&mut short).err(),
        Some(Fault::new(52, Place::Nothing))
    );
    Ok(())
}

// The decoder that check and step share.
ghost use Rattle.std.specs.Prelude.{◌≡◌, length};
ghost use Rattle.table.specs.Records.{number_of, op_of, test_of, decoded, meant_by};

use super::forms::Form;
use super::records::{Record, Test};

// What twelve bytes say; `None` for no such op, an unused byte that is not 0, or a number too large.
pub fn decode<'t>(bytes: &'t [u8]) -> Option<Record<'t>>
    ensures { meant_by result ≡ decoded bytes.now }
{
    let [op, slot, operands @ .., n0, n1, n2, n3] = bytes else {
        return None;
    };
    let number = u32::from_le_bytes([*n0, *n1, *n2, *n3]);
    if operands.len() != 6 || !Form::of(*op).fits(*slot, operands, number) {
        return None;
    }
    if *op < 16 {
        return decode_op(bytes, number);
    }
    Some(Record::Ask {
        test: decode_test(bytes)?,
        yes: (number % 65536) as u16,
        no: (number / 65536) as u16,
    })
}

// The ops 1 to 15.
fn decode_op<'t>(bytes: &'t [u8], number: u32) -> Option<Record<'t>>
    requires twelve { length bytes.now ≡ 12 }
    requires last_four { number ≡ number_of bytes.now }
    ensures { meant_by result ≡ op_of bytes.now }
{
    let [op, z, x, f, y, ..] = bytes else {
        return None;
    };
    // `add` has y where the others have f.
    let (z, x, f, y) = (*z, *x, *f, *y);
    // An arm an op: this is where the enum is made.
    match *op {
        1 => Some(Record::New { z, s: x }),
        2 => Some(Record::Null { z, s: x }),
        3 => Some(Record::Int { z, number }),
        4 => Some(Record::Share { z, x }),
        5 => Some(Record::Own { z, x }),
        6 => Some(Record::Get { z, x, f }),
        7 => Some(Record::Take { z, x, f }),
        8 => Some(Record::Set { z, x, f, y }),
        9 => Some(Record::Add { z, x, y: f }),
        10 => Some(Record::Call {
            z,
            n: x,
            args: &bytes[3..8],
        }),
        11 => Some(Record::Fork {
            n: x,
            args: &bytes[3..8],
        }),
        12 => Some(Record::Return { x }),
        13 => Some(Record::Again { args: &bytes[2..8] }),
        14 => Some(Record::Join { number }),
        15 => Some(Record::Emit { x }),
        _ => None,
    }
}

// The ops 16 to 25.
fn decode_test(bytes: &[u8]) -> Option<Test>
    requires twelve { length bytes.now ≡ 12 }
    ensures { result ≡ test_of bytes.now }
{
    let [op, _, x, f, y, g, ..] = bytes else {
        return None;
    };
    // A test of two slots alone has y where the others have f.
    let (x, f, y, g) = (*x, *f, *y, *g);
    // An arm a test, as above.
    match *op {
        16 => Some(Test::Nil { x }),
        17 => Some(Test::Same { x, y: f }),
        18 => Some(Test::Equal { x, y: f }),
        19 => Some(Test::Less { x, y: f }),
        20 => Some(Test::Link { x, f, y, g }),
        21 => Some(Test::Unlink { x, f, y, g }),
        22 => Some(Test::Swap { x, f, y, w: g }),
        23 => Some(Test::Try { x, f, y }),
        24 => Some(Test::Fix { x, f, y }),
        25 => Some(Test::Stable { x, f }),
        _ => None,
    }
}

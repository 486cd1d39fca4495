// An opened table: a view of its bytes, read by place.
ghost use Rattle.std.specs.Prelude.{◌≡◌, ◌+◌, ◌*◌, ◌^◌, ◌<◌, ◌≤◌, length, take, drop};
ghost use Rattle.table.specs.Program.{byte, word, struct_count, function_count, section_place, section_end, type_at, struct_place, field_count, field_place, field_at, function_place, param_count, param_place, result_place, record_bytes, record_count, record_place, struct_total, field_total, function_total, param_total, record_total};
ghost use Rattle.table.specs.Records.{meant_by, decoded};
ghost use Rattle.table.specs.Reading.{program_of, bytes_of, fields_of, function_of, field_of, param_of, result_of, record_of, found, within};

use super::decoding::decode;
use super::records::Record;
use super::types::{Field, Kind, Mode, Ty};

#[derive(Clone, Copy)]
pub struct Table<'t> {
    bytes: &'t [u8],
}

// Why there is no record at a place.
#[derive(Clone, Copy, Drop)]
pub enum Lacking {
    // the function, or its record, is not there
    Missing = 0,
    // its twelve bytes say nothing
    Undecodable = 1,
}

// What an opened table holds. A struct, field, function or record that is not there has no fields, no type, no records.
// Alike, but each of another part: one function would take the part as a closure, and say less.
impl<'t> Table<'t> {
    pub fn structs(&self) -> usize
        ensures value { result ≡ length (program_of self.now).structs }
        ensures bound { result ≤ 16 }
    {
        usize::from(self.struct_total())
    }

    // How many fields a struct has.
    pub fn fields(&self, s: usize) -> usize
        ensures value { result ≡ length (fields_of (program_of self.now) s) }
        ensures bound { result ≤ 8 }
    {
        match within(s, self.struct_total()) {
            Some(s) => usize::from(self.field_total(s)),
            None => 0,
        }
    }

    pub fn field(&self, s: usize, f: usize) -> Option<Field>
        ensures { result ≡ field_of (program_of self.now) s f }
    {
        let s = within(s, self.struct_total())?;
        let f = within(f, self.field_total(s))?;
        Some(self.field_at(s, f))
    }

    pub fn functions(&self) -> usize
        ensures value { result ≡ length (program_of self.now).functions }
        ensures bound { result ≤ 32 }
    {
        usize::from(self.function_total())
    }

    // How many parameters a function has.
    pub fn params(&self, n: usize) -> usize
        ensures value { result ≡ length (function_of (program_of self.now) n).params }
        ensures bound { result ≤ 4 }
    {
        match within(n, self.function_total()) {
            Some(n) => usize::from(self.param_total(n)),
            None => 0,
        }
    }

    pub fn param(&self, n: usize, i: usize) -> Option<Ty>
        ensures { result ≡ param_of (program_of self.now) n i }
    {
        let n = within(n, self.function_total())?;
        let i = within(i, self.param_total(n))?;
        Some(self.type_at(self.param_place(n, i)))
    }

    // The return type of a function.
    pub fn result(&self, n: usize) -> Option<Ty>
        ensures { result ≡ result_of (program_of self.now) n }
    {
        let n = within(n, self.function_total())?;
        Some(self.type_at(self.result_place(n)))
    }

    // How many records a function has.
    pub fn records(&self, n: usize) -> usize
        ensures value { result ≡ length (function_of (program_of self.now) n).records }
        ensures bound { result ≤ 255 }
    {
        match within(n, self.function_total()) {
            Some(n) => usize::from(self.record_total(n)),
            None => 0,
        }
    }

    // The record of a function at an index: what check and step go by.
    pub fn record(&self, n: usize, i: usize) -> Result<Record<'t>, Lacking>
        ensures { found result ≡ record_of (program_of self.now) n i }
    {
        let n = within(n, self.function_total()).ok_or(Lacking::Missing)?;
        let i = within(i, self.record_total(n)).ok_or(Lacking::Missing)?;
        self.decode_at(self.record_place(n, i))
            .ok_or(Lacking::Undecodable)
    }
}

// A number below a total, as the byte that it then is.
fn within(i: usize, total: u8) -> Option<u8>
    ensures { result ≡ within i total }
{
    u8::try_from(i).ok().filter(|i| *i < total)
}

// Reading by place. A byte past the table's end reads as 0, so that each of these has a value for any bytes.
// Some are alike, but each is the definition of its name, with a number of its own.
impl<'t> Table<'t> {
    pub(crate) fn over(bytes: &'t [u8]) -> Table<'t>
        ensures { bytes_of result ≡ bytes.now }
    {
        Table { bytes }
    }

    pub(crate) fn len(&self) -> usize
        ensures { result ≡ length (bytes_of self.now) }
    {
        self.bytes.len()
    }

    pub(crate) fn byte(&self, i: usize) -> u8
        ensures { result ≡ byte (bytes_of self.now) i }
    {
        self.bytes.get(i).copied().unwrap_or(0)
    }

    fn word(&self, i: usize) -> u16
        requires near { i < 2 ^ 32 }
        ensures { result ≡ word (bytes_of self.now) i }
    {
        u16::from_le_bytes([self.byte(i), self.byte(i + 1)])
    }

    pub(crate) fn struct_count(&self) -> u8
        ensures { result ≡ struct_count (bytes_of self.now) }
    {
        self.byte(1)
    }

    pub(crate) fn function_count(&self) -> u8
        ensures { result ≡ function_count (bytes_of self.now) }
    {
        self.byte(2)
    }

    pub(crate) fn section_place(&self, i: u16) -> u16
        ensures { result ≡ section_place (bytes_of self.now) i }
    {
        self.word(4 + 4 * usize::from(i))
    }

    pub(crate) fn section_end(&self, i: u16) -> usize
        ensures { result ≡ section_end (bytes_of self.now) i }
    {
        let length = self.word(4 + 4 * usize::from(i) + 2);
        usize::from(self.section_place(i)) + usize::from(length)
    }

    // `near` stays where a place is any number: a type of its own would be made and taken apart at each call.
    pub(crate) fn type_at(&self, place: usize) -> Ty
        requires near { place < 2 ^ 32 }
        ensures { result ≡ type_at (bytes_of self.now) place }
    {
        Ty {
            kind: Kind::from(self.byte(place)),
            strukt: self.byte(place + 1),
            barred: self.byte(place + 2),
            withheld: self.byte(place + 3),
        }
    }

    // A struct begins where the one before it ends. No `fold`: its closure could not show that its sum fits.
    pub(crate) fn struct_place(&self, s: u8) -> usize
        ensures value { result ≡ struct_place (bytes_of self.now) s }
        ensures bound { result ≤ 65535 + 1276 * s }
    {
        let mut place = usize::from(self.section_place(0));
        for _i in 0..s {
            place += 1 + 5 * usize::from(self.byte(place));
        }
        place
    }

    pub(crate) fn field_count(&self, s: u8) -> u8
        ensures { result ≡ field_count (bytes_of self.now) s }
    {
        self.byte(self.struct_place(s))
    }

    pub(crate) fn field_place(&self, s: u8, f: u8) -> usize
        ensures value { result ≡ field_place (bytes_of self.now) s f }
        ensures bound { result < 2 ^ 20 }
    {
        self.struct_place(s) + 1 + 5 * usize::from(f)
    }

    pub(crate) fn field_at(&self, s: u8, f: u8) -> Field
        ensures { result ≡ field_at (bytes_of self.now) s f }
    {
        let place = self.field_place(s, f);
        Field {
            mode: Mode::from(self.byte(place)),
            ty: self.type_at(place + 1),
        }
    }

    pub(crate) fn function_place(&self, n: u8) -> u16
        ensures { result ≡ function_place (bytes_of self.now) n }
    {
        self.section_place(u16::from(n) + 1)
    }

    pub(crate) fn param_count(&self, n: u8) -> u8
        ensures { result ≡ param_count (bytes_of self.now) n }
    {
        self.byte(usize::from(self.function_place(n)))
    }

    pub(crate) fn param_place(&self, n: u8, i: u8) -> usize
        ensures value { result ≡ param_place (bytes_of self.now) n i }
        ensures bound { result < 2 ^ 20 }
    {
        usize::from(self.function_place(n)) + 1 + 4 * usize::from(i)
    }

    pub(crate) fn result_place(&self, n: u8) -> usize
        ensures value { result ≡ result_place (bytes_of self.now) n }
        ensures bound { result < 2 ^ 20 }
    {
        self.param_place(n, self.param_count(n))
    }

    // How many bytes of a function's section are left for its records.
    pub(crate) fn record_bytes(&self, n: u8) -> usize
        ensures { result ≡ record_bytes (bytes_of self.now) n }
    {
        self.section_end(u16::from(n) + 1)
            .saturating_sub(self.result_place(n) + 4)
    }

    pub(crate) fn record_count(&self, n: u8) -> usize
        ensures { result ≡ record_count (bytes_of self.now) n }
    {
        self.record_bytes(n) / 12
    }

    pub(crate) fn struct_total(&self) -> u8
        ensures { result ≡ struct_total (bytes_of self.now) }
    {
        self.struct_count().min(16)
    }

    pub(crate) fn field_total(&self, s: u8) -> u8
        ensures { result ≡ field_total (bytes_of self.now) s }
    {
        self.field_count(s).min(8)
    }

    fn function_total(&self) -> u8
        ensures { result ≡ function_total (bytes_of self.now) }
    {
        self.function_count().min(32)
    }

    fn param_total(&self, n: u8) -> u8
        ensures { result ≡ param_total (bytes_of self.now) n }
    {
        self.param_count(n).min(4)
    }

    fn record_total(&self, n: u8) -> u8
        ensures { result ≡ record_total (bytes_of self.now) n }
    {
        self.record_count(n).min(255) as u8
    }

    fn record_place(&self, n: u8, i: u8) -> usize
        ensures value { result ≡ record_place (bytes_of self.now) n i }
        ensures bound { result < 2 ^ 22 }
    {
        self.result_place(n) + 4 + 12 * usize::from(i)
    }

    // What the twelve bytes at a place say.
    fn decode_at(&self, place: usize) -> Option<Record<'t>>
        requires near { place < 2 ^ 32 }
        ensures { meant_by result ≡ decoded (take 12 (drop place (bytes_of self.now))) }
    {
        let record = self.bytes.get(place..place + 12)?;
        decode(record)
    }
}

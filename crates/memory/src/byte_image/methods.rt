// How an image is made, and how its records are read and written.
ghost use Rattle.std.specs.Prelude.{◌≡◌, ◌+◌, ◌*◌, ◌/◌, ◌^◌, ◌<◌, ◌≤◌, length, IfOk};
ghost use Rattle.memory.specs.Images.{imaged, imaged_by, blanked, cell_from, cell_number, Layout};
ghost use Rattle.memory.specs.Model.{make_of};
ghost use Rattle.memory.specs.Sizes.{image_sized};

use super::ByteImage;
use crate::keeping::allowed;
use crate::object::Cell;
use crate::records::Records;
use crate::words;
use table::fault::Fault;

// A cell as a number, its mark in the lowest bit. `From` asks nothing, and a word of 2^31 or more has no number of 32 bits.
fn pack(cell: Cell) -> u32
    requires { cell.word < 2 ^ 31 }
    ensures { result ≡ cell_number cell }
{
    2 * cell.word + u32::from(cell.mark)
}

// The cell of a number in the bytes.
impl From<u32> for Cell {
    ghost from_gives = { λ number cell. cell ≡ cell_from number };

    fn from(number: u32) -> Cell {
        Cell {
            word: number / 2,
            mark: number % 2 == 1,
        }
    }
}

// Writes a new object at the place of the object numbered o.
fn blank(bytes: &mut [u8], o: usize, kind: u8)
    requires { 36 * o + 36 ≤ length bytes.old }
    ensures { bytes.new ≡ blanked bytes.old o kind }
{
    let base = 36 * o;
    words::put(bytes, base, u32::from(kind));
    bytes[base + 4..base + 36].fill(0);
}

#[tactic(auto, using(crate::proofs::Encoding::image_none, crate::proofs::Encoding::image_layout))]
impl<'a> ByteImage<'a> {
    // An empty image, with room for as many objects as fit into the bytes.
    pub fn new(bytes: &'a mut [u8]) -> Result<ByteImage<'a>, Fault>
        ensures value { imaged_by result ≡ make_of (length bytes.old / 36) }
        ensures untouched { IfOk result (λ s. s.bytes.now ≡ bytes.old) }
    {
        allowed(bytes.len() / 36)?;
        Ok(ByteImage { bytes, count: 0 })
    }

    // The bytes, as another reader may read them.
    pub fn bytes(&self) -> &[u8]
        ensures { Layout (imaged self.now) result.now }
    {
        &*self.bytes
    }
}

#[tactic(auto, using(crate::specs::Sizes::length_image, crate::proofs::Encoding::object_at_is, crate::proofs::Encoding::cell_at_is, crate::proofs::Encoding::image_write, crate::proofs::Encoding::image_grown))]
impl Records for ByteImage<'_> {
    ghost held = { imaged };

    fn room(&self) -> usize {
        self.bytes.len() / 36
    }

    fn used(&self) -> usize {
        self.count
    }

    fn kind_at(&self, object: usize) -> u8 {
        u8::try_from(words::get(self.bytes, 36 * object)).unwrap_or(u8::MAX)
    }

    fn cell_at(&self, object: usize, cell: usize) -> Cell {
        Cell::from(words::get(self.bytes, 36 * object + 4 + 4 * cell))
    }

    fn append(&mut self, kind: u8) {
        blank(self.bytes, self.count, kind);
        self.count += 1;
    }

    fn set_cell(&mut self, object: usize, cell: usize, value: Cell) {
        words::put(self.bytes, 36 * object + 4 + 4 * cell, pack(value));
    }

    ghost sized = { image_sized };
}

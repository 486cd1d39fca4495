// A list in an array of its own.
ghost use Rattle.std.specs.Prelude.{◌≡◌, ◌-◌, ◌≤◌, length, nat_lt, reverse, slice_set};
ghost use Rattle.std.specs.List.{slice_get};
ghost use Rattle.list.specs.Held.{pushed, popped};
ghost use Rattle.list.specs.Fronts.{front_of};

use super::append;

// No heap: the first `len` items are in use, or all where there are no more, so that any count may stand. It is no `Bounded` of its array: a struct cannot hold a loan of its own field.
#[derive(Clone, Copy, Debug, Drop)]
pub struct Front<T, const N: usize> {
    pub items: [T; N],
    pub len: usize,
}

impl<T: Copy, const N: usize> Front<T, N> {
    // How many items are in use.
    pub fn len(&self) -> usize
        ensures value { result ≡ length (front_of self.now) }
        ensures most { result ≤ N }
    {
        self.all().len()
    }

    // The items that are in use, to read.
    pub fn all(&self) -> &[T]
        ensures value { result.now ≡ front_of self.now }
        ensures few { length result.now ≤ N }
    {
        let items: &[T] = &self.items;
        &items[..self.len.min(items.len())]
    }

    // The item that lies so many below the last.
    pub fn from_end(&self, n: usize) -> Option<T>
        ensures { result ≡ slice_get (reverse (front_of self.now)) n }
    {
        self.all().iter().rev().nth(n).copied()
    }

    // Appends x, where there is room.
    pub fn push(&mut self, x: T)
        ensures { front_of self.new ≡ pushed N (front_of self.old) x }
    {
        let len = self.len();
        if len < N {
            self.len = append(&mut self.items, len, x);
        }
    }

    // Takes the last item off, if there is one.
    pub fn pop(&mut self)
        ensures { front_of self.new ≡ popped (front_of self.old) }
    {
        self.len = self.len().saturating_sub(1);
    }

    // Puts x in the place of the last item, if there is one.
    pub fn put_last(&mut self, x: T)
        ensures { front_of self.new ≡ slice_set (front_of self.old) (length (front_of self.old) - 1) x }
    {
        let len = self.len();
        if len > 0 {
            self.items[len - 1] = x;
        }
    }
}

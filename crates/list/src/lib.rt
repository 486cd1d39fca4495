// A list over a slice that its caller lends: types in scope, open blocks, and numbers put out.
#![tactic(auto)]

ghost use Rattle.std.specs.Prelude.{◌≡◌, ◌+◌, ◌-◌, ◌≤◌, ltb, [], length, take, nat_lt, if◌then◌else◌, slice_set};
ghost use Rattle.list.specs.Held.{held, room, slice, pushed, last_of, popped};

mod fronts;

pub use fronts::Front;

// No heap: the slice is the caller's, and the count says how much of it is in use. No invariant: `held` is defined for any count, and a
// bound where it is read is plainer than a proof where it is written.
#[derive(Drop)]
pub struct Bounded<'a, T> {
    items: &'a mut [T],
    len: usize,
}

impl<'a, T: Copy> Bounded<'a, T> {
    // An empty list.
    pub fn new(items: &'a mut [T]) -> Bounded<'a, T>
        ensures held { held result ≡ [] }
        ensures room { room result ≡ length items.old }
        ensures slice { slice result ≡ items.entry.ghost_name }
    {
        Bounded { items, len: 0 }
    }

    pub fn len(&self) -> usize
        ensures value { result ≡ length (held self.now) }
        ensures bound { result ≤ self.now.len }
        ensures within { result ≤ length self.now.items.now }
    {
        self.len.min(self.items.len())
    }

    // The items, to read.
    pub fn all(&self) -> &[T]
        ensures { result.now ≡ held self.now }
    {
        let items: &[T] = &*self.items;
        &items[..self.len()]
    }

    // How many items more there is room for.
    pub fn free(&self) -> usize
        ensures { result ≡ room self.now - length (held self.now) }
    {
        self.items.len() - self.len()
    }

    // Appends x, or answers false and changes nothing where there is no room.
    pub fn push(&mut self, x: T) -> bool
        ensures value { result ≡ nat_lt (length (held self.old)) (room self.old) }
        ensures held { held self.new ≡ pushed (room self.old) (held self.old) x }
        ensures room { room self.new ≡ room self.old }
        ensures slice { slice self.new ≡ slice self.old }
    {
        // Not by `append`: its answer would be compared again to say whether there was room.
        let n = self.len();
        if n >= self.items.len() {
            return false;
        }
        self.items[n] = x;
        self.len = n + 1;
        true
    }

    pub fn last(&self) -> Option<T>
        ensures { result ≡ last_of (held self.now) }
    {
        self.all().last().copied()
    }

    // Takes the last item off, if there is one.
    pub fn pop(&mut self) -> Option<T>
        ensures value { result ≡ last_of (held self.old) }
        ensures held { held self.new ≡ popped (held self.old) }
        ensures room { room self.new ≡ room self.old }
        ensures slice { slice self.new ≡ slice self.old }
    {
        let top = self.last();
        self.truncate(self.len().saturating_sub(1));
        top
    }

    // Leaves the first n items.
    pub fn truncate(&mut self, n: usize)
        ensures held { held self.new ≡ take n (held self.old) }
        ensures room { room self.new ≡ room self.old }
        ensures slice { slice self.new ≡ slice self.old }
    {
        self.len = self.len().min(n);
    }

    // Writes x over item i, if there is one.
    pub fn set(&mut self, i: usize, x: T)
        ensures held { held self.new ≡ slice_set (held self.old) i x }
        ensures room { room self.new ≡ room self.old }
        ensures slice { slice self.new ≡ slice self.old }
    {
        if i < self.len() {
            self.items[i] = x;
        }
    }
}

// Appends x to the first len items of a slice where there is room, and answers how many there are then.
pub fn append<T: Copy>(items: &mut [T], len: usize, x: T) -> usize
    ensures items { items.new ≡ slice_set items.old len x }
    ensures len { result ≡ (if ltb len (length items.old) then len + 1 else len) }
{
    if len >= items.len() {
        return len;
    }
    items[len] = x;
    len + 1
}

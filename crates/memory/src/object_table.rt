// A memory that is a table of object records, over a slice that its caller lends.
ghost use Rattle.std.specs.Prelude.{◌≤◌, length};

use super::object::Object;

mod methods;

// No heap: the slice is the caller's, and the count says how much of it is in use.
#[derive(Drop)]
pub struct ObjectTable<'a> {
    objects: &'a mut [Object],
    count: usize,
    ghost few: { length objects.now ≤ 1024 },
    ghost there: { count ≤ length objects.now },
}

// The calls of a list.
ghost use Rattle.std.specs.Prelude.{◌≡◌, [], ◌∷◌, ◌++◌, length, drop, if◌then◌else◌, Ok, Err, slice_set};
ghost use Rattle.common.specs.Added.{Added};
ghost use Rattle.common.specs.Lists.{items, room, has_room, has_room_for, full};

use crate::list::List;

// The table has no room for another item.
#[derive(Clone, Copy, PartialEq, Eq, Debug)]
pub struct Full;

impl<'a, T: Copy> List<'a, T> {
    // The empty list over a table.
    pub fn new(table: &'a mut [T]) -> List<'a, T>
        ensures items { items result ≡ [] }
        ensures table { result.table.now ≡ table.old }
        ensures lends { result.table.ghost_name ≡ table.entry.ghost_name }
    {
        List { table, len: 0 }
    }

    pub fn len(&self) -> usize
        ensures { result ≡ length (items self.now) }
    {
        self.len
    }

    // How many items there is room for in all.
    pub fn room(&self) -> usize
        ensures { result ≡ room self.now }
    {
        self.table.len()
    }

    pub fn as_slice(&self) -> &[T]
        ensures { result.now ≡ items self.now }
    {
        &self.table[0..self.len]
    }

    // Adds an item behind the others, or refuses where the table is full.
    pub fn push(&mut self, x: T) -> Result<(), Full>
        ensures says { result ≡ (if has_room self.old then Ok tt else Err full) }
        ensures items { items self.new ≡ (if has_room self.old then items self.old ++ (x ∷ []) else items self.old) }
        ensures table { self.new.table.now ≡ (if has_room self.old then slice_set self.old.table.now (length (items self.old)) x else self.old.table.now) }
        ensures rest { drop (length (items self.new)) self.new.table.now ≡ drop (length (items self.new)) self.old.table.now }
        ensures room { room self.new ≡ room self.old }
        ensures lends { self.new.table.ghost_name ≡ self.old.table.ghost_name }
    {
        if self.len >= self.table.len() {
            return Err(Full);
        }
        self.table[self.len] = x;
        self.len += 1;
        Ok(())
    }

    // Adds items behind the others, or none of them where the table has not room for all.
    pub fn extend_from_slice(&mut self, xs: &[T]) -> Result<(), Full>
        ensures says { result ≡ (if has_room_for (length xs.now) self.old then Ok tt else Err full) }
        ensures added { Added self.old (if has_room_for (length xs.now) self.old then xs.now else []) self.new }
    {
        if self.table.len() - self.len < xs.len() {
            return Err(Full);
        }
        let end = self.len + xs.len();
        self.table[self.len..end].copy_from_slice(xs);
        self.len = end;
        Ok(())
    }
}

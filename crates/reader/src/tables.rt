// A lent table that is being filled.
ghost use Rattle.std.specs.Prelude.{◌≡◌, ◌+◌, ◌^◌, ◌<◌, slice_set};

// A table that is filled from its start. Entries that do not fit are only counted.
#[derive(Drop)]
pub struct Table<'t, T> {
    pub entries: &'t mut [T],
    pub count: usize,
}

impl<'t, T: Copy> Table<'t, T> {
    // Enters an entry and answers its number.
    pub fn enter(&mut self, entry: T) -> usize
        requires { self.old.count + 1 < 2 ^ 64 }
        ensures same_table { self.new.entries.ghost_name ≡ self.old.entries.ghost_name }
        ensures entries { self.new.entries.now ≡ slice_set self.old.entries.now self.old.count entry }
        ensures count { self.new.count ≡ self.old.count + 1 }
        ensures number { result ≡ self.old.count }
    {
        let n = self.count;
        if n < self.entries.len() {
            self.entries[n] = entry;
        }
        self.count = n + 1;
        n
    }
}

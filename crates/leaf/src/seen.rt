// A list for the marks seen, which is handed in.
ghost use Rattle.std.specs.Prelude.{◌≡◌, ◌+◌, ◌-◌, ◌<◌, ◌≤◌, take, slice_set};
ghost use Rattle.std.specs.List.{slice_get};
ghost use Rattle.leaf.specs.Leaves.{limit_of};

use memory::Mark;

/// The most marks that any list holds.
const MOST: usize = 1_000_000;

// The count stands beside the list, since a memory takes nothing from the heap: the list is handed in,
// and its length is the limit.
/// A list whose first `count` entries are the marks seen.
#[derive(Drop)]
pub struct SeenList {
    list: Vec<Mark>,
    count: usize,
    ghost room: { count ≤ limit_of list.items },
}

impl SeenList {
    /// No marks at first, and room for as many as the list is long.
    pub fn new(list: Vec<Mark>) -> SeenList
        ensures list { result.list ≡ list }
        ensures count { result.count ≡ 0 }
    {
        SeenList { list, count: 0 }
    }

    /// How many marks there is room for.
    pub fn free(&self) -> usize
        ensures { result ≡ limit_of self.now.list.items - self.now.count }
    {
        self.list.len().min(MOST) - self.count
    }

    /// The marks seen.
    pub fn marks(&self) -> &[Mark]
        ensures { result.now ≡ take self.now.count self.now.list.items }
    {
        &self.list[..self.count]
    }

    /// Mark `j`, where there is one.
    pub fn mark(&self, j: usize) -> Option<Mark>
        ensures { result ≡ slice_get (take self.now.count self.now.list.items) j }
    {
        self.marks().get(j).copied()
    }

    /// Appends a mark, where there is room.
    pub fn note(&mut self, mark: Mark)
        ensures noted { self.old.count < limit_of self.old.list.items → (self.new.list.items ≡ slice_set self.old.list.items self.old.count mark) × (self.new.count ≡ self.old.count + 1) }
        ensures full { limit_of self.old.list.items ≤ self.old.count → (self.new.list ≡ self.old.list) × (self.new.count ≡ self.old.count) }
    {
        if self.free() > 0 {
            self.list[self.count] = mark;
            self.count += 1;
        }
    }

    /// Forgets all marks.
    pub fn clear(&mut self)
        ensures list { self.new.list ≡ self.old.list }
        ensures count { self.new.count ≡ 0 }
    {
        self.count = 0;
    }

    /// Gives the list back, with the marks in front.
    pub fn into_list(self) -> Vec<Mark>
        ensures { result ≡ self.list }
    {
        let SeenList { list, count: _ } = self;
        list
    }
}

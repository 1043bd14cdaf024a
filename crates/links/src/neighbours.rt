//! What stands before and behind each entry.
ghost use Rattle.std.specs.Prelude.{◌≡◌, ◌<◌, length, slice_index, slice_set};

/// Of each entry, which entry follows it and which stands before it.
#[derive(Drop)]
pub struct Neighbours {
    pub next: Vec<u32>,
    pub previous: Vec<u32>,
}

impl Neighbours {
    /// The entry that follows an entry.
    pub fn next(&self, entry: u32) -> u32
        requires { entry < length self.now.next.items }
        ensures { result ≡ slice_index self.now.next.items entry }
    {
        self.next[entry as usize]
    }

    /// The entry before an entry.
    pub fn previous(&self, entry: u32) -> u32
        requires { entry < length self.now.previous.items }
        ensures { result ≡ slice_index self.now.previous.items entry }
    {
        self.previous[entry as usize]
    }

    /// Puts a node between two entries that follow one another.
    pub fn insert(&mut self, before: u32, node: u32, after: u32)
        requires before { before < length self.old.next.items }
        requires next_node { node < length self.old.next.items }
        requires previous_node { node < length self.old.previous.items }
        requires after { after < length self.old.previous.items }
        ensures next { self.new.next.items ≡ slice_set (slice_set self.old.next.items before node) node after }
        ensures previous { self.new.previous.items ≡ slice_set (slice_set self.old.previous.items node before) after node }
    {
        self.join(before, node);
        self.join(node, after);
    }

    /// Takes a node out from between the entries on its two sides. It leads to itself then.
    pub fn remove(&mut self, before: u32, node: u32, after: u32)
        requires before { before < length self.old.next.items }
        requires next_node { node < length self.old.next.items }
        requires previous_node { node < length self.old.previous.items }
        requires after { after < length self.old.previous.items }
        ensures next { self.new.next.items ≡ slice_set (slice_set self.old.next.items before after) node node }
        ensures previous { self.new.previous.items ≡ slice_set (slice_set self.old.previous.items after before) node node }
    {
        self.join(before, after);
        self.join(node, node);
    }

    /// Lets one entry follow another.
    fn join(&mut self, before: u32, after: u32)
        requires before { before < length self.old.next.items }
        requires after { after < length self.old.previous.items }
        ensures next { self.new.next.items ≡ slice_set self.old.next.items before after }
        ensures previous { self.new.previous.items ≡ slice_set self.old.previous.items after before }
    {
        self.next[before as usize] = after;
        self.previous[after as usize] = before;
    }
}

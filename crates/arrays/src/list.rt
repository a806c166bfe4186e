// A list of up to N items that lies in an array, so that it takes no memory of its own.
ghost use Rattle.std.specs.Prelude.{◌≡◌, ◌<◌, ◌++◌, [], ◌∷◌, length, take, OnOk, OnErr, ◌↔◌, IsTrue, IsOk};
ghost use Rattle.arrays.specs.Lists.{list_from, list_items, with_last};

// The list is full.
#[derive(Clone, Copy, Debug, PartialEq, Eq)]
pub struct Full;

// The first `len` items count; behind them stands what the list was made with or held once. `len` is never more than N;
// no ghost field says so, since each definition that makes a list would have to show it, and a minimum costs nothing.
#[derive(Clone, Copy)]
pub struct FixedList<T, const N: usize> {
    items: [T; N],
    len: usize,
}

impl<T: Copy, const N: usize> FixedList<T, N> {
    // No items, and a filler in all places.
    pub fn new(filler: T) -> Self
        ensures { result ≡ list_from N filler [] }
    {
        FixedList {
            items: [filler; N],
            len: 0,
        }
    }

    // One item more at the end; where the list is full it stays as it was.
    pub fn push(&mut self, item: T) -> Result<(), Full>
        ensures room { IsOk result ↔ (length (list_items self.old) < N) }
        ensures items { OnOk result (list_items self.new ≡ list_items self.old ++ item ∷ []) }
        ensures after { OnOk result (self.new ≡ with_last self.old item) }
        ensures full { OnErr result (self.new ≡ self.old) }
    {
        if self.len >= N {
            return Err(Full);
        }
        self.items[self.len] = item;
        self.len += 1;
        Ok(())
    }

    // The first N of some items.
    pub fn from_slice(filler: T, items: &[T]) -> Self
        ensures { list_items result ≡ take N items.now }
    {
        let len = items.len().min(N);
        let mut held = [filler; N];
        held[..len].copy_from_slice(&items[..len]);
        FixedList { items: held, len }
    }

    pub fn as_slice(&self) -> &[T]
        ensures { result.now ≡ list_items self.now }
    {
        &self.items[..self.len.min(N)]
    }

    // How many items there are.
    pub fn len(&self) -> usize
        ensures { result ≡ length (list_items self.now) }
    {
        self.len.min(N)
    }

    pub fn is_empty(&self) -> bool
        ensures { IsTrue result ↔ (list_items self.now ≡ []) }
    {
        self.len() == 0
    }

    // Keeps the first n items, or all where there are fewer.
    pub fn truncate(&mut self, n: usize)
        ensures { list_items self.new ≡ take n (list_items self.old) }
    {
        self.len = self.len.min(n);
    }
}

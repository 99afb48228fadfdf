ghost use Rattle.std.specs.Prelude.{◌≡◌, ◌<◌, ◌≤◌, [], ◌∷◌, ◌++◌, length, MatchResult, slice_set};
ghost use Rattle.fixed.specs.Items.{items, with_item};

use super::Bounded;

/// The list has no room for another item.
#[derive(Clone, Copy, PartialEq, Eq, Debug)]
pub struct Full;

impl<T: Copy, const N: usize> Bounded<T, N> {
    /// No items; `filler` stands where there are none yet.
    pub fn new(filler: T) -> Bounded<T, N>
        ensures { items result ≡ [] }
    {
        Bounded {
            slots: [filler; N],
            count: 0,
        }
    }

    /// The items.
    pub fn as_slice(&self) -> &[T]
        ensures { result.now ≡ items self.now }
    {
        &self.slots[..self.count]
    }

    /// Adds an item at the end.
    pub fn push(&mut self, item: T) -> Result<(), Full>
        ensures { MatchResult result (λ _. items self.new ≡ items self.old ++ item ∷ []) (λ _. (length (items self.old) ≡ N) × (self.new ≡ self.old)) }
    {
        if self.count == N {
            return Err(Full);
        }
        self.slots[self.count] = item;
        self.count += 1;
        Ok(())
    }

    /// Puts another item in the place of one; where there is none, nothing changes.
    pub fn set(&mut self, at: usize, item: T)
        ensures items { items self.new ≡ slice_set (items self.old) at item }
        ensures there { at < length (items self.old) → self.new ≡ with_item self.old at item }
        ensures past { length (items self.old) ≤ at → self.new ≡ self.old }
    {
        if at < self.count {
            self.slots[at] = item;
        }
    }
}

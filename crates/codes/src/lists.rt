// Lists of numbers held end to end, with the start of each.
ghost use Rattle.std.specs.Prelude.{◌≡◌, ℕ, ◌+◌, ◌<◌, ◌≤◌, length, slice_index};

use std::alloc::{AllocError, Global};

// Lists of numbers held end to end, and the items of one more that is being made.
#[derive(Drop)]
pub struct Lists {
    // Where each list begins, and then where the one that is being made does.
    starts: Vec<u32>,
    items: Vec<u16>,
    ghost some: { 1 ≤ length starts.items },
    ghost rises: { (k : ℕ) → k + 1 < length starts.items → slice_index starts.items k ≤ slice_index starts.items (k + 1) },
    ghost within: { (k : ℕ) → k < length starts.items → slice_index starts.items k ≤ length items.items },
}

impl Lists {
    ghost use Rattle.std.specs.Prelude.{[], ◌∷◌, ◌++◌, slice_get, option_map, IfOk, MatchResult};
    ghost use Rattle.codes.specs.Held.{lists_in, open_in};

    // No list, and no item of one.
    pub fn new(heap: Global) -> Result<Lists, AllocError>
        ensures { IfOk result (λ l. (lists_in l ≡ []) × (open_in l ≡ [])) }
    {
        let mut starts = Vec::new(heap);
        starts.push(0)?;
        Ok(Lists {
            starts,
            items: Vec::new(heap),
        })
    }

    // Adds an item to the list that is being made.
    pub fn add(&mut self, item: u16) -> Result<(), AllocError>
        ensures { MatchResult result (λ _. (lists_in self.new ≡ lists_in self.old) × (open_in self.new ≡ open_in self.old ++ item ∷ [])) (λ _. (lists_in self.new ≡ lists_in self.old) × (open_in self.new ≡ open_in self.old)) }
    {
        self.items.push(item)?;
        Ok(())
    }

    // Ends the list that is being made, and begins another. More than `u32::MAX` items are too many.
    pub fn close(&mut self) -> Result<(), AllocError>
        ensures { MatchResult result (λ _. (lists_in self.new ≡ lists_in self.old ++ open_in self.old ∷ []) × (open_in self.new ≡ [])) (λ _. (lists_in self.new ≡ lists_in self.old) × (open_in self.new ≡ open_in self.old)) }
    {
        let end = u32::try_from(self.items.len()).map_err(|_| AllocError)?;
        self.starts.push(end)?;
        Ok(())
    }

    // How many lists there are, without the one that is being made.
    pub fn len(&self) -> usize
        ensures { result ≡ length (lists_in self.now) }
    {
        self.starts.len() - 1
    }

    // The list of this number.
    pub fn get(&self, at: usize) -> Option<&[u16]>
        ensures { option_map (λ l. l.now) result ≡ slice_get (lists_in self.now) at }
    {
        if at < self.len() {
            let start = self.starts[at] as usize;
            let end = self.starts[at + 1] as usize;
            Some(&self.items[start..end])
        } else {
            None
        }
    }
}

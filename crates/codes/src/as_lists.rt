// Lists of numbers, however they are held.
ghost use Rattle.std.specs.Prelude.{◌≡◌, ℕ, List, length, slice_get, option_map};
ghost use Rattle.codes.specs.Held.{lists_in, lists_of_vectors};

use crate::lists::Lists;

// Lists of numbers, which are asked by number.
pub trait AsLists {
    ghost lists: { Self → List (List ℕ) };

    // How many lists there are.
    fn count(&self) -> usize
        ensures { result ≡ length (lists self.now) };

    // The list of this number.
    fn list(&self, at: usize) -> Option<&[u16]>
        ensures { option_map (λ l. l.now) result ≡ slice_get (lists self.now) at };
}

impl AsLists for Lists {
    ghost lists = { lists_in };

    fn count(&self) -> usize {
        Lists::len(self)
    }

    fn list(&self, at: usize) -> Option<&[u16]> {
        Lists::get(self, at)
    }
}

impl AsLists for Vec<Vec<u16>> {
    ghost lists = { lists_of_vectors };

    fn count(&self) -> usize {
        self.len()
    }

    fn list(&self, at: usize) -> Option<&[u16]> {
        match self.get(at) {
            Some(list) => Some(list.as_slice()),
            None => None,
        }
    }
}

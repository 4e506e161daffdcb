// A cell that is not empty, seen from its row or its column.
ghost use Rattle.std.specs.Prelude.{◌≡◌, ◌<◌, ◌≤◌};
ghost use Rattle.codes.specs.Limits.{most_size, stride};
ghost use Rattle.circulant.specs.Turns.{landing};

#[derive(Clone, Copy)]
pub struct Turn {
    // The first bit or check of the column or row that it leads to.
    pub start: usize,
    // How far it turns on the way.
    pub by: u16,
}

impl Turn {
    // Where it leads from a place of its row or column, round a circle of this size.
    pub(crate) fn landing(self, size: usize, offset: usize) -> u16
        requires near { self.start ≤ stride }
        requires small { size ≤ most_size }
        requires place { offset < size }
        ensures { result ≡ landing size offset self }
    {
        (self.start + (offset + usize::from(self.by)) % size) as u16
    }
}

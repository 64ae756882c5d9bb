// Filling and reading a list in fixed cells.
ghost use Rattle.std.specs.Prelude.{◌≡◌, [], length, slice_get};
ghost use Rattle.fixed_list.specs.Items.{items, push_answer, pushed};

use crate::FixedList;

impl<T: Copy + Default, const N: usize> FixedList<T, N> {
    pub fn new() -> Self
        ensures { items result ≡ [] }
    {
        Self::with_blank(T::default())
    }
}

impl<T: Copy, const N: usize> FixedList<T, N> {
    // An empty list, where `blank` stands in the free cells.
    pub fn with_blank(blank: T) -> Self
        ensures { items result ≡ [] }
    {
        FixedList {
            cells: [blank; N],
            count: 0,
        }
    }

    pub fn len(&self) -> usize
        ensures { result ≡ length (items self.now) }
    {
        self.as_slice().len()
    }

    pub fn get(&self, i: usize) -> Option<T>
        ensures { result ≡ slice_get (items self.now) i }
    {
        self.as_slice().get(i).copied()
    }

    pub fn as_slice(&self) -> &[T]
        ensures { result.now ≡ items self.now }
    {
        &self.cells[..self.count]
    }

    // Hands the element back, and leaves the list as it was, where all cells are taken.
    pub fn push(&mut self, x: T) -> Result<(), T>
        ensures answer { result ≡ push_answer N (items self.old) x }
        ensures list { items self.new ≡ pushed N (items self.old) x }
    {
        if self.count >= N {
            return Err(x);
        }
        self.cells[self.count] = x;
        self.count += 1;
        Ok(())
    }

    pub fn clear(&mut self)
        ensures { items self.new ≡ [] }
    {
        self.count = 0;
    }
}

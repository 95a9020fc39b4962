// A list in an array, since there is no heap.
ghost use Rattle.std.specs.Prelude.{◌≡◌, take};

// The first `len` of the items, as far as there are so many.
#[derive(Clone, Copy)]
pub struct Listed<T, const N: usize> {
    pub items: [T; N],
    pub len: usize,
}

impl<T: Copy, const N: usize> Listed<T, N> {
    pub fn as_slice(&self) -> &[T]
        ensures { result.now ≡ take self.now.len self.now.items }
    {
        &self.items[..self.len.min(N)]
    }
}

// Up to N items, in fixed memory, since no heap is allowed here.
use std::iter::Flatten;
use std::option;
use std::slice::Iter;

// Those behind the last item are empty.
#[derive(Drop)]
pub struct List<T, const N: usize>([Option<T>; N]);

impl<T: Copy, const N: usize> List<T, N> {
    pub fn empty() -> List<T, N> {
        List([None; N])
    }

    // None where there is no room.
    pub fn push(&mut self, item: T) -> Option<()> {
        let place = self.0.iter_mut().find(|p| p.is_none())?;
        *place = Some(item);
        Some(())
    }

    pub fn iter(&self) -> Flatten<Iter<'_, Option<T>>, option::Iter<'_, T>> {
        self.0.iter().flatten()
    }

    pub fn len(&self) -> usize {
        self.0.iter().filter(|p| p.is_some()).count()
    }
}

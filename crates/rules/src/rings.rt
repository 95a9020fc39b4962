// The rings of the state: where they begin, how long they are, and the places in them.
ghost use Rattle.std.specs.Prelude.{◌≡◌, ◌+◌, min, ltb};
ghost use Rattle.rules.specs.Rings.{slot_of, place_behind, place_before, longer_behind, longer_before, without_front, without_last};

// A ring of N slots. Any numbers will do: the head is read as `head % N`, the length as `min(len, N)`.
#[derive(Clone, Copy, PartialEq, Eq)]
pub struct Ring<const N: usize> {
    pub head: usize,
    pub len: usize,
}

impl<const N: usize> Ring<N> {
    // How many records it holds.
    pub fn count(self) -> usize
        ensures { result ≡ min self.entry.len N }
    {
        self.len.min(N)
    }

    // The slot so many places on from the head, around the ring. A ring of no slots answers 0.
    pub fn slot(self, i: usize) -> usize
        ensures { result ≡ slot_of N self.entry.head i }
    {
        if N == 0 {
            return 0;
        }
        let head = self.head % N;
        let rest = N - head;
        let on = i % N;
        if on < rest { head + on } else { on - rest }
    }

    // The place behind the last record; a full ring has none.
    pub fn place_behind(self) -> Option<usize>
        ensures { result ≡ place_behind N self.entry }
    {
        if self.len < N {
            Some(self.slot(self.len))
        } else {
            None
        }
    }

    // With a record there. A full ring stays.
    pub fn longer_behind(self) -> Self
        ensures { result ≡ longer_behind N self.entry }
    {
        match self.place_behind() {
            Some(_) => Ring {
                len: self.len + 1,
                ..self
            },
            None => self,
        }
    }

    // The place before the first record; a full ring has none.
    pub fn place_before(self) -> Option<usize>
        ensures { result ≡ place_before N self.entry }
    {
        if self.len < N {
            Some(self.slot(N - 1))
        } else {
            None
        }
    }

    // With a record there. A full ring stays.
    pub fn longer_before(self) -> Self
        ensures { result ≡ longer_before N self.entry }
    {
        match self.place_before() {
            Some(at) => Ring {
                head: at,
                len: self.len + 1,
            },
            None => self,
        }
    }

    // With the first records gone, so many or all.
    pub fn without_front(self, n: usize) -> Self
        ensures { result ≡ without_front N n self.entry }
    {
        let gone = n.min(self.count());
        Ring {
            head: self.slot(gone),
            len: self.count() - gone,
        }
    }

    // With the last record gone.
    pub fn without_last(self) -> Self
        ensures { result ≡ without_last N self.entry }
    {
        Ring {
            len: self.count().saturating_sub(1),
            ..self
        }
    }
}

#[derive(Clone, Copy, PartialEq, Eq)]
pub struct Rings {
    pub outbound: Ring<{ Rings::OUTBOUND }>,
    // The waiting frames, chunks counted singly.
    pub waiting: usize,
    pub held: Ring<{ Rings::HELD }>,
    pub pending: Ring<{ Rings::PENDING }>,
}

impl Rings {
    // The most frames that wait (refusal 4).
    pub const OUTBOUND: usize = 1024;

    // The most batched messages held, in the batch and in waiting batch frames (5).
    pub const HELD: usize = 512;

    // The most pending entries (7).
    pub const PENDING: usize = 256;
}

// 4 and 7: together they are more than N, those that are there and those to come.
pub fn too_many<const N: usize>(some: usize, more: usize) -> bool
    ensures { result ≡ ltb N (some + more) }
{
    if more <= N { N - more < some } else { true }
}

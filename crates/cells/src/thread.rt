ghost use Rattle.std.specs.Prelude.{◌≡◌};
ghost use Rattle.cells.specs.Threads.{same_thread, before_thread, thread_code, thread_reads};
ghost use Rattle.std.proofs.Common.{rules};

use crate::cell::Cell;

/// A thread: a colour and a ply.
#[derive(Clone, Copy, PartialEq, Eq, PartialOrd, Ord, Debug, Default)]
pub struct Thread {
    pub colour: u16,
    pub ply: u8,
}

impl Cell for Thread {
    ghost kind = { record { same = same_thread; before = before_thread } };

    ghost code = { thread_code };

    ghost reading = { record { width = 3; reads = thread_reads } };

    const BYTES: usize = 3;

    ghost BYTES = { 3 };

    ghost lawful = { Prim.search rules };

    ghost tested = { Prim.search rules };

    ghost small = { Prim.search rules };

    ghost readable = { Prim.search rules };

    ghost wide = { Prim.search rules };

    fn code_of(self) -> u8 {
        (self.colour % 64) as u8
    }

    fn read(bytes: &[u8]) -> Option<Thread> {
        let [low, high, ply] = bytes else {
            return None;
        };
        Some(Thread {
            colour: u16::from_le_bytes([*low, *high]),
            ply: *ply,
        })
    }
}

/// What the kind answers through its trait, said by the definitions of threads alone.
// As for lifts.
impl Thread {
    /// How many bytes a thread takes in a file.
    pub fn bytes() -> usize
        ensures { result ≡ 3 }
    {
        <Thread as Cell>::BYTES
    }

    /// Whether two threads are equal.
    pub fn equals(self, other: Thread) -> bool
        ensures { result ≡ same_thread self other }
    {
        self == other
    }

    /// Whether this thread is before the other.
    pub fn precedes(self, other: Thread) -> bool
        ensures { result ≡ before_thread self other }
    {
        self < other
    }

    /// The code of the thread.
    pub fn code(self) -> u8
        ensures { result ≡ thread_code self }
    {
        self.code_of()
    }

    /// The thread that the bytes read as.
    pub fn parse(bytes: &[u8]) -> Option<Thread>
        ensures { result ≡ thread_reads bytes.now }
    {
        <Thread as Cell>::read(bytes)
    }
}

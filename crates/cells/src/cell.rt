ghost use Rattle.std.specs.Prelude.{◌≡◌, ℕ, ◌<◌};
ghost use Rattle.grids.specs.Kinds.{Kind, Lawful};
ghost use Rattle.cells.specs.Readings.{Reading, Readable, code_limit};
ghost use Rattle.cells.specs.Ordered.{TestedBy};

/// A kind of cells. Searching and the book are written once over this trait.
pub trait Cell: Copy + Ord {
    /// The equality and the order of the kind.
    ghost kind: { Kind Self };

    /// The code of a cell.
    ghost code: { Self → ℕ };

    /// How the kind reads from bytes.
    ghost reading: { Reading Self };

    /// How many bytes one cell takes in a file.
    const BYTES: usize;

    ghost BYTES: { ℕ };

    /// The code of the cell.
    // Not From: unequal cells may share a code, so it stands for no cell.
    fn code_of(self) -> u8
        ensures { result ≡ code self };

    /// The cell that the bytes read as.
    // Not TryFrom: other bytes are no error here, and the promise names the reading.
    fn read(bytes: &[u8]) -> Option<Self>
        ensures { result ≡ reading.reads bytes.now };

    ghost lawful: { Lawful kind };

    ghost tested: { TestedBy kind Self.eq Self.cmp };

    ghost small: { (x : Self) → code x < code_limit };

    ghost readable: { Readable reading };

    ghost wide: { reading.width ≡ BYTES };
}

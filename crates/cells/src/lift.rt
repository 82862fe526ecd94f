ghost use Rattle.std.specs.Prelude.{◌≡◌};
ghost use Rattle.cells.specs.Lifts.{same_lift, before_lift, lift_code, lift_reads};
ghost use Rattle.std.proofs.Common.{rules};

use crate::cell::Cell;

/// Whether the warp thread lies below or above the weft.
#[derive(Clone, Copy, PartialEq, Eq, PartialOrd, Ord, Debug, Default)]
pub enum Lift {
    #[default]
    Sunk,
    Raised,
}

impl Cell for Lift {
    ghost kind = { record { same = same_lift; before = before_lift } };

    ghost code = { lift_code };

    ghost reading = { record { width = 1; reads = lift_reads } };

    const BYTES: usize = 1;

    ghost BYTES = { 1 };

    ghost lawful = { Prim.search rules };

    ghost tested = { Prim.search rules };

    ghost small = { Prim.search rules };

    ghost readable = { Prim.search rules };

    ghost wide = { Prim.search rules };

    fn code_of(self) -> u8 {
        match self {
            Lift::Sunk => 0,
            Lift::Raised => 1,
        }
    }

    fn read(bytes: &[u8]) -> Option<Lift> {
        let [byte] = bytes else {
            return None;
        };
        match *byte as char {
            '#' => Some(Lift::Raised),
            '.' => Some(Lift::Sunk),
            _ => None,
        }
    }
}

/// What the kind answers through its trait, said by the definitions of lifts alone.
// One such impl for each kind: a generic function could not name the kind's own definitions.
impl Lift {
    /// How many bytes a lift takes in a file.
    pub fn bytes() -> usize
        ensures { result ≡ 1 }
    {
        <Lift as Cell>::BYTES
    }

    /// Whether two lifts are equal.
    pub fn equals(self, other: Lift) -> bool
        ensures { result ≡ same_lift self other }
    {
        self == other
    }

    /// Whether this lift is before the other.
    pub fn precedes(self, other: Lift) -> bool
        ensures { result ≡ before_lift self other }
    {
        self < other
    }

    /// The code of the lift.
    pub fn code(self) -> u8
        ensures { result ≡ lift_code self }
    {
        self.code_of()
    }

    /// The lift that the bytes read as.
    pub fn parse(bytes: &[u8]) -> Option<Lift>
        ensures { result ≡ lift_reads bytes.now }
    {
        <Lift as Cell>::read(bytes)
    }
}

//! The kinds of levels.
ghost use Rattle.std.specs.Prelude.{◌≡◌, Decides};
ghost use Rattle.records.specs.Kinds.{kind_number};

/// What a level sorts by. Its discriminant is the number that stands for the kind in a sheet.
#[derive(Clone, Copy, Debug, PartialEq, Eq)]
pub enum Kind {
    /// Tiles of a tiling.
    Range = 1,
    /// Slots of a grid.
    Histogram = 2,
}

impl Kind {
    /// The number that stands for the kind in a sheet.
    pub fn number(self) -> u8
        ensures { result ≡ kind_number self }
    {
        self as u8
    }
}

#[cfg(test)]
mod tests {
    use super::*;

    // The derived `==` is equality.
    fn are_equal(a: Kind, b: Kind) -> bool
        ensures { Decides result (a ≡ b) }
    {
        a == b
    }

    #[test]
    fn kinds(rt: HostRuntime) {
        assert!(rt; are_equal(Kind::Range, Kind::Range));
        assert!(rt; !are_equal(Kind::Range, Kind::Histogram));
    }
}

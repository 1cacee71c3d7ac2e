//! The two sides of a pair.
ghost use Rattle.std.specs.Prelude.{◌≡◌};
ghost use Rattle.syn_model.specs.Which.{other};
ghost use Rattle.syn_path.specs.Sides.{which_of};

/// A side of a pair of replicas.
#[derive(Clone, Copy, Debug, PartialEq, Eq)]
pub enum Side {
    Left,
    Right,
}

impl Side {
    /// The side across.
    pub fn other(self) -> Side
        ensures { which_of result ≡ other (which_of self) }
    {
        match self {
            Side::Left => Side::Right,
            Side::Right => Side::Left,
        }
    }
}

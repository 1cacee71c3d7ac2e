//! Which path an event changed, and at which position. From these a trail tells whether a path was
//! touched.
ghost use Rattle.std.specs.Prelude.{◌≡◌};
ghost use Rattle.syn_model.specs.Path.{IsPath};

use std::marker::Model;
use syn_path::Path;

/// An event other than the begin of a session: its position, and the path that it changed.
#[derive(Debug, Drop)]
pub struct Touch {
    position: u64,
    path: Path,
}

impl Model for Touch {
    ghost use Rattle.syn_model.specs.Standing.{Touch as Touched};
    ghost use Rattle.syn_history.specs.Past.{coded_touch};

    ghost Value = { Touched };

    ghost coded = { coded_touch };

    ghost use Rattle.syn_model.specs.Path.{IsPath};

    ghost view = { λ t. record { position = t.position; path = t.path } };

    ghost invariant = { λ t. IsPath t.path };
}

impl Touch {
    /// The touch of the path by the event at the position.
    pub fn new(position: u64, path: Path) -> Touch
        ensures position { result.position ≡ position }
        ensures path { result.path ≡ path }
    {
        let _ = path.names();
        Touch { position, path }
    }

    /// The position of the event, from 0.
    pub fn position(&self) -> u64
        ensures position { result ≡ self.now.position }
        ensures lawful { IsPath self.now.path }
    {
        self.position
    }

    /// The path that the event changed.
    pub fn path(&self) -> &Path
        ensures { result.now ≡ self.now.path }
    {
        &self.path
    }
}

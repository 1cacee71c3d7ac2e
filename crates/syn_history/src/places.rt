//! What a trail tells of the event at a place.
ghost use Rattle.std.specs.Prelude.{◌≡◌, fold, option_map};
ghost use Rattle.syn_history.specs.Status.{last_place as place_of_last, path_at as path_of};
ghost use Rattle.syn_history.specs.Status.{place_for as place_wanted};

use crate::touch::Touch;
use crate::trail::Trail;
use syn_path::Path;

impl Trail {
    /// The position of the event that touched a path last; while none did, the greatest number.
    pub fn last_place(&self) -> u64
        ensures { result ≡ place_of_last self.now.touches }
    {
        let (older, newer) = self.touches();
        last_among(newer, last_among(older, u64::MAX))
    }

    /// The place that is asked about: the greatest number asks for the last touch.
    pub fn place_for(&self, asked: u64) -> u64
        ensures { result ≡ place_wanted self.now.touches asked }
    {
        if asked == u64::MAX {
            self.last_place()
        } else {
            asked
        }
    }

    /// The path that the event at the place touched; none where no such touch is kept.
    pub fn path_at(&self, place: u64) -> Option<&Path>
        ensures { option_map (λ path. path.now) result ≡ path_of self.now.touches place }
    {
        let (older, newer) = self.touches();
        match path_among(older, place) {
            Some(path) => Some(path),
            None => path_among(newer, place),
        }
    }
}

/// The position of the last of the touches; where there is none, the position before.
fn last_among(touches: &[Touch], before: u64) -> u64
    ensures { result ≡ fold (λ before touch. touch.position) before touches.now }
{
    match touches {
        [.., last] => last.position(),
        [] => before,
    }
}

/// The path of the first of the touches that is at the place.
fn path_among(touches: &[Touch], place: u64) -> Option<&Path>
    ensures { option_map (λ path. path.now) result ≡ path_of touches.now place }
{
    for touch in touches {
        if touch.position() == place {
            return Some(touch.path());
        }
    }
    None
}

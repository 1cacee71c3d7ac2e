//! The paths that a scanner handed out.
ghost use Rattle.std.specs.Prelude.{◌≡◌, not};
ghost use Rattle.std.specs.Ordering.{eq_by_cmp};
ghost use Rattle.syn_model.specs.Path.{path_cmp};
ghost use Rattle.syn_scan.specs.Asked.{is_out, without};

use std::cmp::Ordering;
use syn_path::Path;

/// The path is one of these.
pub(crate) fn is_among(paths: &[Path], path: &Path) -> bool
    ensures { result ≡ is_out paths.now path.now }
{
    paths.iter().any(|other| is_same(path, other))
}

/// Both are one path.
fn is_same(path: &Path, other: &Path) -> bool
    ensures { result ≡ eq_by_cmp path_cmp path.now other.now }
{
    path.cmp(other) == Ordering::Equal
}

/// They are two paths.
fn is_other(path: &Path, other: &Path) -> bool
    ensures { result ≡ not (eq_by_cmp path_cmp path.now other.now) }
{
    !is_same(path, other)
}

/// Takes the path out of these.
pub(crate) fn take_back(paths: &mut Vec<Path>, path: &Path)
    ensures { paths.new.items ≡ without paths.old.items path.now }
{
    paths.retain(|other| is_other(path, other));
}

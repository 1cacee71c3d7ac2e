//! What holds of images with payloads.
ghost use Rattle.syn_archive.specs.inner.Openings.{OneStands, KeptIsSpelled, KeptIsTold};
ghost use Rattle.syn_model.specs.ArchiveImage.{KeepingStaysSound};

use syn_image::image_laws;
use syn_mark::replacement_laws;
use syn_model::archive_laws;

/// An image and payloads stand for one archive of one pair at most.
pub(crate) fn opening_laws()
    ensures one { OneStands }
    ensures spelled { KeptIsSpelled }
    ensures told { KeptIsTold }
    ensures keeping { KeepingStaysSound }
{
    image_laws();
    archive_laws();
    replacement_laws();
}

//! What holds of images with payloads.
ghost use Rattle.syn_replica.specs.Readings.{OneIsGiven, AllowedIsSpelled, EventsAreTold};
ghost use Rattle.syn_replica.specs.Readings.{NotRefusedIsShort};

use syn_image::image_laws;
use syn_model::{history_laws, spelling_laws as tree_spelling_laws, tree_laws};
use syn_wire::spelling_laws;

/// An image and payloads give one standing of one pair at most.
pub fn opening_laws()
    ensures one { OneIsGiven }
    ensures spelled { AllowedIsSpelled }
    ensures short { NotRefusedIsShort }
    ensures told { EventsAreTold }
{
    spelling_laws();
    image_laws();
    tree_spelling_laws();
    history_laws();
    tree_laws();
}

ghost use Rattle.minterm.specs.Steps.{PlantingLaws};

use term_store::{planted_terms_stay, terms_of_places_stay};

/// The laws of planting, gathered from the store's.
pub fn planting_laws()
    ensures { PlantingLaws }
{
    planted_terms_stay();
    terms_of_places_stay();
}

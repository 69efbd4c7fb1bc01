//! What is predicted from parts is what a stub measures of the image that is built of them.

ghost use Rattle.stub_replay.specs.Laws.{PredictionIsReplay, ImageShowsItsParts, PredictionOfParts};
ghost use Rattle.stub_replay.specs.Ordered.{PredictionOfOrderedParts};

/// Where an image shows parts, the value that is predicted from them is the stub's value of the image: for
/// every image, bank and phase path.
pub fn prediction_is_replay()
    ensures { PredictionIsReplay }
{}

/// The finished image of a stub, parts and a new `.sbat` shows them: of each measured name the part that is
/// given, the `.sbat` that replaces the stub's, or else what the stub has.
pub fn image_shows_its_parts()
    ensures { ImageShowsItsParts }
{}

/// The value that is predicted from a stub and parts is the stub's value of the image that is built of them.
pub fn prediction_of_parts_is_replay()
    ensures { PredictionOfParts }
{}

/// Where parts stand in the order in which a stub measures them, each measured name once at most, what their items
/// fold to is the PCR 11 that is predicted from the bytes of each name: for every bank and phase path.
pub fn prediction_of_ordered_parts()
    ensures { PredictionOfOrderedParts }
{}

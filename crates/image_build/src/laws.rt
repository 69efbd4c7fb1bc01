//! The values of PCR 11 that are printed are those of a stub, and what words can mean isn't too much for an image.

ghost use Rattle.image_build.specs.Laws.{BuildsAreCountable, ValuesOfBuilds};

/// The values that a build prints are what a stub comes to that measures the bytes which stand at the output
/// afterwards.
pub fn built_values_are_the_stubs()
    ensures { ValuesOfBuilds }
{}

/// What is read of the words of a build is no more than an image's numbers hold: so many parts with bytes, so many
/// bytes, and an SBAT text of that length. So `plan_image_of` is out of memory only where there is none.
pub fn builds_are_countable()
    ensures { BuildsAreCountable }
{}

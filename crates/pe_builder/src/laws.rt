//! What holds of every finished image.

ghost use Rattle.pe_builder.specs.Laws.{ImageReads, ImageByPlace, ImageLoads, SizesAgree};

/// The finished image is again a PE32+ file, with the stub's sections and the new ones.
pub fn image_reads()
    ensures { ImageReads }
{}

/// The finished image has the stated length, and at each place the byte of a rewritten field, of the new `.sbat`, of
/// the stub or of a part, or zero where none of them stands.
pub fn image_by_place()
    ensures { ImageByPlace }
{}

/// The finished image has loaded of each name the new `.sbat` of that name, else what the stub has, else the first part
/// of that name.
pub fn image_loads()
    ensures { ImageLoads }
{}

/// SizeOfImage and SizeOfInitializedData, by which an image is refused, are those of the finished headers.
pub fn sizes_agree()
    ensures { SizesAgree }
{}

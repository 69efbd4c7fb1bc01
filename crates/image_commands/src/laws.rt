//! The values of PCR 11 that are printed are those of a stub, and what is printed as JSON is read as it is meant.

ghost use Rattle.image_commands.specs.Laws.{CalculationsReadBack, InspectionsReadBack, MeasurementsReadBack, PartsOfCalculations, ValuesOfCalculations};

/// The parts that a calculation measures have the names of the measured sections, in the order of measurement.
pub fn calculated_parts_are_the_measured_ones()
    ensures { PartsOfCalculations }
{}

/// The values that a calculation prints are what a stub comes to that measures any image that shows the given parts.
pub fn calculated_values_are_the_stubs()
    ensures { ValuesOfCalculations }
{}

/// What an inspection, a measurement or a calculation prints as JSON is UTF-8 and, read as JSON, has the value that is
/// meant: the sections of the image, or the values of PCR 11.
pub fn printed_json_reads_back()
    ensures inspections { InspectionsReadBack }
    ensures measurements { MeasurementsReadBack }
    ensures calculations { CalculationsReadBack }
{}

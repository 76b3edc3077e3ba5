//! The laws of written files.

ghost use Rattle.m161_elf_writer.specs.LabelsLaw.{LabelsAreListed, LoadsAlike};
ghost use Rattle.m161_elf_writer.specs.WrittenLaw.{WrittenHasFewFaults, WrittenIsLoaded};

/// If a program's file loads, its image has the program's entry and words.
pub fn written_is_loaded()
    ensures { WrittenIsLoaded }
{}

/// A program's file loads, unless a segment or the entry isn't in RAM.
pub fn written_has_few_faults()
    ensures { WrittenHasFewFaults }
{}

/// A program's file with symbols has the faults and the image of the file without them.
pub fn symbols_load_alike()
    ensures { LoadsAlike }
{}

/// The symbols of a program's file with symbols are its labels, in their order, as far as their
/// names have 1 to 255 visible bytes. It is so if there are fewer than 1,048,576 labels, the file is
/// below 4 GiB, and no name has a zero byte.
pub fn labels_are_listed()
    ensures { LabelsAreListed }
{}

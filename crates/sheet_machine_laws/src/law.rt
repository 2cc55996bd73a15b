// Laws of the machine.
ghost use Rattle.sheet_machine_laws.specs.Staying.{SoundStays, StartsAreSound};
ghost use Rattle.sheet_machine_laws.specs.Unchanged.{OnlyAcceptedChange, OnlyDisksFault};
ghost use Rattle.sheet_machine_laws.specs.Worked.{WorkedNumbers};

/// A request that isn't accepted leaves the book, the workbook, the callers and the count of accepted requests as they are.
pub fn only_accepted_change()
    ensures { OnlyAcceptedChange }
{}

/// No request comes to a fault of the disk by itself.
pub fn only_disks_fault()
    ensures { OnlyDisksFault }
{}

/// What is held at the start of a well-typed book is sound: a well-formed and filled workbook, and the operator.
pub fn starts_are_sound()
    ensures { StartsAreSound }
{}

/// It stays sound with each request in its ranges, whatever the reply. So the object of each caller was drawn, and where it is live it
/// is of the callers' column; and what is kept of each caller are its last 16 accepted requests, or all where they are fewer.
pub fn sound_stays()
    ensures { SoundStays }
{}

/// The numbers of an operator, on a small definition: accepted, answered again, another request with the same number, and one ahead.
pub fn worked_numbers()
    ensures { WorkedNumbers }
{}

// What it means that a count of faults rose. Each call does nothing: its contract is the law.
ghost use Rattle.file_ports.specs.Faults.{RisesAsSaid, StaysRisen};

/// A count rose exactly where it is greater than before, or stands at 2^64 - 1, where it can rise no more.
pub fn a_risen_count_is_greater_or_at_its_end()
    ensures { RisesAsSaid }
{}

/// A count that rose in a part of a run rose in the whole run, since a count never falls.
pub fn a_risen_count_stays_risen()
    ensures { StaysRisen }
{}

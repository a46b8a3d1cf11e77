//! Laws over what is written, each stated by a function's contract.

ghost use Rattle.planus_write.specs.InBuilder.{StaysIn, AllStayIn, AllUnionsStayIn};
ghost use Rattle.planus_write.specs.Standing.{KeptStays, ValuesAreKept, FinishesLead};
ghost use Rattle.planus_write.specs.Standing.{FinishesAreIdentified, EntriesArePut};
ghost use Rattle.planus_write.specs.Standing.{EntriesAreTooLarge, SizedFinishesStand};

/// An offset in a builder stays in it as it grows, and so do several, and the values of unions.
pub fn what_is_in_stays_in<T>()
    ensures one { StaysIn T }
    ensures all { AllStayIn T }
    ensures unions { AllUnionsStayIn T }
{}

/// What a call wrote is written in every history of the builder; where a part was too large, every
/// history comes to that.
pub fn entries_are_put()
    ensures put { EntriesArePut }
    ensures too_large { EntriesAreTooLarge }
{}

/// A value whose entries are written is encoded at its distances, if what was cached is stored and
/// its references lead into earlier bytes. It is aligned in all finished bytes that end in it, and
/// stays so.
pub fn written_values_are_kept()
    ensures kept { ValuesAreKept }
    ensures stays { KeptStays }
{}

/// A placed finish's reference leads to its root, if that is in earlier bytes, and the file
/// identifier follows.
pub fn placed_finishes_lead()
    ensures root { FinishesLead }
    ensures identifier { FinishesAreIdentified }
{}

/// The same of a size-prefixed finish, whose size is the number of bytes that follow it.
pub fn placed_sized_finishes_stand()
    ensures { SizedFinishesStand }
{}

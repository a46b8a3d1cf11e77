//! Laws over what is printed, each stated by a contract.

ghost use Rattle.planus_script.specs.Printed.{ATextIsPrinted, PrintedIsOne};

/// Each input determines what is printed, out of memory aside.
pub fn printed_is_one()
    ensures { PrintedIsOne }
{}

/// For each input something is printed, out of memory aside.
pub fn a_text_is_printed()
    ensures { ATextIsPrinted }
{}

// What holds of the journals of Apps.
ghost use Rattle.sheet_machine.specs.Crashes.{CrashesAreRecovered, TakenAreRecovered, AllStand, RecoveredAreOpened};

use sheet_define_reading::texts_stand_for_one_definition;
use sheet_journal::{a_record_cut_short_stands_in_no_journal, bytes_stand_for_one_list_of_records};

/// Whatever a crash leaves of a journal at a moment of some events is a journal of the records before them and of a front of the lines
/// that were taken, and perhaps of one more that was in doubt then. Something is recovered from it: what is held after these lines.
pub fn crashes_are_recovered()
    ensures { CrashesAreRecovered }
{}

/// What is held after some events is recovered from the records before them and those of all lines that were taken.
pub fn what_was_taken_is_recovered()
    ensures { TakenAreRecovered }
{}

/// Where the file of an App holds records, whatever a crash leaves of it is a journal of them all, and perhaps of that of the line in
/// doubt.
pub fn all_records_stand()
    ensures { AllStand }
{}

/// A journal of records from which something is recovered is opened with that, unless the disk fails or there is no memory.
pub fn what_is_recovered_is_opened()
    ensures { RecoveredAreOpened }
{
    texts_stand_for_one_definition();
    bytes_stand_for_one_list_of_records();
    a_record_cut_short_stands_in_no_journal();
}

//! The fate of a case that was answered `stored N`. This function does nothing.
ghost use Rattle.inspector_cli.specs.Kept.{AStopIsTakenUp, AReopeningIsTakenUp, ALineStoresACase, ALineLabelsACase, ASessionKeepsACase, AStoreStoresACase, AStoreLabelsACase, AStorePinsACase, AStoreKeepsACase};
ghost use Rattle.inspector_cli.specs.Stored.{AnOpeningIsQuiet, SessionsAreTold, StoredHasParts, StoredIsFound};

use disk_model::Disk;
use intake::{
    calls_lead_from_mark_to_mark, found_after_a_stop, kept_over_many_stops,
    the_next_number_is_above, what_calls_leave, what_stands_is_one,
};

/// A case that was answered `stored N`, and that no later line deletes or retires, is found after every stop with exactly
/// the bytes of its parts, over however many sessions: whenever the machine stops, in that session or in one of the later
/// ones, after the line, and however often an opening failed or was stopped itself, an opening of the bytes that are left
/// finds a case of that number whose image is those bytes. Such a case has parts: those between the line that began its
/// stream and the one that ended it. Each session that was answered, to its end or not, is one of these sessions.
pub fn a_stored_case_is_found<D: Disk>()
    ensures quiet { AnOpeningIsQuiet D.Disk }
    ensures told { SessionsAreTold D.Disk }
    ensures parts { StoredHasParts D.Disk }
    ensures found { StoredIsFound D.Disk }
{
    calls_lead_from_mark_to_mark::<D>();
    found_after_a_stop::<D>();
    kept_over_many_stops::<D>();
    what_calls_leave::<D>();
    what_stands_is_one();
}

/// A stored case is found after every stop, whichever command stored it and whichever came after: sessions (`run`, `ask`) and stores,
/// whose openings may be refused. It has the kind, the name and the facts with which its stream began, and its image is
/// the bytes that its stream was given. So it stays as long as no line takes it away, whether the machine stops or the process
/// ends or is killed, at any moment after the line, or the store, that was answered `stored N`. It keeps its label until a line gives it
/// another. A case whose pin was answered `ok` is pinned.
///
/// `stop` and `reopening` say how a command may follow another: the bytes that it reads, and those
/// that a later stop leaves of it, are bytes that a stop at a moment of the other could have left.
pub fn a_stored_case_is_kept<D: Disk>()
    ensures stop { AStopIsTakenUp D.Disk }
    ensures reopening { AReopeningIsTakenUp D.Disk }
    ensures line { ALineStoresACase D.Disk }
    ensures line_label { ALineLabelsACase D.Disk }
    ensures session { ASessionKeepsACase D.Disk }
    ensures store { AStoreStoresACase D.Disk }
    ensures store_label { AStoreLabelsACase D.Disk }
    ensures store_pin { AStorePinsACase D.Disk }
    ensures kept { AStoreKeepsACase D.Disk }
{
    the_next_number_is_above();
}

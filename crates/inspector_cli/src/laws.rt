//! Laws of every script and every session. These functions do nothing.
ghost use Rattle.inspector_cli.specs.Agreement.{LinesAgree, ScriptsAgree};
ghost use Rattle.inspector_cli.specs.Causes.{AReadFailed, AWriteFailed, ReadsWereMany, RefusedIsAnswered, StoredIsAnswered};
ghost use Rattle.inspector_cli.specs.Cuts.{HasOneCut, HasACut, HasOneFront};
ghost use Rattle.inspector_cli.specs.Fitting.{TheFirstGoes, AllArePinned, NoPinnedOneGoes};
ghost use Rattle.inspector_cli.specs.Headline.{SessionsAreCrashSafe};
ghost use Rattle.inspector_cli.specs.StoreHeadline.{StoresAreCrashSafe};
ghost use Rattle.inspector_cli.specs.Storing.{RetiresForAStreamAlone, RetiresUnlessRefused, RetiresNothingUnasked};
ghost use Rattle.inspector_cli.specs.Settled.{SettledSessionsAreSafe, SettledStoresAreSafe};
ghost use Rattle.inspector_cli.specs.Runs.{WholeIsARun, FrontIsARun, StagesAreClear, SessionsAreLived};

use disk_model::Disk;
use intake::{
    an_answer_is_one, calls_lead_from_mark_to_mark, found_after_a_stop, nothing_else_is_left,
    what_calls_leave,
};
use script_streams::lines_are_cut_one_way;

/// A script has one cut into lines, each with the bytes that it says follow it, and an ending; and every text has one. A
/// script that could not be read on has one cut into the commands that are whole in it and the rest after them.
pub fn a_script_has_one_cut()
    ensures one { HasOneCut }
    ensures some { HasACut }
    ensures front { HasOneFront }
{
    lines_are_cut_one_way();
}

/// The answers are a function of the script and of the contents of the archive: two archives with the same contents, whatever their
/// disks, give a script the same text, unless a reply is `no OutOfMemory` or `no Disk`, which any line may get. They have the same
/// contents after each line, too.
pub fn a_text_is_one<D: Disk, E: Disk>()
    ensures lines { LinesAgree D.Disk E.Disk }
    ensures scripts { ScriptsAgree D.Disk E.Disk }
{
    an_answer_is_one();
    a_script_has_one_cut();
}

/// The stages of a session are a run of marks, and from an opening of an honest disk on they are a life, wherever the machine
/// stops: so intake's laws of marks and lives hold of sessions. Nothing is in doubt at a stage, unless the archive is stopped
/// there or something was in doubt at the first.
pub fn sessions_are_runs<D: Disk>()
    ensures whole { WholeIsARun D.Disk }
    ensures front { FrontIsARun D.Disk }
    ensures clear { StagesAreClear D.Disk }
    ensures lives { SessionsAreLived D.Disk }
{
    calls_lead_from_mark_to_mark::<D>();
}

/// The headline, of each session from an opening on. Whenever the machine stops after a line has been answered, between two disk
/// writes or within one, the bytes that are left open as the contents of the archive then, or after a later line, or as those that a line
/// answered with `no Disk` would have left. Each line does its work, or is refused and changes nothing.
pub fn a_session_is_crash_safe<D: Disk>()
    ensures { SessionsAreCrashSafe D.Disk }
{
    what_calls_leave::<D>();
    nothing_else_is_left::<D>();
    sessions_are_runs::<D>();
}

/// The headline of each store from an opening on: the contents of the archive when cases are retired, when the case is stored, when it has
/// its label, and when it is pinned. The case is the stream that was begun, with all bytes of FILE as its image.
pub fn a_store_is_crash_safe<D: Disk>()
    ensures { StoresAreCrashSafe D.Disk }
{
    calls_lead_from_mark_to_mark::<D>();
    found_after_a_stop::<D>();
    nothing_else_is_left::<D>();
    what_calls_leave::<D>();
}

/// The headline from the moment on when a file's archive is settled (`case_journal::settle`), before it is opened: a session or a store begins with
/// the archive that reads gave before. A stop from then on leaves what a stop while the gates are written again may leave, or it opens as one of
/// the moments of the headline. Of the former, `settling_is_enough` of case_journal says which archive it is.
pub fn a_settled_archive_is_safe<D: Disk>()
    ensures sessions { SettledSessionsAreSafe D.Disk }
    ensures stores { SettledStoresAreSafe D.Disk }
{}

/// The case that goes if a stream finds no room: no pinned case, and if none goes, all cases are pinned. If the oldest go, it is the oldest core
/// before every other, and an executable only once all cores are pinned. The law of the fair ones is `the_heaviest_user_gives` of fair_share.
pub fn the_oldest_core_goes_first()
    ensures loose { NoPinnedOneGoes }
    ensures first { TheFirstGoes }
    ensures none { AllArePinned }
{}

/// `store_stream` retires no case in vain: over an archive as an opening answers it, the stream for which
/// cases were retired follows, and only a lack of memory keeps it from beginning; a policy that was asked
/// for is left out only if the stream is refused. If no policy is asked for, nothing is retired.
pub fn retiring_is_for_a_stream<D: Disk>()
    ensures begun { RetiresForAStreamAlone D.Disk }
    ensures left_out { RetiresUnlessRefused D.Disk }
    ensures unasked { RetiresNothingUnasked D.Disk }
{}

/// No session ends with a fault at will: with `ReadFailed` only if the input failed, with `TooManyReads` only if 2^40 bytes and more were read, one
/// at least by each read, and with `WriteFailed` only if the output failed.
pub fn a_fault_has_its_cause<D: Disk>()
    ensures read { AReadFailed D.Disk }
    ensures reads { ReadsWereMany D.Disk }
    ensures write { AWriteFailed D.Disk }
{}

/// A case is reported as stored only if the archive has answered with its number, and the whole reply is that answer's: nothing of it is told
/// before. The reply to a stream that is not stored is that of its refusal.
pub fn a_stored_case_was_answered<D: Disk>()
    ensures stored { StoredIsAnswered D.Disk }
    ensures refused { RefusedIsAnswered D.Disk }
{}

// Consequences of the clauses of a disk over several calls.
ghost use Rattle.std.specs.Prelude.{ℕ, List, [], ◌∷◌, IsTrue};
ghost use Rattle.disk_model.specs.Places.{SameOutside};
ghost use Rattle.disk_model.specs.Disk.{Follows, Only};
ghost use Rattle.disk_model.specs.Agree.{AllAgree};

use crate::Disk;

/// A law: on an honest disk each list that a crash may leave agrees with the last synced bytes outside the ranges that
/// were written since then, failed writes among them.
///
/// It holds after a sync that answered `Ok` (`synced`, by its clause `durable`), and stays through each write (`written`,
/// by its clause `crash`) and through each read and each sync (`kept`, by theirs).
pub fn agrees_outside_writes<D: Disk>()
    ensures synced { (d : D) (bytes : List ℕ) → Only bytes (D.may_leave d)
        → AllAgree [] bytes (D.may_leave d) }
    ensures written { (old new : D) (bytes : List ℕ) (ranges : _) (at n : ℕ)
        → AllAgree ranges bytes (D.may_leave old)
        → Follows (SameOutside at n) (D.may_leave old) (D.may_leave new)
        → AllAgree (record { at = at; size = n } ∷ ranges) bytes (D.may_leave new) }
    ensures kept { (old new : D) (bytes : List ℕ) (ranges : _)
        → AllAgree ranges bytes (D.may_leave old)
        → ((c : List ℕ) → D.may_leave new c → D.may_leave old c)
        → AllAgree ranges bytes (D.may_leave new) }
{}

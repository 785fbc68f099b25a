// The disk that the calls of a file describe.
ghost use Rattle.std.specs.Prelude.{◌≡◌, ℕ, List, ◌∷◌, length, Result, is_ok};
ghost use Rattle.disk_model.specs.declared.disk.DiskFault.{DiskFault};
ghost use Rattle.disk_model.specs.Backing.{IsFetched, IsPut, IsSynced};
ghost use Rattle.disk_model.specs.GatheringLaws.{Laws};
ghost use Rattle.disk_model.specs.Calls.{Story, Told, told, read, wrote, synced};

/// A law: honest calls of a file are those of a disk. If each read that succeeded gave the bytes that the file has by the
/// calls before it (`IsHonest`), the bytes, the outcomes of a crash and the moments that the calls describe (`told`) keep
/// to the laws of a disk (`laws`), and each call keeps to the clauses of a disk that `Gathering` may use.
pub fn honest_calls_tell_of_a_disk()
    ensures laws { (story : Story) → Laws (told story) }
    ensures read { (story : Story) (old new : Told story) (r : Result (Unit {0}) DiskFault) (at n : ℕ) (bytes : List ℕ)
        → length bytes ≡ n → new.calls ≡ read at (is_ok r) bytes ∷ old.calls → IsFetched (told story) r at n bytes old new }
    ensures wrote { (story : Story) (old new : Told story) (r : Result (Unit {0}) DiskFault) (at : ℕ) (bytes : List ℕ)
        → new.calls ≡ wrote at (is_ok r) bytes ∷ old.calls → IsPut (told story) r at bytes old new }
    ensures synced { (story : Story) (old new : Told story) (r : Result (Unit {0}) DiskFault)
        → new.calls ≡ synced (is_ok r) ∷ old.calls → IsSynced (told story) r old new }
{}

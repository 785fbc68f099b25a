// A disk that fails from some call on.
ghost use Rattle.std.specs.Prelude.{◌≡◌, ◌<◌, ◌↔◌, ℕ, List};
ghost use Rattle.disk_model.specs.Faulty.{faulty_inner, faulty_calls, fuse_limit};

use crate::{Disk, Faulty, Plan};

/// The plan that passes a number of calls and fails all later ones.
#[derive(Clone, Copy, Debug)]
pub struct Limit {
    limit: u64,
}

/// A disk that passes a number of calls (reads, writes, syncs) to the one within, and fails all later ones.
pub type Fuse<D> = Faulty<D, Limit>;

impl Plan for Limit {
    ghost passes = { λ p calls. calls < p.limit };

    fn admits(&self, calls: u64) -> bool {
        calls < self.limit
    }
}

impl<D: Disk> Faulty<D, Limit> {
    /// Passes `limit` calls and fails all later ones.
    pub fn new(inner: D, limit: u64) -> Faulty<D, Limit>
        ensures inner { faulty_inner result ≡ inner }
        ensures limit { fuse_limit result ≡ limit }
        ensures calls { faulty_calls result ≡ 0 }
        ensures honest { ⟦<Faulty<D, Limit> as Disk>⟧.is_honest result ≡ D.is_honest inner }
        ensures size { ⟦<Faulty<D, Limit> as Disk>⟧.size result ≡ D.size inner }
        ensures seen { ⟦<Faulty<D, Limit> as Disk>⟧.seen result ≡ D.seen inner }
        ensures crash { (c : List ℕ) →
            ⟦<Faulty<D, Limit> as Disk>⟧.may_leave result c ↔ D.may_leave inner c }
    {
        Faulty::planned(inner, Limit { limit })
    }
}

// A disk that fails in one call.
ghost use Rattle.std.specs.Prelude.{◌≡◌, ◌≢◌, ◌+◌, ◌↔◌, ℕ, List};
ghost use Rattle.disk_model.specs.Faulty.{faulty_inner, faulty_calls, fault_at};

use crate::{Disk, Faulty, Plan};

/// The plan that fails one call, counted from 1, and passes all others.
#[derive(Clone, Copy, Debug)]
pub struct OneCall {
    at: u64,
}

/// A disk that fails one call (a read, a write or a sync) and passes all others to the one within.
pub type OneFault<D> = Faulty<D, OneCall>;

impl Plan for OneCall {
    ghost passes = { λ p calls. calls + 1 ≢ p.at };

    fn admits(&self, calls: u64) -> bool {
        self.at == 0 || self.at - 1 != calls
    }
}

impl<D: Disk> Faulty<D, OneCall> {
    /// Fails call `at` alone, counted from 1; with 0 it fails none.
    pub fn new(inner: D, at: u64) -> Faulty<D, OneCall>
        ensures inner { faulty_inner result ≡ inner }
        ensures at { fault_at result ≡ at }
        ensures calls { faulty_calls result ≡ 0 }
        ensures honest { ⟦<Faulty<D, OneCall> as Disk>⟧.is_honest result ≡ D.is_honest inner }
        ensures size { ⟦<Faulty<D, OneCall> as Disk>⟧.size result ≡ D.size inner }
        ensures seen { ⟦<Faulty<D, OneCall> as Disk>⟧.seen result ≡ D.seen inner }
        ensures crash { (c : List ℕ) →
            ⟦<Faulty<D, OneCall> as Disk>⟧.may_leave result c ↔ D.may_leave inner c }
    {
        Faulty::planned(inner, OneCall { at })
    }
}

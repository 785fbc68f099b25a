//! The meaning of the rule in other words.
ghost use Rattle.std.specs.Prelude.{◌≡◌, ℕ, List, [], take, drop, filter};
ghost use Rattle.retention.specs.Rule.{is_pinned, is_old, is_spare, goes, stays, IsOneDecision};
ghost use Rattle.retention.specs.declared.Brief.{Brief};
ghost use Rattle.retention.specs.declared.Policy.{Policy};

/// All old cases are dropped, of the spare ones the first, as many as are to be, and no pinned one. The others stay. In
/// both the cases keep their order.
pub fn what_goes_and_what_stays()
    ensures old_go { (policy : Policy) (n : ℕ) (cases : List Brief)
        → filter (is_old policy) (goes policy n cases) ≡ filter (is_old policy) cases }
    ensures spare_go { (policy : Policy) (n : ℕ) (cases : List Brief)
        → filter (is_spare policy) (goes policy n cases) ≡ take n (filter (is_spare policy) cases) }
    ensures pinned_go { (policy : Policy) (n : ℕ) (cases : List Brief)
        → filter is_pinned (goes policy n cases) ≡ [] }
    ensures old_stay { (policy : Policy) (n : ℕ) (cases : List Brief)
        → filter (is_old policy) (stays policy n cases) ≡ [] }
    ensures spare_stay { (policy : Policy) (n : ℕ) (cases : List Brief)
        → filter (is_spare policy) (stays policy n cases) ≡ drop n (filter (is_spare policy) cases) }
    ensures pinned_stay { (policy : Policy) (n : ℕ) (cases : List Brief)
        → filter is_pinned (stays policy n cases) ≡ filter is_pinned cases }
{}

/// The rule says one thing: two decisions by one policy for the same cases drop the same.
pub fn a_decision_is_one()
    ensures { IsOneDecision }
{}

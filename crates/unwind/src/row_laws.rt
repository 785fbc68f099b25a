// Consequences of the definitions that the contracts cite.
ghost use Rattle.std.specs.Prelude.{◌≡◌, ◌≤◌, ◌<◌, ℕ, IfSome};
ghost use Rattle.call_frames.specs.Entry.{EntryView};
ghost use Rattle.unwind.specs.Execution.{row_of};
ghost use Rattle.unwind.specs.Locations.{row_end};

/// The row of an address is that of each address after it, up to the location that ended its execution, or up to any if
/// none did. It does nothing.
pub fn a_row_lasts_to_the_next_location()
    ensures { (e : EntryView) (v : ℕ) (w : ℕ) → v ≤ w → IfSome (row_end e v) (λ l. w < l) → row_of e w ≡ row_of e v }
{}

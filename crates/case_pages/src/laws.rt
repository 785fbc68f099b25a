//! Laws of the plot of a page, whatever the times are. These functions do nothing.
ghost use Rattle.std.specs.Prelude.{◌≡◌, ℕ, List, filter, length};
ghost use Rattle.std.specs.List.{sum};
ghost use Rattle.case_pages.specs.Bars.{bars, is_among};

/// Each time that is among those of the bars is counted in one bar: the bars have as many cores as there are such times.
pub fn each_time_is_in_one_bar()
    ensures { (step first n : ℕ) (ts : List ℕ) → sum (bars step first n ts) ≡ length (filter (is_among step first n) ts) }
{}

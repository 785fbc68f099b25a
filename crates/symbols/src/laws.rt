// Consequences of the definitions that the contracts cite.
ghost use Rattle.std.specs.Prelude.{◌≡◌, ◌≢◌, ◌+◌, ◌≤◌, ◌<◌, ℕ, List, Contains, IsTrue, MatchOption, Some};
ghost use Rattle.symbols.specs.Covering.{covers, named, IsNamed, IsUnnamed};
ghost use Rattle.symbols.specs.Entry.{functions_of};
ghost use Rattle.symbols.specs.Names.{SymbolView, symbol_named};
ghost use Rattle.symbols.specs.declared.functions.Function as numbers;

/// The function that an address is named by covers it, and no function that covers it comes before that one; if no
/// function is named, none covers it. Of the functions of one table only one can be named. This function does nothing.
pub fn the_nearest_covering_function_is_named()
    ensures named { (v : ℕ) (fs : List numbers.Function)
        → MatchOption (named v fs) (IsUnnamed v fs) (λ f. IsNamed v fs f) }
    ensures only { (table : List ℕ) (v : ℕ) (f g : numbers.Function)
        → IsNamed v (functions_of table) f → IsNamed v (functions_of table) g → f ≡ g }
{}

/// The nearest symbol below an address is not enough: none gives an address its name that ended before it, and none
/// that is below another one which covers the address. This function does nothing.
pub fn no_function_is_named_past_its_end()
    ensures ended { (strings : List ℕ) (fs : List numbers.Function) (v : ℕ) (s : SymbolView)
        → s.value < v → s.value + s.size ≤ v → symbol_named strings fs v ≢ Some s }
    ensures below { (strings : List ℕ) (fs : List numbers.Function) (v : ℕ) (f : numbers.Function) (s : SymbolView)
        → Contains fs f → IsTrue (covers v f) → s.value < f.value → symbol_named strings fs v ≢ Some s }
{}

// Laws of the definitions that the contracts cite.
ghost use Rattle.std.specs.Prelude.{◌≡◌, ◌<◌, ◌^◌, ◌++◌, ℕ, List, Some};
ghost use Rattle.call_frames.specs.Grammar.{IsLeb, IsUnsigned, IsWalk};
ghost use Rattle.call_frames.specs.Leb.{groups, uleb};
ghost use Rattle.call_frames.specs.Walk.{spots_of};
ghost use Rattle.call_frames.specs.declared.spots.Spot as numbers;

/// The ULEB128 that is read at the front of some bytes is the one whose bytes are there, and each that is there is read, if
/// it is below 2^64. This function does nothing.
pub fn a_number_is_its_groups()
    ensures found { (bytes : List ℕ) (n : ℕ) (rest : List ℕ) → uleb bytes ≡ Some (n, rest) → IsUnsigned bytes n rest }
    ensures only { (text : List ℕ) (rest : List ℕ) → IsLeb text → groups text < 2 ^ 64
        → uleb (text ++ rest) ≡ Some (groups text, rest) }
{}

/// The entries of a table follow one another, from its first byte on up to the end of the walk, and there is no other such
/// list. This function does nothing.
pub fn the_entries_are_the_walk()
    ensures walk { (bytes : List ℕ) → IsWalk bytes 0 0 (spots_of bytes) }
    ensures only { (bytes : List ℕ) (spots : List numbers.Spot) → IsWalk bytes 0 0 spots → spots ≡ spots_of bytes }
{}

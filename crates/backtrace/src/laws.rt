// Consequences of the definitions that the contracts cite.
ghost use Rattle.std.specs.Prelude.{◌≡◌, ◌∷◌, ℕ, List, None};
ghost use Rattle.backtrace.specs.Chain as spec;
ghost use Rattle.backtrace.specs.declared.frames.Frame as numbers;
ghost use Rattle.backtrace.specs.declared.frames.Stop as stops;

/// The frames from a pc and a frame pointer on are a chain, the one that there is. It does nothing.
pub fn the_frames_are_the_chain()
    ensures found { (m : spec.Memory) (pc fp : ℕ) → (behind : List numbers.Frame)
        × (spec.chain m pc fp ≡ spec.first_frame pc fp ∷ behind)
        × spec.IsChainFrom m None (spec.first_frame pc fp) behind (spec.stop_of m pc fp) }
    ensures only { (m : spec.Memory) (pc fp : ℕ) (behind : List numbers.Frame) (stop : stops.Stop)
        → spec.IsChainFrom m None (spec.first_frame pc fp) behind stop
        → (spec.chain m pc fp ≡ spec.first_frame pc fp ∷ behind) × (spec.stop_of m pc fp ≡ stop) }
{}

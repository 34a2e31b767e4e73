// What the workers ask of a body.
ghost use Rattle.std.specs.Prelude.{ℕ};
ghost use Rattle.dispatcher.specs.Naming.{NamesEach};

use lane_core::turning::Turning;

/// A body that tells which islands are to be woken. `informs` says that between two moments it told the island of that number something.
pub trait Waking: Turning {
    ghost informs: { Self → Self → ℕ → Type 0 };

    /// The islands to which its last turn had something to tell: an ask, a cancel, an item or an end; each once, and no other. By place
    /// of their bodies. It takes no memory.
    fn wakes(&self) -> &[u32]
        ensures names { (old : Self) → Self.tells old self.now → NamesEach (informs old self.now) result.now };
}

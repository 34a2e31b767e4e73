// The receipt of a blueprint's run.
ghost use Rattle.std.specs.Prelude.{◌≡◌};

// Choice: docs/DECISIONS.md#receipt-of-islands
/// The receipt of a run of a blueprint's islands, which `run` alone makes.
#[derive(Clone, Copy)]
pub struct Ran {
    pub(crate) workers: u32,
    pub(crate) islands: u32,
    pub(crate) used: u32,
    pub(crate) more: bool,
}

impl Ran {
    /// How many workers the run was given.
    pub fn workers(&self) -> u32
        ensures { result ≡ self.now.workers }
    {
        self.workers
    }

    /// How many islands took turns.
    pub fn islands(&self) -> u32
        ensures { result ≡ self.now.islands }
    {
        self.islands
    }

    /// The units that all turns used.
    pub fn used(&self) -> u32
        ensures { result ≡ self.now.used }
    {
        self.used
    }

    /// Whether an event is left, for which the budget had no unit.
    pub fn more(&self) -> bool
        ensures { result ≡ self.now.more }
    {
        self.more
    }
}

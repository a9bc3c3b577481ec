ghost use Rattle.std.specs.Prelude.{◌≡◌, ◌==◌, ◌+◌, ◌-◌, ◌^◌, min};
ghost use Rattle.std.specs.List.{list_any};

/// Which calls of an implementation in memory fail. The first call has number 0.
#[derive(Drop)]
pub(crate) struct Calls {
    taken: u64,
    failing: Vec<u64>,
}

impl Calls {
    pub(crate) fn new(failing: Vec<u64>) -> Self
        ensures { result ≡ record { taken = 0; failing = failing } }
    {
        Calls { taken: 0, failing }
    }

    /// Counts one more call, and says whether it is to fail.
    pub(crate) fn next_fails(&mut self) -> bool
        ensures listed { result ≡ list_any (λ number. number == self.old.taken) self.old.failing.items }
        ensures counted { self.new ≡ record self.old { taken = min (self.old.taken + 1) (2 ^ 64 - 1) } }
    {
        let number = self.taken;
        self.taken = number.saturating_add(1);
        self.failing.contains(&number)
    }
}

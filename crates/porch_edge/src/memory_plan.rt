//! Which calls of a disk in memory fail, and at which one it stops.
ghost use Rattle.std.specs.Prelude.{◌≡◌};
ghost use Rattle.porch_edge.specs.Plan.{is_over, next_fate, plan_after, plan_to_fail, plan_to_stop};

/// What a crash leaves of what is pending.
#[derive(Clone, Copy, Debug, PartialEq, Eq)]
pub enum Pick {
    /// What the last sync of each file left.
    Old,
    /// All pending writes.
    New,
    /// The lengths of `New`, and this byte in every pending place.
    Fill(u8),
}

/// A crash in the call with this number, and what it leaves.
#[derive(Clone, Copy, Debug, PartialEq, Eq)]
pub struct Stop {
    /// The number of the call, from 1.
    pub call: u64,
    /// What the crash leaves.
    pub pick: Pick,
}

/// What comes of a call.
#[derive(Clone, Copy)]
pub enum Fate {
    /// It is made.
    Goes,
    /// It fails without effect.
    Fails,
    /// It takes effect and fails, as does every later call.
    Stops,
}

/// The calls that are to fail, by their numbers from 1.
#[derive(Clone, Copy)]
pub struct Plan {
    /// How many calls were made, up to its last value.
    pub made: u64,
    /// The call that fails.
    pub fail: Option<u64>,
    /// The call in which the disk stops.
    pub stop: Option<Stop>,
    /// What the crash leaves, once the disk has stopped.
    pub stopped: Option<Pick>,
}

impl Plan {
    /// No call was made, and none is to fail.
    pub fn new() -> Plan
        ensures { result ≡ record { made = 0; fail = None; stop = None; stopped = None } }
    {
        Plan {
            made: 0,
            fail: None,
            stop: None,
            stopped: None,
        }
    }

    // Whether a call with this number won't come any more.
    fn is_over(&self, call: u64) -> bool
        ensures { result ≡ is_over self.now call }
    {
        self.stopped.is_some() || call <= self.made
    }

    /// Makes that call fail.
    pub fn fail_at(&mut self, call: u64)
        ensures { self.new ≡ plan_to_fail self.old call }
    {
        if !self.is_over(call) {
            self.fail = Some(call);
        }
    }

    /// Makes the disk stop in that call.
    pub fn stop_at(&mut self, stop: Stop)
        ensures { self.new ≡ plan_to_stop self.old stop }
    {
        if !self.is_over(stop.call) {
            self.stop = Some(stop);
        }
    }

    /// One call more, and what comes of it.
    pub fn begin(&mut self) -> Fate
        ensures fate { result ≡ next_fate self.old }
        ensures plan { self.new ≡ plan_after self.old }
    {
        self.made = self.made.saturating_add(1);
        if self.stopped.is_some() {
            return Fate::Fails;
        }
        if let Some(stop) = self.stop {
            if stop.call == self.made {
                self.stopped = Some(stop.pick);
                return Fate::Stops;
            }
        }
        if let Some(call) = self.fail {
            if call == self.made {
                return Fate::Fails;
            }
        }
        Fate::Goes
    }
}

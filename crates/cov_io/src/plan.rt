ghost use Rattle.std.specs.Prelude.{◌≡◌, [], ◌&&◌, ◌==◌};
ghost use Rattle.std.specs.List.{list_any};
ghost use Rattle.cov_io.specs.Plan.{count_of, counted, same_call, is_named};

use crate::fail::{Call, Fail};
use crate::faults::raised;
use std::marker::Model;

// The calls that are to fail, and how many there were of each kind.
#[derive(Drop)]
pub(crate) struct Plan {
    fails: Vec<Fail>,
    opened: u64,
    read: u64,
    created: u64,
    written: u64,
    closed: u64,
}

impl Model for Plan {
    ghost use Rattle.cov_io.specs.Plan.{Planned};

    ghost Value = { Planned };

    ghost view = { λ p. record { fails = p.fails.items; opened = p.opened; read = p.read; created = p.created; written = p.written; closed = p.closed } };
}

impl Call {
    fn is(self, other: Call) -> bool
        ensures { result ≡ same_call self other }
    {
        self == other
    }
}

impl Plan {
    pub(crate) fn new(fails: Vec<Fail>) -> Plan
        ensures { result ≡ record { fails = fails.items; opened = 0; read = 0; created = 0; written = 0; closed = 0 } }
    {
        Plan {
            fails,
            opened: 0,
            read: 0,
            created: 0,
            written: 0,
            closed: 0,
        }
    }

    fn count_of(&self, call: Call) -> u64
        ensures { result ≡ count_of self.now call }
    {
        match call {
            Call::OpenInput => self.opened,
            Call::Read => self.read,
            Call::Create => self.created,
            Call::Write => self.written,
            Call::Close => self.closed,
        }
    }

    fn count(&mut self, call: Call)
        ensures { self.new ≡ counted self.old call }
    {
        match call {
            Call::OpenInput => self.opened = raised(self.opened),
            Call::Read => self.read = raised(self.read),
            Call::Create => self.created = raised(self.created),
            Call::Write => self.written = raised(self.written),
            Call::Close => self.closed = raised(self.closed),
        }
    }

    // Counts the next call of this kind, and answers whether it is to fail.
    pub(crate) fn next(&mut self, call: Call) -> bool
        ensures named { result ≡ is_named self.old call }
        ensures counted { self.new ≡ counted self.old call }
    {
        let count = self.count_of(call);
        self.count(call);
        self.fails
            .iter()
            .any(|fail| fail.call.is(call) && u64::from(fail.nth) == count)
    }
}

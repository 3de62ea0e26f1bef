// The log of a machine.
ghost use Rattle.std.specs.Prelude.{◌≡◌, map, length};
ghost use Rattle.std.specs.List.{slice_get};
ghost use Rattle.evaluation.specs.Flight.{lookups};
ghost use Rattle.flight.specs.Tables.{tables};
ghost use Rattle.flight.specs.Means.{entry_of};

use super::{Entry, Event, Machine};

impl Machine {
    pub(crate) fn log_len(&self) -> usize
        ensures { result ≡ length (tables self.now).log }
    {
        self.log.len()
    }

    pub(crate) fn entry(&self, at: usize) -> Option<Entry>
        ensures { result ≡ slice_get (tables self.now).log at }
    {
        self.log.get(at).copied()
    }

    // How often a binding was looked up.
    pub(crate) fn lookups(&self, binding: u16) -> u16
        ensures { result ≡ lookups binding (map entry_of (tables self.now).log) }
    {
        self.log
            .iter()
            .filter(|e| e.event == Event::Lookup && binding == e.binding)
            .count() as u16
    }
}

//! A ring of stations.
ghost use Rattle.std.specs.Prelude.{◌≡◌, ◌<◌, ◌≤◌, MatchOption};
ghost use Rattle.omega.specs.Automata.{most_states, most_signals};
ghost use Rattle.kinds.specs.Rings.{behind, ring, ring_sound};

use automaton::{Automaton, MOST_SIGNALS, MOST_STATES};

/// Stations in a ring: every letter leads on to the next one, the first is the start, and the last is good.
#[derive(Clone, Copy)]
pub struct Ring {
    stations: u32,
    signals: u32,
    ghost few: { stations ≤ most_states },
    ghost narrow: { signals ≤ most_signals },
}

impl Ring {
    /// A ring of so many stations and signals; none above 65,536 and 4.
    pub fn new(stations: u32, signals: u32) -> Option<Ring>
        ensures { MatchOption result (stations ≤ most_states → signals ≤ most_signals → ⊥) (λ x. (x.stations ≡ stations) × (x.signals ≡ signals)) }
    {
        if stations <= MOST_STATES && signals <= MOST_SIGNALS {
            Some(Ring { stations, signals })
        } else {
            None
        }
    }

    /// The station behind `s`, which is one.
    fn behind(&self, s: u32) -> u32
        requires { s < self.now.stations }
        ensures is { result ≡ behind self.now.stations s }
        ensures within { result < self.now.stations }
    {
        if s + 1 < self.stations { s + 1 } else { 0 }
    }
}

impl Automaton for Ring {
    ghost meaning = { λ x. ring x.stations x.signals };

    ghost sound = { λ x. ring_sound x.stations x.signals x.few x.narrow };

    fn states(&self) -> u32 {
        self.stations
    }

    fn signals(&self) -> u32 {
        self.signals
    }

    fn is_start(&self, s: u32) -> bool {
        s < self.stations && s == 0
    }

    fn is_good(&self, s: u32) -> bool {
        s < self.stations && s + 1 == self.stations
    }

    fn next(&self, s: u32, a: u32, f: u32) -> Option<u32> {
        if s >= self.stations || a >= 1 << self.signals {
            return None;
        }
        let t = self.behind(s);
        (f <= t).then_some(t)
    }
}

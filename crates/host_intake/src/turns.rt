//! How a session ends.
ghost use Rattle.std.specs.Prelude.{◌≡◌, ◌+◌, [], ◌∷◌, ◌++◌, None, length, IsTrue};
ghost use Rattle.host_log.specs.History.{Adds};
ghost use Rattle.host_turn.specs.Seats.{number};
ghost use Rattle.host_intake.specs.declared.entry.IntakeEntry.TheVariants.{Turned};
ghost use Rattle.host_intake.specs.declared.entry.Phase.TheVariants.{Running, Draining, Aborted};
ghost use Rattle.host_intake.specs.declared.entry.Phase.TheVariants.{Closed};
ghost use Rattle.host_intake.specs.Entries.{maker_of};
ghost use Rattle.host_intake.specs.Told.{flights_in, is_ending, kept_slips, phase_in};

use crate::entry::Phase;
use crate::intake::Intake;

impl Intake {
    /// All records that were sent will be taken.
    pub fn drain(&mut self, hand: u32)
        requires phase { phase_in self.old.entries ≡ Running }
        requires client { hand + 1 ≡ number self.old.memory_seat }
        ensures entry { self.new
            ≡ record self.old { entries = self.old.entries ++ Turned hand Draining ∷ [] } }
        ensures adds { Adds maker_of hand self.old.entries self.new.entries }
    {
        self.ledger.turn(hand, Phase::Draining);
    }

    /// No more records are taken, and no answer is handed on. The envelope that is held and the
    /// answers kept are dropped.
    pub fn abort(&mut self, hand: u32)
        requires phase { phase_in self.old.entries ≡ Running }
        requires client { hand + 1 ≡ number self.old.memory_seat }
        ensures entry { self.new
            ≡ record self.old
            { entries = self.old.entries ++ Turned hand Aborted ∷ []; held = None } }
        ensures kept { kept_slips self.new.entries ≡ [] }
        ensures adds { Adds maker_of hand self.old.entries self.new.entries }
    {
        self.held = None;
        self.ledger.abort(hand);
    }

    /// The session is closed.
    pub fn shut(&mut self, hand: u32)
        requires phase { IsTrue (is_ending (phase_in self.old.entries)) }
        requires none { (flights_in self.old.entries ≡ 0)
            × (length (kept_slips self.old.entries) ≡ 0) }
        requires client { hand + 1 ≡ number self.old.memory_seat }
        ensures entry { self.new
            ≡ record self.old { entries = self.old.entries ++ Turned hand Closed ∷ [] } }
        ensures adds { Adds maker_of hand self.old.entries self.new.entries }
    {
        self.ledger.turn(hand, Phase::Closed);
    }
}

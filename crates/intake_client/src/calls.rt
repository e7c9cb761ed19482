//! What the client and the hand do.
ghost use Rattle.std.specs.Prelude.{◌≡◌, None};
ghost use Rattle.intake_client.specs.Flights.{Flies, FliesIfAny, IsOtherThan};
ghost use Rattle.intake_client.specs.Takes.{IsBeside, IsTaken};

use crate::bench::Bench;
use crate::flight::Flight;
use crate::landing::{land_flight, land_waiting};
use crate::opening::RECORDS;
use crate::step::Step;
use crate::taken::Taken;
use crate::taking::take;
use host_intake::Phase;
use host_model::TakenRows;
use host_record::{Request, Response};
use host_rings::Envelope;
use std::sync::Wait;

impl Bench {
    /// The client sends a record. It tells whether it was sent.
    pub fn send<R: Wait>(&mut self, rt: &R, request: &Request) -> bool {
        if self.sent >= RECORDS {
            return false;
        }
        let envelope = Envelope {
            bytes: request.to_bytes(),
            index: self.sent,
            device_front: 0,
            memory_front: self.front,
        };
        let Ok(()) = self.sender.push(rt, envelope) else {
            return false;
        };
        self.sent += 1;
        true
    }

    // The hand takes the next record.
    fn take_next<R: Wait>(&mut self, rt: &R) -> Taken
        ensures taken { IsTaken 0 self.old.intake self.new.intake result }
        ensures beside { IsBeside self.new.flight result }
    {
        take(
            rt,
            0,
            &mut self.intake,
            &self.memory,
            &mut self.hand,
            &self.cells,
        )
    }

    // A record flies from now on, in place of the one that flew before.
    fn let_fly(&mut self, flight: Flight)
        requires { Flies 0 self.old.intake flight }
    {
        self.flight = Some(flight);
    }

    // The record that flies; no other does then.
    fn take_flight(&mut self) -> Option<Flight>
        ensures flies { FliesIfAny 0 self.new.intake result }
        ensures none { self.new.flight ≡ None }
    {
        self.flight.take()
    }

    // The hand ends a record, beside the one that goes on flying.
    fn end_beside(&mut self, flight: Flight) -> bool
        requires flies { Flies 0 self.old.intake flight }
        requires other { IsOtherThan flight.envelope.index self.old.flight }
    {
        land_flight(0, &mut self.intake, &self.cells, flight)
    }

    /// Takes the next record and lets it fly, in place of the one that flew before.
    pub fn start<R: Wait>(&mut self, rt: &R) -> Step {
        match self.take_next(rt) {
            Taken::Flying(flight) => {
                let status = flight.status;
                self.let_fly(flight);
                Step::Taken(status)
            }
            other => Step::of(&other),
        }
    }

    /// Takes the next record and ends it at once.
    pub fn carry_out<R: Wait>(&mut self, rt: &R) -> Step {
        match self.take_next(rt) {
            Taken::Flying(flight) => {
                let status = flight.status;
                self.end_beside(flight);
                Step::Taken(status)
            }
            other => Step::of(&other),
        }
    }

    /// Ends the record that flies. It tells whether this made an answer due.
    pub fn end(&mut self) -> Option<bool> {
        match self.take_flight() {
            Some(flight) => Some(self.end_beside(flight)),
            None => None,
        }
    }

    /// Ends the close of that index, if it waits. It tells whether this made an answer due.
    pub fn end_waiting(&mut self, index: u32) -> Option<bool> {
        land_waiting(0, &mut self.intake, &self.cells, index)
    }

    /// The client gets the oldest answer kept.
    pub fn receive(&mut self) -> Option<Response> {
        let slip = self.intake.next_kept()?;
        self.intake.passed(0);
        Response::from_bytes(&slip.bytes)
    }

    /// The client ends the session, if it runs.
    pub fn abort(&mut self) -> bool {
        let Phase::Running = self.intake.phase() else {
            return false;
        };
        self.intake.abort(1);
        true
    }

    /// The client closes the session that it ended, if nothing is in flight or kept.
    pub fn shut(&mut self) -> bool {
        let (Phase::Draining | Phase::Aborted) = self.intake.phase() else {
            return false;
        };
        if self.intake.flights() > 0 || self.intake.kept() > 0 {
            return false;
        }
        self.intake.shut(1);
        true
    }

    /// How many records were taken, are in flight, and have their answer kept.
    pub fn counts(&self) -> (u32, u32, u32) {
        (
            self.intake.taken(),
            self.intake.flights(),
            self.intake.kept(),
        )
    }

    /// The rows of a session that is closed.
    pub fn into_rows(self) -> Option<TakenRows> {
        let Bench { intake, .. } = self;
        let Phase::Closed = intake.phase() else {
            return None;
        };
        intake.into_parts().rows.into_list()
    }
}

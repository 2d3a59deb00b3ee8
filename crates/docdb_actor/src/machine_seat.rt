//! A tablet or a status tablet by hand.
use crate::machine_line::{MachineLine, put_served};
use crate::status_seat::{Status, serve_status};
use crate::tablet_seat::{Tablet, serve_tablet};
use crate::unanswered::Unanswered;
use actor_words::Line;
use docdb_outside::MemLog;
use std::alloc::Global;
use txn_types::{Actor, Machine, Request, Served};

/// A tablet or a status tablet.
#[derive(Drop)]
pub enum MachineKind {
    Tablet(Tablet),
    Status(Status),
}

/// A tablet or a status tablet, and what the clock of its node reads, in microseconds.
#[derive(Drop)]
pub struct MachineSeat {
    pub kind: MachineKind,
    pub reading: u64,
}

impl MachineSeat {
    /// Does what a line says, and puts what comes of it at the end of `text`.
    pub fn answer(
        &mut self,
        alloc: Global,
        line: &[u8],
        text: &mut Line,
    ) -> Result<(), Unanswered> {
        match MachineLine::of(alloc, line)? {
            MachineLine::Reading(reading) => {
                self.reading = reading;
                text.word(b"=>")?;
                Ok(text.word(b"set")?)
            }
            MachineLine::Asked { from, request } => {
                let served = self.serve(alloc, from, &request)?;
                Ok(put_served(text, &served)?)
            }
            MachineLine::Actions => {
                text.word(b"=>")?;
                Ok(text.number(self.actions())?)
            }
        }
    }

    fn serve(
        &mut self,
        alloc: Global,
        from: Actor,
        request: &Request,
    ) -> Result<Served, Unanswered> {
        match &mut self.kind {
            MachineKind::Tablet(tablet) => {
                serve_tablet(alloc, tablet, from, request, self.reading)
            }
            MachineKind::Status(status) => serve_status(status, from, request, self.reading),
        }
    }

    fn actions(&self) -> u64 {
        match &self.kind {
            MachineKind::Tablet(tablet) => tablet.actions(),
            MachineKind::Status(status) => status.actions(),
        }
    }

    /// Its log. It ends here.
    pub fn into_log(self) -> MemLog {
        match self.kind {
            MachineKind::Tablet(tablet) => tablet.into_log(),
            MachineKind::Status(status) => status.into_log(),
        }
    }
}

//! A status tablet as a machine.
ghost use Rattle.std.specs.Prelude.{◌≡◌, ◌<◌, ◌^◌, ◌↔◌, ℕ, List, length};
ghost use Rattle.txn_data.specs.Time.{takes_time};
ghost use Rattle.txn_types.specs.Machine.{FewTablets, ReadingGiven};
ghost use Rattle.status_tablet.specs.Decisions.{IsStatusRequest, StaysItself, ServesBy};
ghost use Rattle.status_tablet.specs.Restarts.{IfRestarted, IsRebuilt};

use crate::status_tablet::StatusTablet;
use docdb_outside::LogStore;
use txn_types::{Actor, Machine, Request, Served};

impl<L: LogStore> Machine for StatusTablet<L> {
    ghost use Rattle.txn_data.specs.declared.actor.Actor.TheVariants.{Status};
    ghost use Rattle.status_tablet.specs.Stands.{Stands};
    ghost use Rattle.status_tablet.specs.Decisions.{IsStatusRequest};

    ghost actor = { λ s. Status s.status };

    ghost lease = { λ s. s.log.clock.lease };

    ghost accepts = { λ _ asked. IsStatusRequest asked };

    ghost stands_for = { Stands };

    ghost count = { λ s. s.log.actions };

    fn serve(&mut self, from: Actor, request: &Request, reading: Option<u64>) -> Served
        requires accepted { IsStatusRequest request.now }
        requires reading { ReadingGiven (takes_time request.now) reading }
        requires tablets { FewTablets request.now }
        requires room { self.old.log.actions < 2 ^ 62 }
        ensures stays { StaysItself self.old self.new result }
        ensures serves { ServesBy self.old self.new from reading request.now result }
        ensures rebuilt { IfRestarted result.reply (IsRebuilt self.old self.new) }
    {
        match request {
            Request::Begin {
                txn,
                isolation,
                priority,
            } => self.begin(from, *txn, *isolation, *priority),
            Request::AskFate { txn, t } => match reading {
                Some(reading) => self.ask(from, *txn, *t, reading),
                None => unreachable!(),
            },
            Request::Resolve { txn, by, priority } => self.resolve(from, *txn, *by, *priority),
            Request::Commit {
                txn,
                floor,
                tablets,
            } => match reading {
                Some(reading) => self.commit(from, *txn, *floor, tablets, reading),
                None => unreachable!(),
            },
            Request::Abort { txn } => self.abort(from, *txn),
            Request::Applied { txn, tablet } => self.applied(from, *txn, *tablet),
            Request::Restart => self.restart(from),
            _ => unreachable!(),
        }
    }

    fn actions(&self) -> u64 {
        self.log.actions()
    }
}

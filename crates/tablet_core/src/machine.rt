//! A tablet as a machine.
ghost use Rattle.std.specs.Prelude.{◌≡◌, ◌<◌, ◌^◌, ◌↔◌, ℕ, List, length};

use crate::tablet_core::TabletCore;
use docdb_outside::LogStore;
use regular_records::Versions;
use txn_types::{Actor, Machine, Request, Served};

impl<V: Versions + Drop, L: LogStore> Machine for TabletCore<V, L> {
    ghost use Rattle.txn_data.specs.declared.actor.Actor.TheVariants.{Tablet};
    ghost use Rattle.tablet_core.specs.Stands.{Stands};
    ghost use Rattle.txn_data.specs.Time.{takes_time};
    ghost use Rattle.txn_types.specs.Machine.{ReadingGiven};
    ghost use Rattle.tablet_core.specs.Requests.{Accepts};
    ghost use Rattle.tablet_core.specs.Decisions.{IfRestarted, ServesBy, StaysItself};
    ghost use Rattle.tablet_core.specs.Restarts.{IsRebuilt};

    ghost actor = { λ s. Tablet s.tablet };

    ghost lease = { λ s. s.log.clock.lease };

    ghost accepts = { λ _ asked. Accepts V.fits asked };

    ghost stands_for = { λ s. Stands V.holds s };

    ghost count = { λ s. s.log.actions };

    fn serve(&mut self, from: Actor, request: &Request, reading: Option<u64>) -> Served
        requires accepted { Accepts V.fits request.now }
        requires reading { ReadingGiven (takes_time request.now) reading }
        requires room { self.old.log.actions < 2 ^ 62 }
        ensures itself { StaysItself self.old self.new result }
        ensures serves { ServesBy V.holds self.old self.new from reading request.now result }
        ensures rebuilt { IfRestarted result.reply (IsRebuilt V.holds self.old self.new) }
    {
        match request {
            Request::ListWrite { txn, path } => self.list_write(from, *txn, path),
            Request::ListIntents => self.list_intents(from),
            Request::Collect {
                own,
                kind,
                paths,
                t,
                window,
                fates,
            } => self.collect(from, *own, *kind, paths, *t, *window, fates),
            Request::Clean { txn } => self.clean(from, *txn),
            Request::Restart => self.restart(from),
            Request::Write {
                meta,
                number,
                path,
                op,
                read,
                seen,
                fates,
            } => match reading {
                Some(reading) => {
                    self.write(from, meta, *number, path, op, *read, *seen, fates, reading)
                }
                None => unreachable!(),
            },
            Request::Single {
                txn,
                path,
                op,
                seen,
                fates,
            } => match reading {
                Some(reading) => self.single(from, *txn, path, op, *seen, fates, reading),
                None => unreachable!(),
            },
            Request::ListRead {
                own,
                paths,
                t,
                g,
                limit,
            } => match reading {
                Some(reading) => self.list_read(from, *own, paths, *t, *g, *limit, reading),
                None => unreachable!(),
            },
            Request::Apply { txn, at } => match reading {
                Some(reading) => self.apply(from, *txn, *at, reading),
                None => unreachable!(),
            },
            _ => unreachable!(),
        }
    }

    fn actions(&self) -> u64 {
        self.log.actions()
    }
}

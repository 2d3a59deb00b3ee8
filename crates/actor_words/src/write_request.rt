//! Requests at the end of a line.
use crate::line::Line;
use docdb_base::Memory;
use hybrid_time::HybridTime;
use txn_types::{Meta, ReadKind, Request, TxnId, Window};

impl Line {
    /// Puts a request at the end.
    pub fn request(&mut self, request: &Request) -> Result<(), Memory> {
        match request {
            Request::ListWrite { txn, path } => {
                self.word_txn(b"list_write", *txn)?;
                self.path(path)
            }
            Request::Write {
                meta,
                number,
                path,
                op,
                read,
                seen,
                fates,
            } => {
                self.write_head(meta, *number)?;
                self.path(path)?;
                self.op(op)?;
                self.word_time(b"read", *read)?;
                self.word_time(b"seen", *seen)?;
                self.fates(fates.items())
            }
            Request::Single {
                txn,
                path,
                op,
                seen,
                fates,
            } => {
                self.word_txn(b"single", *txn)?;
                self.path(path)?;
                self.op(op)?;
                self.word_time(b"seen", *seen)?;
                self.fates(fates.items())
            }
            request => self.read_request(request),
        }
    }

    fn write_head(&mut self, meta: &Meta, number: u32) -> Result<(), Memory> {
        self.word_txn(b"write", meta.txn)?;
        self.word_number(b"priority", u64::from(meta.priority))?;
        self.word_number(b"status", u64::from(meta.status))?;
        self.word_number(b"number", u64::from(number))
    }

    fn read_request(&mut self, request: &Request) -> Result<(), Memory> {
        match request {
            Request::ListRead {
                own,
                paths,
                t,
                g,
                limit,
            } => {
                self.word(b"list_read")?;
                self.own(*own)?;
                self.word_time(b"t", *t)?;
                self.word_time(b"g", *g)?;
                self.limit(*limit)?;
                self.paths(paths.items())
            }
            Request::Collect {
                own,
                kind,
                paths,
                t,
                window,
                fates,
            } => {
                self.word(b"collect")?;
                self.own(*own)?;
                self.kind(*kind)?;
                self.word_time(b"t", *t)?;
                self.window(*window)?;
                self.paths(paths.items())?;
                self.fates(fates.items())
            }
            request => self.txn_request(request),
        }
    }

    fn own(&mut self, own: Option<TxnId>) -> Result<(), Memory> {
        match own {
            Some(txn) => self.txn(txn),
            None => self.word(b"-"),
        }
    }

    fn kind(&mut self, kind: ReadKind) -> Result<(), Memory> {
        match kind {
            ReadKind::Get => self.word(b"get"),
            ReadKind::Scan => self.word(b"scan"),
        }
    }

    fn limit(&mut self, limit: Option<HybridTime>) -> Result<(), Memory> {
        self.word(b"limit")?;
        match limit {
            Some(limit) => self.time(limit),
            None => self.word(b"-"),
        }
    }

    fn window(&mut self, window: Option<Window>) -> Result<(), Memory> {
        self.word(b"window")?;
        match window {
            Some(window) => {
                self.time(window.g)?;
                self.time(window.limit)
            }
            None => self.word(b"-"),
        }
    }

    fn txn_request(&mut self, request: &Request) -> Result<(), Memory> {
        match request {
            Request::Begin { txn, priority, .. } => {
                self.word_txn(b"begin", *txn)?;
                self.word_number(b"priority", u64::from(*priority))
            }
            Request::AskFate { txn, t } => {
                self.word_txn(b"ask_fate", *txn)?;
                self.word_time(b"t", *t)
            }
            Request::Resolve { txn, by, priority } => {
                self.word_txn(b"resolve", *txn)?;
                self.word_txn(b"by", *by)?;
                self.word_number(b"priority", u64::from(*priority))
            }
            Request::Commit {
                txn,
                floor,
                tablets,
            } => {
                self.word_txn(b"commit", *txn)?;
                self.word_time(b"floor", *floor)?;
                self.tablets(tablets.items())
            }
            Request::Applied { txn, tablet } => {
                self.word_txn(b"applied", *txn)?;
                self.word_number(b"tablet", u64::from(*tablet))
            }
            request => self.short_request(request),
        }
    }

    fn short_request(&mut self, request: &Request) -> Result<(), Memory> {
        match request {
            Request::Apply { txn, at } => {
                self.word_txn(b"apply", *txn)?;
                self.word_time(b"at", *at)
            }
            Request::Clean { txn } => self.word_txn(b"clean", *txn),
            Request::Abort { txn } => self.word_txn(b"abort", *txn),
            Request::ListIntents => self.word(b"list_intents"),
            _ => self.word(b"restart"),
        }
    }
}

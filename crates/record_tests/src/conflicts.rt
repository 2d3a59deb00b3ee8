//! Conflicts and decisions worked by hand. A text stands for the path of its parts between slashes.
use conflict_matrix::{Kind, WriteDecision, conflicts, decide, intents_of};
use doc_path::Path;
use hybrid_time::HybridTime;
use std::alloc::Global;
use std::test::Fail;
use txn_types::{Fate, FateOf, Fates, Found, Founds, TxnId};

fn path(alloc: Global, text: &str) -> Result<Path, Fail> {
    let mut parts = text.split('/');
    let first = parts.next().ok_or("no part")?;
    let mut path = Path::of(alloc, first.as_bytes())?;
    for part in parts {
        path.push(part.as_bytes())?;
    }
    Ok(path)
}

#[test]
fn conflicts_of_kinds(rt: HostRuntime) {
    use Kind::{StrongRead, StrongWrite, WeakRead, WeakWrite};
    let rows = [
        (StrongRead, StrongRead, false),
        (StrongRead, StrongWrite, true),
        (StrongRead, WeakRead, false),
        (StrongRead, WeakWrite, true),
        (StrongWrite, StrongWrite, false),
        (StrongWrite, WeakRead, true),
        (StrongWrite, WeakWrite, false),
        (WeakRead, WeakRead, false),
        (WeakRead, WeakWrite, false),
        (WeakWrite, WeakWrite, false),
    ];
    for (a, b, conflict) in rows {
        assert_eq!(rt; conflicts(a, b), conflict, "{a:?} {b:?}");
        assert_eq!(rt; conflicts(b, a), conflict, "{b:?} {a:?}");
    }
}

#[test]
fn intents_of_a_write(rt: HostRuntime) -> Result<(), Fail> {
    let rows = [
        ("k", Kind::WeakRead),
        ("k", Kind::WeakWrite),
        ("k/a", Kind::WeakRead),
        ("k/a", Kind::WeakWrite),
        ("k/a/b", Kind::StrongRead),
        ("k/a/b", Kind::StrongWrite),
    ];
    let intents = intents_of(rt.alloc(), &path(rt.alloc(), "k/a/b")?)?;
    assert_eq!(rt; intents.len(), rows.len());
    for (intent, (text, kind)) in intents.iter().zip(rows) {
        assert!(rt; intent.path.cmp(&path(rt.alloc(), text)?).is_eq(), "{text}");
        assert_eq!(rt; intent.kind, kind);
    }
    assert_eq!(rt; intents_of(rt.alloc(), &path(rt.alloc(), "k")?)?.len(), 2);
    Ok(())
}

fn time(micros: u64) -> Result<HybridTime, Fail> {
    if micros >= 1000 {
        return Err("too late".into());
    }
    Ok(HybridTime::of(micros, 0))
}

fn fate(text: &str) -> Result<Fate, Fail> {
    Ok(match text {
        "pending" => Fate::Pending,
        "aborted" => Fate::Aborted,
        "absent" => Fate::Absent,
        micros => Fate::Committed {
            at: time(micros.parse().map_err(|_| "no fate")?)?,
        },
    })
}

fn optional_time(micros: Option<u64>) -> Result<Option<HybridTime>, Fail> {
    match micros {
        Some(micros) => Ok(Some(time(micros)?)),
        None => Ok(None),
    }
}

fn said(alloc: Global, decision: WriteDecision) -> Result<String, Fail> {
    Ok(match decision {
        WriteDecision::Go => format!(in alloc; "go")?,
        WriteDecision::Conflict { other } => {
            let number = other.number;
            format!(in alloc; "conflict {number}")?
        }
        WriteDecision::Overlap { at } => {
            let micros = at.micros();
            format!(in alloc; "overlap {micros}")?
        }
    })
}

fn founds_of(alloc: Global, text: &str) -> Result<Founds, Fail> {
    let mut founds = Founds::new(alloc);
    for word in text.split_whitespace() {
        let number = word.parse().map_err(|_| "no number")?;
        let txn = TxnId { number };
        founds.push(Found { txn, status: 0 })?;
    }
    Ok(founds)
}

fn fates_of(alloc: Global, text: &str) -> Result<Fates, Fail> {
    let mut fates = Fates::new(alloc);
    for word in text.split_whitespace() {
        let (number, told) = word.split_once('=').ok_or("no fate")?;
        let number = number.parse().map_err(|_| "no number")?;
        let txn = TxnId { number };
        let fate = fate(told)?;
        fates.push(FateOf { txn, fate })?;
    }
    Ok(fates)
}

/// The transactions found, the fates known, the read time and the newest related version, in microseconds.
#[test]
fn decides(rt: HostRuntime) -> Result<(), Fail> {
    let rows = [
        ("", "", Some(50), None, "go"),
        // No fate and the fate Pending conflict, and the least id is told.
        ("4 7", "", Some(50), None, "conflict 4"),
        ("7 4", "7=pending 4=pending", Some(50), None, "conflict 4"),
        ("4 7", "4=aborted 7=pending", Some(50), None, "conflict 7"),
        ("4 7", "4=aborted 7=absent", Some(50), None, "go"),
        // A conflict comes before an overlap, whatever the ids.
        ("4 7", "4=60 7=pending", Some(50), Some(70), "conflict 7"),
        // The greatest time above the read time is told.
        ("4 7", "4=70 7=60", Some(50), None, "overlap 70"),
        ("4 7", "4=60 7=70", Some(50), Some(60), "overlap 70"),
        ("4", "4=60", Some(50), Some(70), "overlap 70"),
        ("4", "4=40", Some(50), Some(60), "overlap 60"),
        ("4", "4=60", Some(60), Some(60), "go"),
        ("", "", Some(50), Some(40), "go"),
        // Without a read time nothing overlaps.
        ("4", "4=60", None, Some(70), "go"),
        // The first fate of a transaction counts.
        ("4", "4=60 4=pending", Some(50), None, "overlap 60"),
        ("4", "4=pending 4=60", Some(50), None, "conflict 4"),
        // The fate of a transaction that was not found is left aside.
        ("4", "7=70 4=40", Some(50), None, "go"),
    ];
    for (others, fates, read, newest, expected) in rows {
        let others = founds_of(rt.alloc(), others)?;
        let fates = fates_of(rt.alloc(), fates)?;
        let decision = decide(
            &others,
            &fates,
            optional_time(read)?,
            optional_time(newest)?,
        );
        assert_eq!(rt; said(rt.alloc(), decision)?.as_str(), expected);
    }
    Ok(())
}

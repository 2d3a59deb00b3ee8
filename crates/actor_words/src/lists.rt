//! Lists of a line.
use crate::not_read::NotRead;
use crate::numbers::small_of;
use crate::terms::{path_of, status_of, txn_of, value_of};
use crate::words::Words;
use docdb_base::Seq;
use std::alloc::Global;
use txn_types::{Found, Founds, Paths, Place, Places, Row, Rows, Tablets};

/// Transactions and their status tablets, to the end of the line.
pub(crate) fn read_founds(alloc: Global, words: &mut Words) -> Result<Founds, NotRead> {
    let mut founds = Seq::new(alloc);
    'founds: while !words.is_over() {
        let txn = txn_of(words.next()?)?;
        let status = status_of(words.next()?)?;
        founds.push(Found { txn, status })?;
    }
    Ok(founds)
}

/// Paths and their values, to the end of the line.
pub(crate) fn read_rows(alloc: Global, words: &mut Words) -> Result<Rows, NotRead> {
    let mut rows = Seq::new(alloc);
    'rows: while !words.is_over() {
        let path = path_of(alloc, words.next()?)?;
        let value = value_of(alloc, words.next()?)?;
        rows.push(Row { path, value })?;
    }
    Ok(rows)
}

/// Paths behind their word, as far as words are paths.
pub(crate) fn read_paths(alloc: Global, words: &mut Words) -> Result<Paths, NotRead> {
    words.expect(b"paths")?;
    let mut paths = Seq::new(alloc);
    'paths: while words.begins(b'/') {
        paths.push(path_of(alloc, words.next()?)?)?;
    }
    Ok(paths)
}

/// Tablets behind their word, to the end of the line.
pub(crate) fn read_tablets(alloc: Global, words: &mut Words) -> Result<Tablets, NotRead> {
    words.expect(b"tablets")?;
    let mut tablets = Seq::new(alloc);
    'tablets: while !words.is_over() {
        tablets.push(small_of(words.next()?)?)?;
    }
    Ok(tablets)
}

/// Tablets and paths, to the end of the line: at least one.
pub(crate) fn read_places(alloc: Global, words: &mut Words) -> Result<Places, NotRead> {
    let mut places = Seq::new(alloc);
    'places: while !words.is_over() {
        let tablet = small_of(words.next()?)?;
        let path = path_of(alloc, words.next()?)?;
        places.push(Place { tablet, path })?;
    }
    if places.items().is_empty() {
        return Err(NotRead::Form);
    }
    Ok(places)
}

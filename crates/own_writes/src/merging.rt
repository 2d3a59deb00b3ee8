//! Two lists of rows in one.
ghost use Rattle.std.specs.Prelude.{◌≡◌, ◌+◌, ◌<◌, [], ◌∷◌, IsSome, IfSome, IfNone, IfOk, OnSome};
ghost use Rattle.std.specs.VecDeque.{deque_len};
ghost use Rattle.txn_types.specs.Session.{with_rows};
ghost use Rattle.own_writes.specs.Merging.{Rise, first_order};

use docdb_base::{Memory, Seq};
use std::alloc::Global;
use std::cmp::Ordering;
use std::collections::VecDeque;
use txn_types::{Row, Rows};

/// Both lists in one, by path. Where both have a path, the row of the first list stays.
pub(crate) fn merged(alloc: Global, rows: Vec<Row>, others: Vec<Row>) -> Result<Rows, Memory>
    requires { Rise rows.items }
    ensures { IfOk result (λ all. all ≡ with_rows rows.items others.items) }
{
    let mut all = Seq::new(alloc);
    let mut rows = VecDeque::from(rows);
    let mut others = VecDeque::from(others);
    while let Some(row) = next_row(&mut rows, &mut others) {
        all.push(row)?;
    }
    Ok(all)
}

// The next row of both lists.
fn next_row(rows: &mut VecDeque<Row>, others: &mut VecDeque<Row>) -> Option<Row>
    requires { Rise rows.old.items }
    ensures some { IfSome result (λ row. with_rows rows.old.items others.old.items ≡ row ∷ with_rows rows.new.items others.new.items) }
    ensures none { IfNone result (with_rows rows.old.items others.old.items ≡ []) }
    ensures rise { Rise rows.new.items }
    ensures fewer { OnSome result (deque_len rows.new + deque_len others.new < deque_len rows.old + deque_len others.old) }
{
    match order_of(rows, others) {
        Ordering::Less => rows.pop_front(),
        Ordering::Equal => {
            others.pop_front();
            rows.pop_front()
        }
        Ordering::Greater => others.pop_front(),
    }
}

// How the first row of one list stands to that of another.
fn order_of(rows: &VecDeque<Row>, others: &VecDeque<Row>) -> Ordering
    ensures { result ≡ first_order rows.now.items others.now.items }
{
    match (rows.front(), others.front()) {
        (None, _) => Ordering::Greater,
        (Some(_), None) => Ordering::Less,
        (Some(row), Some(other)) => row.path.cmp(&other.path),
    }
}

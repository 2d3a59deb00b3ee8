//! Lists, copies and draws worked by hand.
use crate::{Generator, Seq, TryCopy};
use std::test::Fail;

#[test]
fn copies(rt: HostRuntime) -> Result<(), Fail> {
    let rows = [[1u32, 2].as_slice(), [].as_slice(), [3].as_slice()];
    let mut lists = Seq::new(rt.alloc());
    for row in rows {
        lists.push(Seq::of(row.to_vec(rt.alloc())?))?;
    }
    let copy = lists.try_copy(rt.alloc())?;
    for kept in [lists, copy] {
        let kept = kept.into_items();
        assert_eq!(rt; kept.len(), 3);
        for (list, row) in kept.iter().zip(rows) {
            assert_eq!(rt; list.items(), row);
        }
    }
    assert_eq!(rt; Some(7u32).try_copy(rt.alloc())?, Some(7));
    assert_eq!(rt; None::<u32>.try_copy(rt.alloc())?, None);
    assert_eq!(rt; 200u8.try_copy(rt.alloc())?, 200);
    assert_eq!(rt; 5_000_000_000u64.try_copy(rt.alloc())?, 5_000_000_000);
    Ok(())
}

#[test]
fn draws_from_seven(rt: HostRuntime) {
    let mut generator = Generator::of(7);
    for draw in [2_118_330_556, 4_104_526_463, 3_893_713_506] {
        assert_eq!(rt; generator.draw(), draw);
    }
}

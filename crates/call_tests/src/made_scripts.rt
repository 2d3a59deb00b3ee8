//! Made scripts, worked by hand.
use load_maker::make;
use script_text::read_script;
use std::test::Fail;
use txn_data::Command;

/// One block by the number 0. Its draws are 335,903,614, 436,792,849, 2,599,843,874, 1,723,210,473, 1,647,660,250,
/// 2,408,873,782, 339,776,368, 1,528,919,950 and 2,073,582,529.
const ONE_BY_0: &str = "tablets = 8\nstatus = 2\n---
1: clock 0 1000010
15: begin
15: put [849;]/#1 874
15: put [473;]/#1 250
15: commit
1: clock 0 1000020
3: single put [368;]/#1 950
1: clock 0 1000030
3: read [529;]/#1
3: apply t0
";

/// Two blocks by the number 1. The draws of the first are 1,817,669,548, 2,187,888,307, 2,784,682,393, 1,644,385,741,
/// 3,416,422,068, 2,149,679,590, 2,379,134,260, 280,973,805 and 3,606,596,178.
const TWO_BY_1: &str = "tablets = 8\nstatus = 2\n---
1: clock 0 1000010
9: begin
9: put [307;]/#1 393
9: put [741;]/#1 68
9: commit
1: clock 0 1000020
11: single put [260;]/#1 805
1: clock 0 1000030
11: read [178;]/#1
11: apply t0
1: clock 0 1000040
14: begin
14: put [246;]/#1 604
14: put [905;]/#1 800
14: commit
1: clock 0 1000050
9: single put [625;]/#1 780
1: clock 0 1000060
9: read [991;]/#1
9: apply t1
";

#[test]
fn makes_what_is_read(rt: HostRuntime) -> Result<(), Fail> {
    let alloc = rt.alloc();
    for (blocks, number, text) in [
        (1, 0, ONE_BY_0),
        (2, 1, TWO_BY_1),
        (0, 7, "tablets = 8\nstatus = 2\n---\n"),
    ] {
        let (config, plan) = make(alloc, blocks, number)?;
        let made = format!(in alloc; "{config:?} {plan:?}")?;
        let Ok((config, plan)) = read_script(alloc, text.as_bytes()) else {
            panic!(rt; "the script by {number} is refused");
        };
        let read = format!(in alloc; "{config:?} {plan:?}")?;
        assert_eq!(rt; made, read, "by {number}");
    }
    Ok(())
}

/// The first write by the number 0. The hash of column 849 is 0B53, which is of the first of eight tablets.
#[test]
fn makes_the_bytes_of_a_write(rt: HostRuntime) -> Result<(), Fail> {
    let (_, plan) = make(rt.alloc(), 1, 0)?;
    assert_eq!(rt;
        plan.order.items(),
        [1u32, 15, 15, 15, 15, 1, 3, 1, 3, 3].as_slice()
    );
    let sessions = plan.sessions.items();
    assert_eq!(rt; sessions.len(), 3);
    let told = sessions[2].commands.items();
    assert_eq!(rt; told.len(), 4);
    let Command::Put { place, value } = &told[1] else {
        panic!(rt; "no write");
    };
    assert_eq!(rt; place.tablet, 0);
    assert_eq!(rt; place.path.parts(), 2);
    assert_eq!(rt;
        place.path.part(0),
        [
            0x47u8, 0x0B, 0x53, 0x49, 0x80, 0, 0, 0, 0, 0, 0x03, 0x51, 0x21, 0x21
        ]
        .as_slice()
    );
    assert_eq!(rt; place.path.part(1), [0x4Bu8, 0, 0, 0, 1].as_slice());
    assert_eq!(rt;
        value.items(),
        [0x49u8, 0x80, 0, 0, 0, 0, 0, 0x03, 0x6A].as_slice()
    );
    Ok(())
}

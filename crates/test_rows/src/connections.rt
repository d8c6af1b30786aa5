//! Who began, in a run of packets.
use flow_table::FlowTable;
use mud_base::{Addr, Direction, Fields, Moment, Transport};
use std::test::Fail;

/// The address of the Thing, 192.0.2.10, and that of its peer, 198.51.100.7.
const BULB: u32 = 0xc000_020a;

const PEER: u32 = 0xc633_6407;

/// A TCP packet of no data.
fn tcp(src: u32, from: u16, dst: u32, to: u16, flags: u8) -> Fields {
    Fields {
        src: Addr::V4(src),
        dst: Addr::V4(dst),
        protocol: 6,
        dscp: 0,
        ecn: 0,
        length: 60,
        ttl: 64,
        transport: Transport::Tcp {
            source: from,
            destination: to,
            flags,
        },
    }
}

fn moment(seconds: u64) -> Moment {
    Moment::at_most_last(seconds)
}

/// A TCP packet is forwarded; false where it could not be noted.
#[tactic(auto, unfolding(table_model::specs::History::segment_of))]
fn forwarded(table: &mut FlowTable, fields: &Fields, seconds: u64) -> bool {
    let now = moment(seconds);
    if !table.is_since(now) {
        return false;
    }
    match fields.transport {
        Transport::Tcp { .. } => match table.plan(fields, now) {
            Ok(plan) => {
                table.note(plan);
                true
            }
            Err(_) => false,
        },
        _ => false,
    }
}

fn begun(table: &FlowTable, side: Direction, fields: &Fields, seconds: u64) -> Option<Direction> {
    let now = moment(seconds);
    if table.is_since(now) {
        table.begun(side, fields, now)
    } else {
        None
    }
}

#[test]
fn a_pause_of_more_than_7440_seconds_ends_it(rt: HostRuntime) -> Result<(), Fail> {
    let mut table = FlowTable::new(rt.alloc());
    let call = tcp(BULB, 50000, PEER, 443, 2);
    let answer = tcp(PEER, 443, BULB, 50000, 0x12);
    assert_eq!(rt; begun(&table, Direction::To, &answer, 1001), None);
    assert_eq!(rt;
        begun(&table, Direction::From, &call, 1001),
        Some(Direction::From)
    );
    assert!(rt; forwarded(&mut table, &call, 1001));
    assert_eq!(rt;
        begun(&table, Direction::To, &answer, 8441),
        Some(Direction::From)
    );
    assert_eq!(rt; begun(&table, Direction::To, &answer, 8442), None);
    assert_eq!(rt;
        begun(&table, Direction::From, &answer, 8441),
        Some(Direction::To)
    );
    assert!(rt; forwarded(&mut table, &answer, 8441));
    assert_eq!(rt;
        begun(&table, Direction::To, &answer, 15881),
        Some(Direction::From)
    );
    assert_eq!(rt; begun(&table, Direction::To, &answer, 15882), None);
    Ok(())
}

#[test]
fn a_reset_ends_it(rt: HostRuntime) -> Result<(), Fail> {
    let mut table = FlowTable::new(rt.alloc());
    let call = tcp(BULB, 50000, PEER, 443, 2);
    let reset = tcp(BULB, 50000, PEER, 443, 4);
    let answer = tcp(PEER, 443, BULB, 50000, 0x12);
    assert!(rt; forwarded(&mut table, &call, 1001));
    assert!(rt; forwarded(&mut table, &reset, 1001));
    assert_eq!(rt; begun(&table, Direction::To, &answer, 1001), None);
    assert!(rt; forwarded(&mut table, &call, 1002));
    assert_eq!(rt;
        begun(&table, Direction::To, &answer, 1003),
        Some(Direction::From)
    );
    Ok(())
}

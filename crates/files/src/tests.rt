//! The files of a small rig, room that is short, numbers and pairs.

use super::*;
use evidence::Refusal;
use theory::{Entry, Record};

const PROFILE: &[u8] = b"P,1,1,3\nL,0,0,500\nL,0,1,620\nL,1,0,500\nL,2,1,620\n";

const TABLE: &[u8] = b"T,1,1,2\nR,0,0,1,500,C\nR,1,0,2,620,C\n";

const SPANS: &[u16] = &[500, 620];

// Two baselines that share imager 0.
fn rig() -> Record {
    let mut record = Record::new();
    record.entries[0] = Entry {
        lower: 0,
        higher: 1,
        doubtful: false,
    };
    record.entries[1] = Entry {
        lower: 0,
        higher: 2,
        doubtful: false,
    };
    record
}

// What the files of that rig tell.
fn contents(record: &Record) -> Contents<'_> {
    Contents {
        survey: 1,
        issue: 1,
        imagers: 3,
        spans: SPANS,
        record,
    }
}

#[test]
fn files_of_a_rig(rt: HostRuntime) {
    let record = rig();
    let contents = contents(&record);
    let mut out = [7; 100];
    assert_eq!(rt; write_profile(&contents, &mut out, 2), Ok(48));
    assert_eq!(rt; write_table(&contents, &mut out, 50), Ok(36));
    assert!(rt; out[0..2] == [7, 7]);
    assert!(rt; &out[2..50] == PROFILE);
    assert!(rt; &out[50..86] == TABLE);
    assert!(rt; out[86] == 7);
}

#[test]
fn no_room(rt: HostRuntime) {
    let record = rig();
    let contents = contents(&record);
    let mut out = [7; 48];
    assert_eq!(rt;
        write_profile(&contents, &mut out, 1),
        Err(Refusal::NoRoom(48))
    );
    assert_eq!(rt;
        write_profile(&contents, &mut out, 49),
        Err(Refusal::NoRoom(48))
    );
    assert_eq!(rt;
        write_table(&contents, &mut out, usize::MAX),
        Err(Refusal::NoRoom(36))
    );
    assert_eq!(rt; Refusal::NoRoom(48).number(), 19);
    assert!(rt; out[0] == 7);
}

#[test]
fn numbers(rt: HostRuntime) {
    assert_eq!(rt; read_number(b"0"), Some(0));
    assert_eq!(rt; read_number(b"65535"), Some(65535));
    assert_eq!(rt; read_number(b"65536"), None);
    assert_eq!(rt; read_number(b"007"), None);
    assert_eq!(rt; read_number(b""), None);
    assert_eq!(rt; reads_back(620), Some(620));
}

#[test]
fn pairs(rt: HostRuntime) {
    assert_eq!(rt; read_pair(b"share,3,41"), Ok((3, 41)));
    assert_eq!(rt; read_pair(b"share,3,007"), Err(BadField { place: 2 }));
    assert_eq!(rt; read_pair(b"share"), Err(BadField { place: 1 }));
    assert_eq!(rt; read_pair(b"share,3,41,"), Err(BadField { place: 3 }));
}

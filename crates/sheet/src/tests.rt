//! Sheets and what they reply.

use super::answer_sheet;
use ledgers::WordGrid;
use lines::{Fault, TextFault, line};
use std::alloc::Global;
use std::test::Fail;
use survey::Survey;

// Whether a sheet is answered by these bytes.
fn answers(heap: Global, sheet: &[u8], replies: &[u8]) -> Result<bool, Fail> {
    let mut out = Vec::new(heap);
    answer_sheet(sheet, &mut out)?;
    Ok(out.as_slice() == replies)
}

// Three that share with each other.
const DOUBTFUL: &[u8] =
    b"enlist,10\nenlist,20\nenlist,30\nshare,0,1\nshare,0,2\nshare,2,1\nresolve\nissue\n";

const DOUBTFUL_REPLIES: &[u8] = b"ok,0\nok,1\nok,2\nok,1\nok,1\nok,1\nok,4,3\n\
P,1,1,4\nL,0,0,10\nL,0,1,20\nL,0,2,30\nL,1,0,10\nL,2,1,20\nL,3,2,30\n\
T,1,1,3\nR,0,0,1,10,D\nR,1,0,2,20,D\nR,2,0,3,30,D\n";

#[test]
fn doubtful_rig(rt: HostRuntime) -> Result<(), Fail> {
    assert!(rt; answers(rt.alloc(), DOUBTFUL, DOUBTFUL_REPLIES)?);
    Ok(())
}

// A baseline that shares with three which do not share: refused until one pair is parted, and numbered on from there.
const REFUSED: &[u8] = b"enlist,1\nenlist,2\nenlist,3\nenlist,4\nenlist,5\n\
share,1,2\nshare,3,1\nshare,1,4\nissue\nresolve\nissue\npart,4,1\nresolve\nissue\nissue\n";

const REFUSED_REPLIES: &[u8] = b"ok,0\nok,1\nok,2\nok,3\nok,4\nok,1\nok,1\nok,1\n\
no,9,15,0,S\nno,10,18,1,S\nno,11,15,0,S\nok,1\nok,8,0\n\
P,1,1,8\nL,0,0,1\nL,1,0,1\nL,2,1,2\nL,2,2,3\nL,3,1,2\nL,3,3,4\nL,4,2,3\nL,5,3,4\nL,6,4,5\nL,7,4,5\n\
T,1,1,5\nR,0,0,1,1,C\nR,1,2,3,2,C\nR,2,2,4,3,C\nR,3,3,5,4,C\nR,4,6,7,5,C\n\
P,1,2,8\nL,0,0,1\nL,1,0,1\nL,2,1,2\nL,2,2,3\nL,3,1,2\nL,3,3,4\nL,4,2,3\nL,5,3,4\nL,6,4,5\nL,7,4,5\n\
T,1,2,5\nR,0,0,1,1,C\nR,1,2,3,2,C\nR,2,2,4,3,C\nR,3,3,5,4,C\nR,4,6,7,5,C\n";

#[test]
fn refused_rig(rt: HostRuntime) -> Result<(), Fail> {
    assert!(rt; answers(rt.alloc(), REFUSED, REFUSED_REPLIES)?);
    Ok(())
}

// Every refusal of the text, bytes that are no text, and a line without its end.
const TEXTS: &[u8] = b"\nenlist\nenlist,1,2\nenlist,\nenlist,007\nenlist,65536\nenlist,65535\n\
Enlist,1\nenlist ,1\nshare,1\nshare,0,1,\nshare,,0\nshare,0,0x\nshare,x,y\npart,0,123456\n\
resolve,\nresolve\r\n\xff\x00\xfe\nissue,1\nshare,0,0\nenlist,0\nresolve";

const TEXT_REPLIES: &[u8] = b"no,1,3,0,T\nno,2,4,0,T\nno,3,4,0,T\nno,4,5,1,T\nno,5,5,1,T\n\
no,6,5,1,T\nok,0\nno,8,3,0,T\nno,9,3,0,T\nno,10,4,0,T\nno,11,4,0,T\nno,12,5,1,T\nno,13,5,2,T\n\
no,14,5,1,T\nno,15,5,2,T\nno,16,4,0,T\nno,17,3,0,T\nno,18,3,0,T\nno,19,4,0,T\nno,20,13,0,S\n\
no,21,10,0,S\nno,22,2,0,T\n";

#[test]
fn refused_texts(rt: HostRuntime) -> Result<(), Fail> {
    assert!(rt; answers(rt.alloc(), TEXTS, TEXT_REPLIES)?);
    assert!(rt; answers(rt.alloc(), b"", b"")?);
    Ok(())
}

// The 64th baseline has number 63, and there is no 65th.
#[test]
fn many_baselines(rt: HostRuntime) -> Result<(), Fail> {
    let mut sheet = Vec::new(rt.alloc());
    for _ in 0..65usize {
        sheet.extend_from_slice(b"enlist,7\n")?;
    }
    let mut out = Vec::new(rt.alloc());
    answer_sheet(&sheet, &mut out)?;
    assert!(rt; out.as_slice().ends_with(b"\nok,62\nok,63\nno,65,11,0,S\n"));
    Ok(())
}

// A buffer a byte short is refused and left as it was, and so is the survey; past a reply nothing is touched.
#[test]
fn short_buffer(rt: HostRuntime) {
    let mut survey = Survey::open(1, WordGrid::new());
    let mut reply = [7; 4095];
    assert_eq!(rt;
        line(&mut survey, b"enlist,5\n", 1, &mut reply),
        Err(Fault::Text(TextFault::ShortReply))
    );
    assert!(rt; reply[0] == 7);
    let mut reply = [7; 4096];
    assert_eq!(rt; line(&mut survey, b"enlist,5\n", 2, &mut reply), Ok(5));
    assert!(rt; &reply[0..6] == b"ok,0\n\x07".as_slice());
    assert_eq!(rt; line(&mut survey, b"", 65535, &mut reply), Ok(15));
    assert!(rt; &reply[0..16] == b"no,65535,2,0,T\n\x07".as_slice());
}

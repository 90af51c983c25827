use metafile::{Record, check};
use playback::Answer;
use player::{StepFault, play, start};
use raster::Packed;
use std::test::Fail;
use surface::Surface;

// A header and the end record.
const EMPTY: &[u8] = b"\x01\0\x09\0\0\x03\x0C\0\0\0\0\0\x03\0\0\0\0\0\x03\0\0\0\0\0";

// An end record of four words, an unlisted record, a selection in an empty table, and the end.
const FAULTS: &[u8] =
    b"\x01\0\x09\0\0\x03\x17\0\0\0\x01\0\x04\0\0\0\0\0\x04\0\0\0\0\0\0\0\x03\0\0\0\x03\x01\x04\0\0\0\x2D\x01\0\0\x03\0\0\0\0\0";

// An unlisted record, and no end record.
const ENDLESS: &[u8] = b"\x01\0\x09\0\0\x03\x0C\0\0\0\0\0\x03\0\0\0\0\0\x03\0\0\0\x03\x01";

// Window origin (1, 0), viewport origin (3, 1), PATCOPY of two cells at (0, 0), and the end.
const MOVED: &[u8] =
    b"\x01\0\x09\0\0\x03\x1F\0\0\0\0\0\x09\0\0\0\0\0\x05\0\0\0\x0B\x02\0\0\x01\0\x05\0\0\0\x0D\x02\x01\0\x03\0\x09\0\0\0\x1D\x06\x21\0\xF0\0\x01\0\x02\0\0\0\0\0\x03\0\0\0\0\0";

// A header of sixteen objects and 131 words, a solid brush, and the end.
const SIXTEEN: &[u8] = b"\x01\0\x09\0\0\x03\x83\0\0\0\x10\0\x07\0\0\0\0\0";

const BRUSH: &[u8] = b"\x07\0\0\0\xFC\x02\0\0\x01\0\0\x01\0\0";

const END: &[u8] = b"\x03\0\0\0\0\0";

// The number of a fault, and the offset that it tells.
fn fault_of(answer: Result<Answer, StepFault>) -> Option<(u8, usize)> {
    answer.err().map(|fault| (fault.number(), fault.place()))
}

#[test]
fn empty_file(rt: HostRuntime) -> Result<(), Fail> {
    let mut memory = [0; 1];
    let mut surface = Packed::new(&mut memory, 8, 1);
    let mut run = start(check(EMPTY)?);
    assert!(rt; matches!(run.question(), Ok(Some(Record::End))));
    assert!(rt; matches!(run.step(&mut surface), Ok(Answer::Ended)));
    assert!(rt; matches!(run.question(), Ok(None)));
    assert!(rt; matches!(run.step(&mut surface), Ok(Answer::Ended)));
    assert_eq!(rt; run.progress().place, 18);
    let counts = run.finish();
    assert_eq!(rt;
        (counts.taken, counts.refused, counts.passed_over),
        (0, 0, 0)
    );
    Ok(())
}

#[test]
fn refused_and_passed_over(rt: HostRuntime) -> Result<(), Fail> {
    let mut memory = [0; 1];
    let mut surface = Packed::new(&mut memory, 8, 1);
    let mut run = start(check(FAULTS)?);
    let odd_end = run.step(&mut surface);
    assert_eq!(rt; fault_of(odd_end), Some((6, 18)));
    assert!(rt; matches!(run.step(&mut surface), Ok(Answer::PassedOver)));
    let selection = run.step(&mut surface);
    assert_eq!(rt; fault_of(selection), Some((11, 32)));
    assert!(rt; matches!(run.step(&mut surface), Ok(Answer::Ended)));
    let counts = run.finish();
    assert_eq!(rt;
        (counts.taken, counts.refused, counts.passed_over),
        (0, 2, 1)
    );
    Ok(())
}

#[test]
fn no_end_record(rt: HostRuntime) -> Result<(), Fail> {
    let mut memory = [0; 1];
    let mut surface = Packed::new(&mut memory, 8, 1);
    let mut run = start(check(ENDLESS)?);
    assert!(rt; matches!(run.step(&mut surface), Ok(Answer::PassedOver)));
    let first = run.step(&mut surface);
    let second = run.step(&mut surface);
    assert_eq!(rt; fault_of(first), Some((5, 24)));
    assert_eq!(rt; fault_of(second), Some((5, 24)));
    let counts = run.finish();
    assert_eq!(rt;
        (counts.taken, counts.refused, counts.passed_over),
        (0, 0, 1)
    );
    Ok(())
}

#[test]
fn seventeenth_object(rt: HostRuntime) -> Result<(), Fail> {
    let mut file = Vec::new(rt.alloc());
    file.extend_from_slice(SIXTEEN)?;
    for _ in 0..17 {
        file.extend_from_slice(BRUSH)?;
    }
    file.extend_from_slice(END)?;
    let mut memory = [0; 1];
    let mut surface = Packed::new(&mut memory, 8, 1);
    let mut run = start(check(&file)?);
    let steps = play(&mut run, &mut surface, rt.alloc())?;
    assert!(rt; steps.len() == 18);
    assert!(rt; steps[15].answer.is_ok());
    assert_eq!(rt; steps[16].answer.err().map(StepFault::number), Some(10));
    let counts = run.finish();
    assert_eq!(rt;
        (counts.taken, counts.refused, counts.passed_over),
        (16, 1, 0)
    );
    Ok(())
}

#[test]
fn moved_origins(rt: HostRuntime) -> Result<(), Fail> {
    let mut memory = [0; 2];
    let mut surface = Packed::new(&mut memory, 6, 2);
    let mut run = start(check(MOVED)?);
    let steps = play(&mut run, &mut surface, rt.alloc())?;
    assert_eq!(rt; steps.len(), 4);
    assert_eq!(rt; run.finish().taken, 3);
    let top = surface.memory();
    assert!(rt; top.len() == 2);
    assert_eq!(rt; (top[0], top[1]), (0b0000_0000, 0b0011_0000));
    Ok(())
}

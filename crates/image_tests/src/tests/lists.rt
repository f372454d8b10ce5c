// Lengths: of the image, of the instruction list and of the byte list.
use crate::tests::{answer, image_of};
use image::reader::read;
use image::writer::write;
use instructions::{Instruction, Op, Value};
use program::refusal::Reason;
use std::test::Fail;

const MOVE: [u8; 8] = [1, 2, 3, 0, 0, 0, 0, 0];

#[test]
fn image_lengths(rt: HostRuntime) -> Result<(), Fail> {
    let heap = rt.alloc();
    let mut image = image_of(heap, &[], &[MOVE])?;
    assert_eq!(rt; answer(heap, &image, 9)?, Ok(1));
    image.push(0)?;
    assert_eq!(rt; answer(heap, &image, 9)?, Err(Reason::BadLength.at(0)));
    image.truncate(71);
    assert_eq!(rt; answer(heap, &image, 9)?, Err(Reason::BadLength.at(0)));
    image.truncate(63);
    assert_eq!(rt; answer(heap, &image, 9)?, Err(Reason::NoHeader.at(0)));
    image.truncate(0);
    assert_eq!(rt; answer(heap, &image, 9)?, Err(Reason::NoHeader.at(0)));
    Ok(())
}

#[test]
fn the_instruction_list(rt: HostRuntime) -> Result<(), Fail> {
    let heap = rt.alloc();
    let image = image_of(heap, &[], &[MOVE, MOVE])?;
    assert_eq!(rt; answer(heap, &image, 2)?, Ok(2));
    assert_eq!(rt; answer(heap, &image, 1)?, Err(Reason::NoRoomForCode.at(2)));
    let list = vec![in heap; Instruction::Again; 3]?;
    let Ok(program) = read(&image, list) else {
        return Err(Fail::new("refused"));
    };
    let list = program.into_list();
    let op = Op::Set {
        target: 2,
        value: Value::Move { from: 3 },
    };
    assert!(rt;
        list.as_slice()
            == [
                Instruction::Do { op },
                Instruction::Do { op },
                Instruction::Again,
            ]
            .as_slice()
    );
    Ok(())
}

#[test]
fn the_byte_list(rt: HostRuntime) -> Result<(), Fail> {
    let heap = rt.alloc();
    let image = image_of(heap, &[(6, 9)], &[MOVE])?;
    let Ok(program) = read(&image, vec![in heap; Instruction::End; 1]?) else {
        return Err(Fail::new("refused"));
    };
    let mut out = vec![in heap; 7u8; 73]?;
    assert_eq!(rt; write(&program, &mut out).ok(), Some(72));
    image_then_seven(&image, &out)?;
    let mut short = vec![in heap; 7u8; 71]?;
    match write(&program, &mut short) {
        Ok(_) => return Err(Fail::new("written")),
        Err(refusal) => assert_eq!(rt; refusal, Reason::NoRoomForImage.at(72)),
    }
    assert!(rt; short.as_slice() == vec![in heap; 7u8; 71]?.as_slice());
    Ok(())
}

fn image_then_seven(image: &Vec<u8>, out: &Vec<u8>) -> Result<(), Fail> {
    if out.len() == 73 && &out.as_slice()[0..72] == image.as_slice() && out[72] == 7 {
        Ok(())
    } else {
        Err(Fail::new("other bytes"))
    }
}

#[test]
fn numbers_of_reasons(rt: HostRuntime) {
    assert_eq!(rt; Reason::NoHeader.at(0).number(), 1);
    assert_eq!(rt; Reason::BadHeader.at(0).number(), 3);
    assert_eq!(rt; Reason::BadLength.at(0).number(), 4);
    assert_eq!(rt; Reason::BadField.at(0).number(), 5);
    assert_eq!(rt; Reason::BadBracket.at(0).number(), 6);
    assert_eq!(rt; Reason::TooDeep.at(0).number(), 7);
    assert_eq!(rt; Reason::NoRoomForCode.at(0).number(), 8);
    assert_eq!(rt; Reason::TooManySteps.at(0).number(), 14);
    assert_eq!(rt; Reason::NoRoomForImage.at(0).number(), 16);
    assert_eq!(rt; Reason::OutsideTable.at(0).number(), 30);
    assert_eq!(rt; Reason::NoRoomForMarks.at(0).number(), 31);
}

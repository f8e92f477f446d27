// What edits of the belt program touch, and that a refused one leaves it alone.
use super::belt::belt;
use analyses::constants::Constants;
use analyses::edit::Edit;
use analyses::liveness::Liveness;
use drive::fault::Fault;
use drive::line::Line;
use equations::sets::Equations;
use refusal::numbered::Numbered;
use std::process::Abort;

// The constants that the edit touches are those of all registers at these lines, and no others.
fn touches_lines(rt: &impl Abort, p: usize, line: Line, lines: &[usize]) -> Result<(), Fault> {
    let constants = Constants::over(belt()?, None);
    for x in 0..constants.count() {
        assert_eq!(rt;
            constants.touches(Edit { p, line }, x),
            lines.contains(&(x / 8))
        );
    }
    Ok(())
}

#[test]
fn constants_touched(rt: HostRuntime) -> Result<(), Fault> {
    touches_lines(&rt, 0, Line::Set { a: 1, b: 5 }, &[1])?;
    touches_lines(&rt, 1, Line::Jmp { a: 5 }, &[2, 4, 5])?;
    touches_lines(&rt, 2, Line::Jz { a: 0, b: 3 }, &[3])?;
    touches_lines(&rt, 5, Line::Halt, &[])?;
    touches_lines(&rt, 5, Line::Out { a: 0 }, &[])?;
    touches_lines(&rt, 0, Line::Jmp { a: 6 }, &[])?;
    touches_lines(&rt, 6, Line::Halt, &[])
}

#[test]
fn liveness_touched(rt: HostRuntime) -> Result<(), Fault> {
    let liveness = Liveness::over(belt()?);
    let halt = Edit {
        p: 3,
        line: Line::Halt,
    };
    let refused = Edit {
        p: 3,
        line: Line::Jmp { a: 6 },
    };
    for x in 0..liveness.count() {
        assert_eq!(rt; liveness.touches(halt, x), x == 3);
        assert!(rt; !liveness.touches(refused, x));
    }
    Ok(())
}

// Of an edit that is refused the number is the program's.
#[test]
fn refusals(rt: HostRuntime) -> Result<(), Fault> {
    let mut constants = Constants::over(belt()?, None);
    assert_eq!(rt; edited(&mut constants, 6, Line::Halt), Err(12));
    assert_eq!(rt; edited(&mut constants, 0, Line::Neg { a: 8 }), Err(6));
    assert_eq!(rt; edited(&mut constants, 0, Line::Jmp { a: 6 }), Err(8));
    assert_eq!(rt; edited(&mut constants, 5, Line::Neg { a: 0 }), Err(9));
    assert_eq!(rt; edited(&mut constants, 0, Line::Set { a: 1, b: 5 }), Ok(()));
    Ok(())
}

// Edits line p; where that is refused, the number of the refusal.
fn edited(constants: &mut Constants, p: usize, line: Line) -> Result<(), u8> {
    constants
        .edit(Edit { p, line })
        .map_err(|fault| fault.number())
}

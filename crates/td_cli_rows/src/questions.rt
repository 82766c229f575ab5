//! Questions about a small netlist.

use std::alloc::Global;
use std::process::Abort;
use std::test::*;
use td_domain::Trit;
use td_gates::{Delay, Level};
use td_inputs::{Given, Taken, Topic, WordFault};
use td_question::vector::VectorWord;
use td_question::{Asked, QuestionFault, pair_of, question_of};
use td_reading::Reading;
use td_refutation::NamedCondition;
use td_request::{Inputs, Question};
use td_spans::Form;

const TEXT: &[u8] =
    b"module t(a, b, y);\ninput [1:0] a;\ninput b;\noutput y;\nand #2 g(y,a[1],a[0],b);\nendmodule\n";

fn nothing<'a>() -> Given<'a> {
    Given {
        first: None,
        second: None,
        hold: None,
        at: None,
    }
}

/// What is asked by words by place and by name, with at most one flip.
fn asked<'a>(
    rt: &impl Abort,
    alloc: Global,
    given: Given<'a>,
    named: &'a [Taken<'a>],
) -> Result<Asked, QuestionFault<'static, 'a>> {
    let Some(default) = Delay::new(1, 1) else {
        rt.abort();
    };
    let reading = Reading::whole(alloc, default);
    let question = Question {
        inputs: Inputs { given, named },
        flips: Some(1),
        keep_file: None,
        keep_text: None,
    };
    question_of(alloc, TEXT, &reading, &question)
}

/// Pins, a held input and a moment by name are those of the circuit's own inputs.
#[test]
fn asks_by_name(rt: HostRuntime) -> Result<(), Fail> {
    let named = [
        Taken {
            topic: Topic::Pin,
            text: b"a=2",
        },
        Taken {
            topic: Topic::HoldInput,
            text: b"b",
        },
        Taken {
            topic: Topic::At,
            text: b"b=7",
        },
    ];
    match asked(&rt, rt.alloc(), nothing(), &named) {
        Ok(asked) => {
            let pins = asked.admit.pins();
            assert!(rt; pins.len() == 6);
            assert!(rt; pins.trit(0) == Trit::One && pins.trit(1) == Trit::One);
            assert!(rt; pins.trit(2) == Trit::Zero && pins.trit(3) == Trit::Zero);
            assert!(rt; pins.trit(4) == Trit::Free && pins.trit(5) == Trit::Free);
            assert!(rt; asked.admit.held() == [false, false, true].as_slice());
            assert!(rt; asked.admit.flips() == 1);
            assert!(rt; asked.circuit.moments() == [0u64, 0, 7].as_slice());
        }
        Err(_) => assert!(rt; false),
    }
    Ok(())
}

/// Words by place alone.
#[test]
fn asks_by_place(rt: HostRuntime) -> Result<(), Fail> {
    let given = Given {
        first: Some("0.1"),
        second: None,
        hold: Some("..="),
        at: Some("3,0,1"),
    };
    match asked(&rt, rt.alloc(), given, &[]) {
        Ok(asked) => {
            let pins = asked.admit.pins();
            assert!(rt; pins.len() == 6);
            assert!(rt; pins.trit(0) == Trit::Zero && pins.trit(1) == Trit::Free);
            assert!(rt; pins.trit(4) == Trit::One);
            assert!(rt; asked.circuit.moments() == [3u64, 0, 1].as_slice());
        }
        Err(_) => assert!(rt; false),
    }
    Ok(())
}

/// A word of another length, a name of no input, and a value that is too wide.
#[test]
fn refuses(rt: HostRuntime) -> Result<(), Fail> {
    let given = Given {
        second: Some("0"),
        ..nothing()
    };
    match asked(&rt, rt.alloc(), given, &[]) {
        Err(QuestionFault::BadVector(VectorWord::Second)) => {}
        _ => assert!(rt; false),
    }
    let named = [Taken {
        topic: Topic::Pin,
        text: b"c=1",
    }];
    match asked(&rt, rt.alloc(), nothing(), &named) {
        Err(QuestionFault::BadName(WordFault::NoInput(name), _)) => assert!(rt;
            name == b"c".as_slice()
        ),
        _ => assert!(rt; false),
    }
    let named = [Taken {
        topic: Topic::Pin,
        text: b"b=2",
    }];
    match asked(&rt, rt.alloc(), given, &named) {
        Err(QuestionFault::BadName(WordFault::Bad(..), _)) => {}
        _ => assert!(rt; false),
    }
    Ok(())
}

fn reading(rt: &impl Abort, alloc: Global) -> Reading<'static> {
    let Some(default) = Delay::new(1, 1) else {
        rt.abort();
    };
    Reading::whole(alloc, default)
}

/// The pins of admitted pairs, by place and by name together.
#[test]
fn pins_a_cube(rt: HostRuntime) -> Result<(), Fail> {
    let named = [Taken {
        topic: Topic::Pin,
        text: b"b=1",
    }];
    let given = Given {
        first: Some("0.."),
        ..nothing()
    };
    let inputs = Inputs {
        given,
        named: &named,
    };
    let question = Question {
        inputs,
        flips: None,
        keep_file: None,
        keep_text: None,
    };
    match question_of(rt.alloc(), TEXT, &reading(&rt, rt.alloc()), &question) {
        Ok(asked) => {
            let cube = asked.admit.pins();
            assert!(rt; cube.len() == 6);
            assert!(rt; cube.trit(0) == Trit::Zero && cube.trit(1) == Trit::Free);
            assert!(rt; cube.trit(4) == Trit::One && cube.trit(5) == Trit::One);
        }
        Err(_) => assert!(rt; false),
    }
    Ok(())
}

/// The levels of a pair, and a word of another length.
#[test]
fn spells_a_pair(rt: HostRuntime) -> Result<(), Fail> {
    let inputs = Inputs {
        given: nothing(),
        named: &[],
    };
    match pair_of(
        rt.alloc(),
        TEXT,
        &reading(&rt, rt.alloc()),
        &inputs,
        "01x",
        "111",
    ) {
        Ok(asked) => {
            assert!(rt; asked.first.as_slice() == [Level::Zero, Level::One, Level::X].as_slice());
            assert!(rt; asked.second.as_slice() == [Level::One, Level::One, Level::One].as_slice());
        }
        Err(_) => assert!(rt; false),
    }
    match pair_of(
        rt.alloc(),
        TEXT,
        &reading(&rt, rt.alloc()),
        &inputs,
        "01x",
        "11",
    ) {
        Err(QuestionFault::BadVector(VectorWord::To)) => {}
        _ => assert!(rt; false),
    }
    Ok(())
}

/// Gates that stand in another order than that of their signals, and a net with an `=` in its name.
const KEPT: &[u8] =
    b"module t(a, b, y);\ninput [1:0] a;\ninput b;\noutput y;\nwire \\n=1 ;\nand #2 g(y,\\n=1 ,a[0]);\nnot #1 h(\\n=1 ,b);\nendmodule\n";

/// What is asked about the inputs and gates of `KEPT` by words and lines of conditions.
fn kept<'a>(
    rt: &impl Abort,
    alloc: Global,
    named: &'a [Taken<'a>],
    lines: Option<&'a [u8]>,
) -> Result<Asked, QuestionFault<'static, 'a>> {
    let question = Question {
        inputs: Inputs {
            given: nothing(),
            named,
        },
        flips: None,
        keep_file: Some("conditions"),
        keep_text: lines,
    };
    question_of(alloc, KEPT, &reading(rt, alloc), &question)
}

fn keep<'a>(text: &'a [u8]) -> Taken<'a> {
    Taken {
        topic: Topic::Keep,
        text,
    }
}

fn levels(net: u64, first: Level, second: Level) -> NamedCondition {
    NamedCondition {
        net,
        form: Form::Levels(first, second),
    }
}

fn equal(net: u64) -> NamedCondition {
    NamedCondition {
        net,
        form: Form::Equal,
    }
}

/// Conditions come in the order of the netlist's nets and of the bytes of their forms, and repeats
/// are dropped, whatever the order of the words.
#[test]
fn keeps_conditions(rt: HostRuntime) -> Result<(), Fail> {
    let named = [
        keep(b"\\n=1 =0."),
        keep(b"\\n=1==="),
        keep(b"y=.1"),
        keep(b"a[0]=10"),
        Taken {
            topic: Topic::At,
            text: b"b=7",
        },
        keep(b"a[0]=10"),
        keep(b"a[0]=.0"),
        keep(b"a[0]=="),
        keep(b"a[1]=01"),
        keep(b"a[0]=1."),
    ];
    match kept(&rt, rt.alloc(), &named, None) {
        Err(QuestionFault::NoNet(name)) => assert!(rt; name.text == b"\\n=1 ".as_slice()),
        _ => assert!(rt; false),
    }
    let named = [
        keep(b"\\n=1=0."),
        keep(b"\\n=1=="),
        keep(b"y=.1"),
        keep(b"a[0]=10"),
        Taken {
            topic: Topic::At,
            text: b"b=7",
        },
        keep(b"a[0]=10"),
        keep(b"a[0]=.0"),
        keep(b"a[0]=="),
        keep(b"a[1]=01"),
        keep(b"a[0]=1."),
    ];
    let wanted = [
        levels(2, Level::Zero, Level::One),
        levels(3, Level::X, Level::Zero),
        levels(3, Level::One, Level::X),
        levels(3, Level::One, Level::Zero),
        equal(3),
        levels(5, Level::X, Level::One),
        levels(6, Level::Zero, Level::X),
        equal(6),
    ];
    match kept(&rt, rt.alloc(), &named, None) {
        Ok(asked) => {
            assert!(rt; asked.keep.as_slice() == wanted.as_slice());
            assert!(rt; asked.circuit.moments() == [0u64, 0, 7].as_slice());
        }
        Err(_) => assert!(rt; false),
    }
    match kept(&rt, rt.alloc(), &[], None) {
        Ok(asked) => assert!(rt; asked.keep.is_empty()),
        Err(_) => assert!(rt; false),
    }
    Ok(())
}

/// The first word of a condition that says none is refused, before those behind it.
#[test]
fn refuses_conditions(rt: HostRuntime) -> Result<(), Fail> {
    let bad: [&[u8]; 8] = [b"y=..", b"=01", b"==", b"y=0x", b"y=0", b"y", b"y=0=", b""];
    for word in &bad {
        let named = [keep(b"y=01"), keep(word), keep(b"z=01")];
        match kept(&rt, rt.alloc(), &named, None) {
            Err(QuestionFault::BadKeep(found)) => {
                assert!(rt; found.text == *word);
                assert!(rt; found.line.is_none());
            }
            _ => assert!(rt; false),
        }
    }
    let named = [keep(b"y=01"), keep(b"a=01"), keep(b"y=..")];
    match kept(&rt, rt.alloc(), &named, None) {
        Err(QuestionFault::NoNet(name)) => assert!(rt; name.text == b"a".as_slice()),
        _ => assert!(rt; false),
    }
    let named = [
        keep(b"y=.."),
        Taken {
            topic: Topic::Pin,
            text: b"c=1",
        },
    ];
    match kept(&rt, rt.alloc(), &named, None) {
        Err(QuestionFault::BadName(..)) => {}
        _ => assert!(rt; false),
    }
    Ok(())
}

/// The lines of a file say what words say, and are one set with them.
#[test]
fn keeps_lines(rt: HostRuntime) -> Result<(), Fail> {
    let named = [keep(b"a[0]=10"), keep(b"y=.1")];
    let lines: &[u8] =
        b"# all\n\n a[0]\t10 # again\r\n\\n=1\t==#\n  \\n=1   0.\na[1] 01\n#y ..\na[0] ==";
    let wanted = [
        levels(2, Level::Zero, Level::One),
        levels(3, Level::One, Level::Zero),
        equal(3),
        levels(5, Level::X, Level::One),
        levels(6, Level::Zero, Level::X),
        equal(6),
    ];
    match kept(&rt, rt.alloc(), &named, Some(lines)) {
        Ok(asked) => assert!(rt; asked.keep.as_slice() == wanted.as_slice()),
        Err(_) => assert!(rt; false),
    }
    match kept(&rt, rt.alloc(), &[], Some(b"# none\n\n")) {
        Ok(asked) => assert!(rt; asked.keep.is_empty()),
        Err(_) => assert!(rt; false),
    }
    Ok(())
}

/// The first line that says no condition is refused with its number, behind the words.
#[test]
fn refuses_lines(rt: HostRuntime) -> Result<(), Fail> {
    let bad: [&[u8]; 8] = [
        b"y ..", b"01", b"==", b"y 0x", b"y 0", b"y", b"y=01", b"y 01 a",
    ];
    for line in &bad {
        let mut text = Vec::new(rt.alloc());
        text.extend_from_slice(b"y 01\n\n ")?;
        text.extend_from_slice(line)?;
        text.extend_from_slice(b" # bad\nz 01\n")?;
        match kept(&rt, rt.alloc(), &[], Some(&text)) {
            Err(QuestionFault::BadKeep(found)) => {
                assert!(rt; found.text == *line);
                assert!(rt; found.line == Some(3));
            }
            _ => assert!(rt; false),
        }
    }
    match kept(&rt, rt.alloc(), &[], Some(b"y 01\n\\a#b [1] 01#\n")) {
        Err(QuestionFault::NoNet(name)) => {
            assert!(rt; name.text == b"\\a#b [1]".as_slice());
            assert!(rt; name.line == Some(2));
        }
        _ => assert!(rt; false),
    }
    let named = [keep(b"z=01")];
    match kept(&rt, rt.alloc(), &named, Some(b"y ..")) {
        Err(QuestionFault::NoNet(name)) => assert!(rt; name.line.is_none()),
        _ => assert!(rt; false),
    }
    Ok(())
}

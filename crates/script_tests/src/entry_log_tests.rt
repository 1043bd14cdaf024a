//! Lines against worked examples.
use arrayvec::ArrayVec;
use entry_log::{
    Actor, Effect, Effects, Entry, FinalRow, Holder, LockNo, Part, StatusNo, Step, Word,
    entry_text, final_text,
};
use std::process::Abort;
use sym_base::{Exit, ExitKind, Kind, MsgNo, Name, ObjNo, read_name};

fn one(first: Effect) -> Effects {
    let mut effects = Effects::new();
    effects.push(first);
    effects
}

fn two(first: Effect, second: Effect) -> Effects {
    let mut effects = Effects::new();
    effects.push(first);
    effects.push(second);
    effects
}

fn three(first: Effect, second: Effect, third: Effect) -> Effects {
    let mut effects = Effects::new();
    effects.push(first);
    effects.push(second);
    effects.push(third);
    effects
}

/// The effects of an entry: one, two or three, and else none.
fn effects_of(listed: &[Effect]) -> Effects {
    match listed {
        [first] => one(*first),
        [first, second] => two(*first, *second),
        [first, second, third] => three(*first, *second, *third),
        _ => Effects::new(),
    }
}

/// The parts of an entry, and its line.
#[derive(Clone, Copy)]
struct Shown {
    place: u32,
    actor: Actor,
    step: Step,
    effects: &'static [Effect],
    answer: Option<i32>,
    line: &'static str,
}

/// Compares the line of an entry with what was wanted.
fn expect_line(rt: &impl Abort, shown: &Shown) {
    let entry = Entry {
        place: shown.place,
        actor: shown.actor,
        step: shown.step,
        effects: effects_of(shown.effects),
        answer: shown.answer,
    };
    let mut out = ArrayVec::new();
    assert!(rt; entry_text(&entry, &mut out));
    assert_eq!(rt; out.as_slice(), shown.line.as_bytes());
}

/// Compares the lines of entries with what was wanted.
fn expect_lines(rt: &impl Abort, all: &[Shown]) {
    for shown in all {
        expect_line(rt, shown);
    }
}

/// The line of a row with these parts.
fn shows_row(
    rt: &impl Abort,
    number: u16,
    kind: Kind,
    name: Name,
    count: u32,
    exit: Option<Exit>,
    expected: &[u8],
) {
    let row = FinalRow {
        object: ObjNo(number),
        kind,
        name,
        count,
        exit,
    };
    let mut out = ArrayVec::new();
    assert!(rt; final_text(&row, &mut out));
    assert_eq!(rt; out.as_slice(), expected);
}

/// Entries that give references and take them away.
const REFERENCES: [Shown; 5] = [
    Shown {
        place: 1,
        actor: Actor::Thread(ObjNo(3)),
        step: Step::Of(Word::Server, Part::Do),
        effects: &[
            Effect::Plus(Holder::Own(ObjNo(3)), ObjNo(6)),
            Effect::Plus(Holder::InThread(ObjNo(3), 0), ObjNo(6)),
        ],
        answer: Some(1_073_807_360),
        line: "1 t3 server.do +own3:6 +t3.0:6 = 1073807360\n",
    },
    Shown {
        place: 6,
        actor: Actor::Thread(ObjNo(5)),
        step: Step::Of(Word::Connect, Part::Make),
        effects: &[
            Effect::Plus(Holder::InThread(ObjNo(5), 0), ObjNo(7)),
            Effect::Plus(Holder::Link(ObjNo(7)), ObjNo(6)),
        ],
        answer: None,
        line: "6 t5 connect.make +t5.0:7 +lnk7:6\n",
    },
    Shown {
        place: 6,
        actor: Actor::Thread(ObjNo(3)),
        step: Step::Of(Word::Close, Part::Do),
        effects: &[
            Effect::Minus(Holder::InProcess(ObjNo(2), 1), ObjNo(4)),
            Effect::Dead(ObjNo(4)),
        ],
        answer: Some(0),
        line: "6 t3 close.do -p2.1:4 dead:4 = 0\n",
    },
    Shown {
        place: 2,
        actor: Actor::Thread(ObjNo(3)),
        step: Step::Of(Word::Dup, Part::Look),
        effects: &[Effect::Plus(Holder::Temp(ObjNo(3)), ObjNo(4))],
        answer: None,
        line: "2 t3 dup.look +tmp3:4\n",
    },
    Shown {
        place: 12,
        actor: Actor::Thread(ObjNo(1)),
        step: Step::Drop,
        effects: &[
            Effect::Minus(Holder::Kernel, ObjNo(3)),
            Effect::Dead(ObjNo(3)),
        ],
        answer: None,
        line: "12 t1 drop -krn:3 dead:3\n",
    },
];

/// Entries of messages, requests and locks.
const MESSAGES_AND_LOCKS: [Shown; 6] = [
    Shown {
        place: 8,
        actor: Actor::Thread(ObjNo(5)),
        step: Step::Of(Word::Connect, Part::Send),
        effects: &[
            Effect::Accept(MsgNo(1)),
            Effect::Plus(Holder::Message(MsgNo(1)), ObjNo(7)),
            Effect::Plus(Holder::Message(MsgNo(1)), ObjNo(5)),
        ],
        answer: None,
        line: "8 t5 connect.send accept:1 +msg1:7 +msg1:5\n",
    },
    Shown {
        place: 11,
        actor: Actor::Thread(ObjNo(3)),
        step: Step::Of(Word::Complete, Part::Do),
        effects: &[
            Effect::Finish(MsgNo(1), 0),
            Effect::Signal(ObjNo(5), StatusNo::Sync, 0),
        ],
        answer: Some(0),
        line: "11 t3 complete.do finish:1:0 signal:5:w:0 = 0\n",
    },
    Shown {
        place: 50,
        actor: Actor::Thread(ObjNo(3)),
        step: Step::Finish,
        effects: &[
            Effect::Finish(MsgNo(2), -15),
            Effect::Signal(ObjNo(5), StatusNo::Async(0), -15),
        ],
        answer: None,
        line: "50 t3 finish finish:2:-15 signal:5:0:-15\n",
    },
    Shown {
        place: 20,
        actor: Actor::Thread(ObjNo(3)),
        step: Step::Free,
        effects: &[
            Effect::Give(ObjNo(3), LockNo::Object(ObjNo(6))),
            Effect::Take(ObjNo(5), LockNo::Object(ObjNo(6))),
            Effect::Plus(Holder::Own(ObjNo(5)), ObjNo(6)),
        ],
        answer: None,
        line: "20 t3 free give:3:6 take:5:6 +own5:6\n",
    },
    Shown {
        place: 18,
        actor: Actor::Thread(ObjNo(2)),
        step: Step::Of(Word::Funlock, Part::Do),
        effects: &[
            Effect::Give(ObjNo(2), LockNo::Fast(0)),
            Effect::Doom(ObjNo(2)),
        ],
        answer: Some(0),
        line: "18 t2 funlock.do give:2:f0 doom:2 = 0\n",
    },
    Shown {
        place: 65,
        actor: Actor::Thread(ObjNo(3)),
        step: Step::Stop,
        effects: &[
            Effect::Terminated(ObjNo(8)),
            Effect::Minus(Holder::Own(ObjNo(3)), ObjNo(8)),
        ],
        answer: None,
        line: "65 t3 stop ended:8 -own3:8\n",
    },
];

/// Entries of other steps.
const OTHER_STEPS: [Shown; 7] = [
    Shown {
        place: 4,
        actor: Actor::Thread(ObjNo(4)),
        step: Step::Of(Word::Open, Part::Seek),
        effects: &[Effect::Seek(ObjNo(5))],
        answer: None,
        line: "4 t4 open.seek seek:5\n",
    },
    Shown {
        place: 16,
        actor: Actor::Thread(ObjNo(4)),
        step: Step::Of(Word::Open, Part::Return),
        effects: &[Effect::Missed(ObjNo(5))],
        answer: Some(-1),
        line: "16 t4 open.return missed:5 = -1\n",
    },
    Shown {
        place: 7,
        actor: Actor::Thread(ObjNo(3)),
        step: Step::Sweep,
        effects: &[Effect::Swept(ObjNo(4))],
        answer: None,
        line: "7 t3 sweep swept:4\n",
    },
    Shown {
        place: 11,
        actor: Actor::Thread(ObjNo(1)),
        step: Step::Bury,
        effects: &[Effect::Bury(ObjNo(3))],
        answer: None,
        line: "11 t1 bury bury:3\n",
    },
    Shown {
        place: 5,
        actor: Actor::Irq(0),
        step: Step::Run,
        effects: &[],
        answer: None,
        line: "5 irq0 run\n",
    },
    Shown {
        place: 2,
        actor: Actor::Tick,
        step: Step::Turn,
        effects: &[],
        answer: None,
        line: "2 tick turn\n",
    },
    Shown {
        place: 16,
        actor: Actor::Idle,
        step: Step::Wait,
        effects: &[],
        answer: None,
        line: "16 idle wait\n",
    },
];

#[test]
fn references(rt: HostRuntime) {
    expect_lines(&rt, &REFERENCES);
}

#[test]
fn messages_and_locks(rt: HostRuntime) {
    expect_lines(&rt, &MESSAGES_AND_LOCKS);
}

/// The line of an entry of a deferred function call, which has no effects.
fn expect_call(rt: &impl Abort, place: u32, actor: Actor, step: Step, line: &'static str) {
    let shown = Shown {
        place,
        actor,
        step,
        effects: &[],
        answer: None,
        line,
    };
    expect_line(rt, &shown);
}

#[test]
fn other_steps(rt: HostRuntime) {
    expect_lines(&rt, &OTHER_STEPS);
    let name = read_name(b"lo").expect(&rt, "a name");
    expect_call(
        &rt,
        6,
        Actor::Thread(ObjNo(2)),
        Step::RunOf(name),
        "6 t2 lo.run\n",
    );
    expect_call(&rt, 4, Actor::Idfc, Step::MoveOf(name), "4 idfc lo.move\n");
}

#[test]
fn rows(rt: HostRuntime) {
    let name = read_name(b"k").expect(&rt, "a name");
    let category = read_name(b"E32USER-CBase").expect(&rt, "a category");
    let killed = Exit {
        kind: ExitKind::Kill,
        category: Name::EMPTY,
        reason: 5,
    };
    let panicked = Exit {
        kind: ExitKind::Panic,
        category,
        reason: 69,
    };
    shows_row(&rt, 2, Kind::Process, name, 2, None, b"2 process k 2\n");
    shows_row(&rt, 4, Kind::Thread, name, 1, None, b"4 thread k 1 live\n");
    shows_row(
        &rt,
        2,
        Kind::Thread,
        name,
        2,
        Some(killed),
        b"2 thread k 2 kill 5\n",
    );
    shows_row(
        &rt,
        2,
        Kind::Thread,
        name,
        0,
        Some(panicked),
        b"2 thread k 0 panic E32USER-CBase 69\n",
    );
    shows_row(
        &rt,
        7,
        Kind::Session,
        Name::EMPTY,
        3,
        None,
        b"7 session - 3\n",
    );
}

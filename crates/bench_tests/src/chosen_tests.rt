// What a query of chosen traces looks at, over a small file that is made by hand.
use crate::report_tests::on_survey;
use crate::tests::signed;
use bench_core::{
    Answer, AskFault, Bench, Chosen, ChosenQuery, Comparison, Condition, Items, Operand, Query,
    SampleRange, Side,
};
use room::Room;
use std::alloc::Global;
use std::process::Abort;
use std::test::Fail;

// Those on crossline 22 and behind; none where there is no memory for the condition.
fn behind(alloc: Global) -> Chosen {
    let condition = Condition {
        left: Side::Operand(Operand::Field(signed(193, 4))),
        comparison: Comparison::AtLeast,
        right: Side::Operand(Operand::Number(22)),
    };
    let mut conditions = Vec::new(alloc);
    match conditions.push(condition) {
        Ok(()) => Chosen {
            traces: Some((1, 3)),
            conditions: Items::new(conditions),
        },
        Err(_) => nothing(alloc),
    }
}

fn nothing(alloc: Global) -> Chosen {
    Chosen {
        traces: None,
        conditions: Items::new(Vec::new(alloc)),
    }
}

// Of how many traces samples are told, and from which one on.
fn told(asked: &Result<Answer, AskFault>) -> Option<(usize, u32)> {
    match asked {
        Ok(Answer::Section(section)) => {
            Some((section.traces.as_slice().len(), section.samples.from))
        }
        _ => None,
    }
}

// The answer names the traces and looks at none; each of them is then looked at once.
fn ask_for_samples(rt: &impl Abort, alloc: Global, bench: &mut Bench) {
    let range = SampleRange {
        from: 1,
        to: 9,
        step: 2,
    };
    let before = bench.volume().looks();
    let query = Query::OfChosen(behind(alloc), ChosenQuery::Samples(range));
    assert!(rt; told(&bench.ask(&mut Room::new(alloc), &query)) == Some((2, 1)));
    assert!(rt; bench.volume().looks() == before);
    assert!(rt; matches!(bench.look(2), Ok(Some(_))));
    assert!(rt; matches!(bench.look(4), Ok(None)));
    assert!(rt; bench.volume().looks() == before.saturating_add(1));
}

#[test]
fn tells_samples_of_chosen_traces(rt: HostRuntime) -> Result<(), Fail> {
    let alloc = rt.alloc();
    on_survey(
        alloc,
        &mut |bench: &mut Bench| ask_for_samples(&rt, alloc, bench),
    )
}

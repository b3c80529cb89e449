//! Small and full trees.

use bidi::columns::Columns;
use bidi::item::Item;
use rules::Class;
use std::test::Fail;
use tree::fault::Fault;
use tree::history::Recording;
use tree::request::{Change, Question, Told};
use tree::row::Row;
use tree::tree::Tree;

fn item(width: u8) -> Item {
    Item {
        class: Class::L,
        width,
    }
}

// Kept: the tests see the numbers that clients are told.
/// The number of a refusal, or 0.
fn refusal<A: Copy>(answer: Result<A, Fault>) -> u8 {
    answer.map_or_else(|fault| fault.number(), |_| 0)
}

/// The width of a total that was told.
fn width_told(answer: Result<Told<Item, Columns>, Fault>) -> Option<u32> {
    match answer {
        Ok(Told::Sum(total)) => Some(total.width),
        _ => None,
    }
}

#[test]
fn capacity_four_takes_four(rt: HostRuntime) {
    let mut rows: [Row<Item, Columns>; 4] = [Row::new(item(0)); 4];
    let mut tree = Tree::open(&mut rows);
    for _ in 0..4 {
        assert_eq!(rt; refusal(tree.insert(0, item(1))), 0);
    }
    assert_eq!(rt; refusal(tree.insert(0, item(1))), 2);
    assert_eq!(rt; refusal(tree.insert(9, item(1))), 1);
    assert_eq!(rt; refusal(tree.remove(1)), 0);
    assert_eq!(rt; refusal(tree.remove(2)), 0);
    assert_eq!(rt; tree.len(), 2);
    assert_eq!(rt; refusal(tree.insert(1, item(2))), 0);
    assert_eq!(rt; refusal(tree.insert(2, item(2))), 0);
    assert_eq!(rt; refusal(tree.insert(2, item(2))), 2);
}

#[test]
fn four_thousand_ascending_then_from_the_middle(rt: HostRuntime) -> Result<(), Fail> {
    let mut rows: [Row<Item, Columns>; 4096] = [Row::new(item(0)); 4096];
    let mut tree = Tree::open(&mut rows);
    for n in 0..4096usize {
        assert_eq!(rt; refusal(tree.insert(n, item((n % 3) as u8))), 0);
    }
    assert_eq!(rt; refusal(tree.insert(0, item(1))), 2);
    let Ok(total) = tree.total(0, 4096) else {
        return Err(Fail::new("the total of all"));
    };
    assert_eq!(rt; total.width, 4095);
    for _ in 0..4096usize {
        let middle = tree.len() / 2;
        let Ok(told) = tree.read(middle) else {
            return Err(Fail::new("the middle is there"));
        };
        assert!(rt; told.1 <= 16);
        assert_eq!(rt; refusal(tree.remove(middle)), 0);
    }
    assert_eq!(rt; refusal(tree.remove(0)), 1);
    assert_eq!(rt; tree.len(), 0);
    Ok(())
}

#[test]
fn a_recorded_history_is_answered(rt: HostRuntime) {
    let mut rows: [Row<Item, Columns>; 4] = [Row::new(item(0)); 4];
    let mut tree = Tree::open(&mut rows);
    let changes = [
        Change::Insert {
            place: 0,
            element: item(1),
        },
        Change::Insert {
            place: 1,
            element: item(2),
        },
        Change::Remove { place: 2 },
    ];
    let mut outcomes = [Ok(None); 3];
    let questions = [Question::Total { first: 0, end: 2 }];
    let mut answers = [Err(Fault::Place); 1];
    let mut recording = Recording {
        changes: &changes,
        outcomes: &mut outcomes,
        questions: &questions,
        answers: &mut answers,
    };
    assert_eq!(rt; tree.history(&mut recording), Ok(()));
    assert_eq!(rt; refusal(outcomes[1]), 0);
    assert_eq!(rt; refusal(outcomes[2]), 1);
    assert_eq!(rt; width_told(answers[0]), Some(3));
}

//! Outcomes made from tables.
ghost use Rattle.ras_syntax.specs.CellList.{HasWidth};

use crate::cases::Line;
use ras_cells::{Cell, CellFault, Numbers};
use ras_domain::{Interval, List, LockList, LockName, Mode, Name, Point, Region};
use ras_outcome::{AnswerLine, Outcome};
use ras_syntax::{
    Answer, CellList, CheckFault, Event, RowList, RowValue, Script, ShapeFault, Span,
};
use std::alloc::{AllocError, Global};
use std::test::Fail;

/// What a lock in the collection G is on.
#[derive(Clone, Copy)]
pub enum Held {
    Whole,
    Domain(u64),
    Tile(u64, &'static [i64]),
}

/// The bounds of a box.
pub type Axes = &'static [(i64, i64)];

/// A row of an answer.
#[derive(Clone, Copy)]
pub enum Shown {
    Null,
    Cell(&'static [i64]),
    Domain(Axes),
    /// Four cells of one number.
    Four(Axes, [i64; 4]),
    /// A cell of these two numbers, and a null.
    Pairs(Axes, i64, i64),
}

/// An event, with its numbers in order.
#[derive(Clone, Copy)]
pub enum Told {
    Begun(u32, u32, u32),
    Granted(u32, u32, u8, &'static [(Held, Mode)]),
    Refused(u32, u32, u8, Held, Mode, u32),
    Done(u32, u32, u64),
    Value(u32, u32, &'static [Shown]),
    Fault(u32, u32, &'static [i64], CellFault),
    Shape(u32, u32, u64, (u32, u32), ShapeFault),
    Check(u32, u32, (u32, u32), CheckFault),
    GaveUp(u32, u32),
    Committed(u32, u32),
    Aborted(u32),
}

fn point_of(coordinates: &[i64]) -> Result<Point, Fail> {
    Ok(Point::try_from(coordinates)?)
}

fn region_of(alloc: Global, axes: Axes) -> Result<Region, Fail> {
    let mut intervals = Vec::new(alloc);
    for (lo, hi) in axes {
        intervals.push(Interval { lo: *lo, hi: *hi })?;
    }
    Ok(Region::new(intervals.as_slice())?)
}

fn lock_of(alloc: Global, held: Held) -> Result<LockName, Fail> {
    let name = Name::of(alloc, b"G")?;
    match held {
        Held::Whole => Ok(LockName::Collection(name)),
        Held::Domain(id) => Ok(LockName::Domain(name, id)),
        Held::Tile(id, place) => Ok(LockName::Tile(name, id, point_of(place)?)),
    }
}

fn locks_of(alloc: Global, held: &[(Held, Mode)]) -> Result<LockList, Fail> {
    let mut list = LockList::new(alloc);
    for (lock, mode) in held {
        let Ok(()) = list.push(alloc, lock_of(alloc, *lock)?, *mode) else {
            return Err(Fail::from(AllocError));
        };
    }
    Ok(list)
}

fn one(number: i64) -> Cell
    ensures { HasWidth 1 result }
{
    let mut numbers = Numbers::new();
    numbers.push(number);
    Cell::Value(numbers)
}

fn two(first: i64, second: i64) -> Cell
    ensures { HasWidth 2 result }
{
    let mut numbers = Numbers::new();
    numbers.push(first);
    numbers.push(second);
    Cell::Value(numbers)
}

fn four_cells(alloc: Global, numbers: [i64; 4]) -> Result<CellList, AllocError> {
    let mut cells = CellList::with_room(alloc, 1, 4)?;
    cells.push(&one(numbers[0]));
    cells.push(&one(numbers[1]));
    cells.push(&one(numbers[2]));
    cells.push(&one(numbers[3]));
    Ok(cells)
}

fn pair_and_null(alloc: Global, first: i64, second: i64) -> Result<CellList, AllocError> {
    let mut cells = CellList::with_room(alloc, 2, 2)?;
    cells.push(&two(first, second));
    cells.push(&Cell::Null);
    Ok(cells)
}

fn row_of(alloc: Global, shown: Shown) -> Result<RowValue, Fail> {
    match shown {
        Shown::Null => Ok(RowValue::Scalar(Cell::Null)),
        Shown::Cell(numbers) => Ok(RowValue::Scalar(Cell::Value(Numbers::try_from(numbers)?))),
        Shown::Domain(axes) => Ok(RowValue::Domain(region_of(alloc, axes)?)),
        Shown::Four(axes, numbers) => Ok(RowValue::Array(
            region_of(alloc, axes)?,
            four_cells(alloc, numbers)?,
        )),
        Shown::Pairs(axes, first, second) => Ok(RowValue::Array(
            region_of(alloc, axes)?,
            pair_and_null(alloc, first, second)?,
        )),
    }
}

fn rows_of(alloc: Global, shown: &[Shown]) -> Result<RowList, Fail> {
    let mut rows = RowList::new(alloc);
    for row in shown {
        let Ok(()) = rows.push(alloc, row_of(alloc, *row)?) else {
            return Err(Fail::from(AllocError));
        };
    }
    Ok(rows)
}

fn span_of(span: (u32, u32)) -> Span {
    Span {
        from: span.0,
        to: span.1,
    }
}

fn answered(t: u32, statement: u32, answer: Answer) -> Event {
    Event::Answered {
        t,
        statement,
        answer,
    }
}

/// An event that isn't an answer.
fn step_of(alloc: Global, told: Told) -> Result<Option<Event>, Fail> {
    Ok(Some(match told {
        Told::Begun(t, session, statement) => Event::Begun {
            t,
            session,
            statement,
        },
        Told::Granted(t, statement, phase, held) => Event::Granted {
            t,
            statement,
            phase,
            list: locks_of(alloc, held)?,
        },
        Told::Refused(t, statement, phase, held, mode, holder) => Event::Refused {
            t,
            statement,
            phase,
            lock: lock_of(alloc, held)?,
            mode,
            holder,
        },
        Told::GaveUp(t, statement) => Event::GaveUp { t, statement },
        Told::Committed(t, number) => Event::Committed { t, number },
        Told::Aborted(t) => Event::Aborted { t },
        _ => return Ok(None),
    }))
}

fn event_of(alloc: Global, told: Told) -> Result<Event, Fail> {
    match step_of(alloc, told)? {
        Some(event) => Ok(event),
        None => Ok(answer_of(alloc, told)?),
    }
}

/// An event that answers a statement.
fn answer_of(alloc: Global, told: Told) -> Result<Event, Fail> {
    match told {
        Told::Done(t, statement, n) => Ok(answered(t, statement, Answer::Done(n))),
        Told::Value(t, statement, rows) => Ok(answered(
            t,
            statement,
            Answer::Value(rows_of(alloc, rows)?),
        )),
        Told::Fault(t, statement, point, fault) => {
            let point = point_of(point)?;
            let row = 1;
            Ok(answered(t, statement, Answer::Fault { row, point, fault }))
        }
        Told::Shape(t, statement, row, span, fault) => {
            let span = span_of(span);
            Ok(answered(t, statement, Answer::Shape { row, span, fault }))
        }
        Told::Check(t, statement, span, fault) => {
            let span = span_of(span);
            Ok(answered(t, statement, Answer::Check { span, fault }))
        }
        _ => Err(Fail::from(AllocError)),
    }
}

fn lines_of(alloc: Global, lines: &[Line]) -> Result<List<AnswerLine>, Fail> {
    let mut list = Vec::new(alloc);
    for (statement, transaction, answer) in lines {
        list.push(AnswerLine {
            statement: *statement,
            transaction: *transaction,
            answer: *answer,
        })?;
    }
    Ok(List::of(list))
}

/// The outcome with these lines and events.
pub fn outcome_of(alloc: Global, lines: &[&[Line]], events: &[Told]) -> Result<Outcome, Fail> {
    let mut answers = Vec::new(alloc);
    for of_session in lines {
        answers.push(lines_of(alloc, of_session)?)?;
    }
    let mut history = Vec::new(alloc);
    for told in events {
        history.push(event_of(alloc, *told)?)?;
    }
    Ok(Outcome {
        answers: List::of(answers),
        history: List::of(history),
    })
}

/// Scripts of these names, with no statement.
pub fn scripts_of(alloc: Global, names: &[&str]) -> Result<Vec<Script>, Fail> {
    let mut scripts = Vec::new(alloc);
    for name in names {
        scripts.push(Script {
            name: Name::of(alloc, name.as_bytes())?,
            statements: List::new(alloc),
        })?;
    }
    Ok(scripts)
}

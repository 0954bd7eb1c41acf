//! Runs with their reports, worked out by hand.
use crate::made::{Held, Shown, Told};
use ras_cells::CellFault;
use ras_domain::Mode;
use ras_outcome::SessionAnswer;
use ras_syntax::{CheckFault, ShapeFault, SyntaxFault};

/// A line: the numbers of its statement and of its transaction, and its answer.
pub type Line = (u32, u32, SessionAnswer);

/// The names of the sessions, their lines, the events and the report.
pub type Case = (
    &'static [&'static str],
    &'static [&'static [Line]],
    &'static [Told],
    &'static str,
);

const SHARED: Mode = Mode::Shared;

const EXCLUSIVE: Mode = Mode::Exclusive;

/// No session, and no event.
pub const EMPTY: Case = (&[], &[], &[], "#rasq report 1\n#history\n#end\n");

/// A session whose select trims an array.
pub const TRIM: Case = (
    &["A"],
    &[&[(1, 1, SessionAnswer::Recorded)]],
    &[
        Told::Begun(1, 1, 1),
        Told::Granted(1, 1, 1, &[(Held::Whole, SHARED)]),
        Told::Granted(1, 1, 2, &[(Held::Domain(1), SHARED)]),
        Told::Granted(
            1,
            1,
            4,
            &[
                (Held::Tile(1, &[0, 0]), SHARED),
                (Held::Tile(1, &[0, 1]), SHARED),
                (Held::Tile(1, &[-1, 0]), EXCLUSIVE),
            ],
        ),
        Told::Value(1, 1, &[Shown::Four(&[(1, 2), (1, 2)], [5, 6, 9, 10])]),
        Told::Committed(1, 1),
    ],
    "#rasq report 1\n#session A\n1 1 value 1\nrow [1:2,1:2] 5 6 9 10\n#history\nbegun 1 session 1 statement 1\n\
     granted 1 1 phase 1: S collection G\ngranted 1 1 phase 2: S domain G 1\n\
     granted 1 1 phase 4: S tile G 1 [0,0], S tile G 1 [0,1], X tile G 1 [-1,0]\n\
     answered 1 1\ncommitted 1 1\n#end\n",
);

/// A session whose select meets another one's update, and is refused. The lines of the first session
/// come in another order than its events do.
pub const MET: Case = (
    &["first", "B"],
    &[
        &[
            (1, 1, SessionAnswer::Begun),
            (3, 1, SessionAnswer::Recorded),
            (2, 1, SessionAnswer::Recorded),
            (4, 1, SessionAnswer::Committed { n: 2 }),
        ],
        &[
            (1, 2, SessionAnswer::Recorded),
            (2, 3, SessionAnswer::Recorded),
        ],
    ],
    &[
        Told::Begun(1, 1, 1),
        Told::Granted(1, 2, 4, &[(Held::Tile(1, &[0, 0]), EXCLUSIVE)]),
        Told::Done(1, 2, 1),
        Told::Done(1, 3, 18_446_744_073_709_551_615),
        Told::Begun(2, 2, 1),
        Told::Refused(2, 1, 4, Held::Tile(1, &[0, 0]), SHARED, 1),
        Told::Aborted(2),
        Told::Begun(3, 2, 2),
        Told::Refused(3, 2, 1, Held::Whole, EXCLUSIVE, 2),
        Told::Aborted(3),
        Told::Committed(1, 2),
    ],
    "#rasq report 1\n#session first\n1 1 begun\n3 1 done 18446744073709551615\n2 1 done 1\n4 1 committed 2\n\
     #session B\n1 2 locked tile G 1 [0,0] holder 1 of first\n2 3 locked collection G holder 2 of B\n#history\n\
     begun 1 session 1 statement 1\ngranted 1 2 phase 4: X tile G 1 [0,0]\nanswered 1 2\nanswered 1 3\n\
     begun 2 session 2 statement 1\nrefused 2 1 phase 4 S tile G 1 [0,0] holder 1\naborted 2\n\
     begun 3 session 2 statement 2\nrefused 3 2 phase 1 X collection G holder 2\naborted 3\ncommitted 1 2\n#end\n",
);

/// Lines, answers and events of each kind.
pub const EACH: Case = (
    &["b_2"],
    &[&[
        (1, 0, SessionAnswer::NoTransaction),
        (2, 1, SessionAnswer::Begun),
        (3, 1, SessionAnswer::InTransaction),
        (4, 1, SessionAnswer::Recorded),
        (5, 1, SessionAnswer::Recorded),
        (6, 1, SessionAnswer::Recorded),
        (7, 1, SessionAnswer::Recorded),
        (
            8,
            1,
            SessionAnswer::Syntax(SyntaxFault::Unexpected { place: 13 }),
        ),
        (9, 1, SessionAnswer::Memory),
        (10, 1, SessionAnswer::Aborted { statement: 8 }),
    ]],
    &[
        Told::Begun(1, 1, 2),
        Told::Fault(1, 4, &[0, -3], CellFault::DivideByZero),
        Told::Shape(1, 5, 0, (0, 20), ShapeFault::ReplyTooLarge),
        Told::Check(1, 6, (14, 15), CheckFault::NoCollection),
        Told::Value(1, 7, &[]),
        Told::GaveUp(1, 9),
        Told::Aborted(1),
    ],
    "#rasq report 1\n#session b_2\n1 0 no transaction\n2 1 begun\n3 1 in transaction\n\
     4 1 fault divide_by_zero row 1 at [0,-3]\n5 1 shape reply_too_large row 0 span 0:20\n\
     6 1 check no_collection span 14:15\n7 1 value 0\n8 1 syntax unexpected at 13\n9 1 memory\n10 1 aborted 8\n#history\n\
     begun 1 session 1 statement 2\nanswered 1 4\nanswered 1 5\nanswered 1 6\nanswered 1 7\ngave up 1 9\naborted 1\n#end\n",
);

/// Rows of each kind.
pub const ROWS: Case = (
    &["A"],
    &[&[(1, 7, SessionAnswer::Recorded)]],
    &[Told::Value(
        7,
        1,
        &[
            Shown::Null,
            Shown::Cell(&[-9_223_372_036_854_775_808]),
            Shown::Cell(&[1, 2]),
            Shown::Cell(&[0, -10, 9_223_372_036_854_775_807]),
            Shown::Domain(&[(-1, 3)]),
            Shown::Domain(&[(-2_147_483_648, -2_147_483_647), (0, 0), (4, 5)]),
            Shown::Pairs(&[(0, 1)], 3, -4),
        ],
    )],
    "#rasq report 1\n#session A\n1 7 value 7\nrow null\nrow -9223372036854775808\nrow {1,2}\n\
     row {0,-10,9223372036854775807}\nrow sdom [-1:3]\nrow sdom [-2147483648:-2147483647,0:0,4:5]\n\
     row [0:1] {3,-4} null\n#history\nanswered 7 1\n#end\n",
);

/// A line whose event isn't there, and a holder that never began.
pub const LOOSE: Case = (
    &["A"],
    &[&[
        (1, 1, SessionAnswer::Recorded),
        (2, 1, SessionAnswer::Recorded),
    ]],
    &[Told::Refused(1, 2, 3, Held::Domain(9), EXCLUSIVE, 5)],
    "#rasq report 1\n#session A\n1 1 \n2 1 locked domain G 9 holder 5 of \n#history\n\
     refused 1 2 phase 3 X domain G 9 holder 5\n#end\n",
);

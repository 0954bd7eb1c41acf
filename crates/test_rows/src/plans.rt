//! Plans of statements over G, whose one array is on [0:3,0:3]. Its type goes from 0 to 9999 on both axes, in tiles
//! of two by two.
use arrayvec::ArrayVec;
use ras_cells::{Atom, CellType, NullSet};
use ras_check::check;
use ras_domain::{Bounds, Interval, List, Name, Region};
use ras_parse::parse_statement;
use ras_rows::{Plan, Stop, plan_rows};
use ras_shape::Form;
use ras_store::{Change, Changes, RowSet, View};
use ras_syntax::{Answer, Checked, SetType, ShapeFault, Span, Types};
use std::alloc::{AllocError, Global};
use std::process::Abort;
use std::test::Fail;

/// A lower and an upper bound on each of two axes.
type Ends = [(i64, i64); 2];

/// What a statement comes to: its one plan's domain after the write and what it writes, or a fault with its place in
/// the text.
type Told = Result<(Ends, Ends), (u32, u32, ShapeFault)>;

fn grey(alloc: Global) -> Result<SetType, AllocError> {
    let mut bounds = Bounds::new();
    let mut extents = ArrayVec::new();
    for _ in 0..2 {
        let _ = bounds.try_push(Interval { lo: 0, hi: 9_999 });
        let _ = extents.try_push(2);
    }
    Ok(SetType {
        name: Name::of(alloc, b"Grey")?,
        cell: CellType::Atom(Atom::Char),
        names: List::new(alloc),
        bounds,
        extents,
        nulls: NullSet::new(),
    })
}

/// The view of the domain of the array 1 of G.
fn view_of_g(alloc: Global) -> Result<View, Fail> {
    let axis = Interval { lo: 0, hi: 3 };
    let domain = Region::new(&[axis, axis])?;
    let mut changes = Changes::new(alloc);
    let change = Change::Domain(Name::of(alloc, b"G")?, 1, Some(domain));
    changes.add(alloc, change).map_err(|_| AllocError)?;
    let mut view = View::new(alloc);
    view.reserve_for(alloc, &changes)?;
    view.apply_prepared(changes);
    Ok(view)
}

/// A text that is parsed and checked.
fn checked(rt: &(impl Abort + AllocGlobal), text: &str) -> Result<Checked, Fail> {
    let alloc = rt.alloc();
    let mut types = Types::new(alloc);
    types.push(alloc, grey(alloc)?).map_err(|_| AllocError)?;
    let collections = [(Name::of(alloc, b"G")?, Some(0))];
    assert!(rt; text.len() < 4_294_967_296);
    let statement = parse_statement(alloc, text.as_bytes()).map_err(|_| "not a statement")?;
    let checked = check(alloc, &statement, &types, &collections).map_err(|_| "not checked")?;
    Ok(checked)
}

/// One row, of G's array where the statement has a source.
fn one_row(alloc: Global, text: &str) -> Result<RowSet, AllocError> {
    let mut rows = RowSet::new(alloc);
    let mut oids = Vec::new(alloc);
    if !text.starts_with("insert") {
        oids.push(1)?;
    }
    match rows.push(alloc, 1, oids) {
        Ok(()) => Ok(rows),
        Err(_) => Err(AllocError),
    }
}

/// The bounds of the two axes of a region.
fn ends_of(region: &Region) -> Option<Ends> {
    match region.axes() {
        [first, second] => Some([(first.lo, first.hi), (second.lo, second.hi)]),
        _ => None,
    }
}

/// The domain after the write, and what is written.
fn written(plans: &[Plan<'_>]) -> Option<(Ends, Ends)> {
    let writing = plans.first()?.writing.as_ref()?;
    Some((ends_of(&writing.grown)?, ends_of(&writing.region)?))
}

/// What a statement comes to. A fault is of the first row.
fn told(rt: &(impl Abort + AllocGlobal), text: &str) -> Result<Told, Fail> {
    let alloc = rt.alloc();
    let checked = checked(rt, text)?;
    let view = view_of_g(alloc)?;
    let rows = one_row(alloc, text)?;
    match plan_rows(alloc, &checked, &view, &rows) {
        Ok(plans) => Ok(Ok(written(plans.as_slice()).ok_or("nothing is written")?)),
        Err(Stop::Answer(Answer::Shape { row, span, fault })) => {
            assert_eq!(rt; row, 1);
            Ok(Err((span.from, span.to, fault)))
        }
        Err(_) => Err("no answer".into()),
    }
}

#[test]
fn a_write_has_its_region_and_the_grown_domain(rt: HostRuntime) -> Result<(), Fail> {
    let old = [(0, 3), (0, 3)];
    for (text, grown, region) in [
        (
            "update G as a set a[4:4,0:0] assign marray p in [4:4,0:0] values 99",
            [(0, 4), (0, 3)],
            [(4, 4), (0, 0)],
        ),
        (
            "update G as a set a[0:1,0:1] assign a[0:1,0:1] + 1",
            old,
            [(0, 1), (0, 1)],
        ),
        (
            "update G as a set a[2,0:1] assign marray p in [0:1] values 7",
            old,
            [(2, 2), (0, 1)],
        ),
        (
            "update G as a set a[*:*,1] assign marray p in [0:3] values 7",
            old,
            [(0, 3), (1, 1)],
        ),
        ("update G as a set a assign a + 1", old, old),
        (
            "update G as a set a assign marray p in [5:6,1:2] values 1",
            [(0, 6), (0, 3)],
            [(5, 6), (1, 2)],
        ),
        (
            "insert into G values marray p in [7:8,9:9] values 1",
            [(7, 8), (9, 9)],
            [(7, 8), (9, 9)],
        ),
    ] {
        assert_eq!(rt; told(&rt, text)?, Ok((grown, region)), "{text}");
    }
    Ok(())
}

#[test]
fn the_first_fault_of_a_plan_is_told(rt: HostRuntime) -> Result<(), Fail> {
    for (text, from, to, fault) in [
        // Of the target a bound out of 32 bits comes before an empty trim.
        (
            "update G as a set a[3:2,2147483648:2147483648] assign a",
            18,
            46,
            ShapeFault::BoundOut,
        ),
        (
            "update G as a set a[2147483648,0:1] assign marray p in [0:1] values 1",
            18,
            35,
            ShapeFault::BoundOut,
        ),
        // The target comes before the body, and the body before their domains are compared.
        (
            "update G as a set a[3:2,0:0] assign a[0:4,0:0]",
            18,
            28,
            ShapeFault::EmptyDomain,
        ),
        (
            "update G as a set a[0:1,0:0] assign a[0:4,0:0]",
            36,
            46,
            ShapeFault::Outside,
        ),
        (
            "update G as a set a[0:1,0:0] assign a",
            36,
            37,
            ShapeFault::DomainsDiffer,
        ),
        // What is written lies within the type's bounds, and the array isn't too large afterwards.
        (
            "update G as a set a assign marray p in [0:1,-1:0] values 1",
            27,
            58,
            ShapeFault::Outside,
        ),
        (
            "insert into G values marray p in [0:1,-1:0] values 1",
            21,
            52,
            ShapeFault::Outside,
        ),
        (
            "update G as a set a assign marray p in [9999:9999,9999:9999] values 1",
            27,
            69,
            ShapeFault::ArrayTooLarge,
        ),
        (
            "update G as a set a assign marray p in [1023:1023,1023:1023] values 1",
            27,
            69,
            ShapeFault::TooManyTiles,
        ),
        (
            "insert into G values marray p in [0:1023,0:1023] values 1",
            21,
            57,
            ShapeFault::TooManyTiles,
        ),
        ("select a[0:4,0:0] from G as a", 7, 17, ShapeFault::Outside),
    ] {
        assert_eq!(rt; told(&rt, text)?, Err((from, to, fault)), "{text}");
    }
    Ok(())
}

/// The shape fault of a select for the whole text, none where it has a plan.
fn refused(
    rt: &(impl Abort + AllocGlobal),
    text: &str,
) -> Result<Option<(Span, ShapeFault)>, Fail> {
    let alloc = rt.alloc();
    let checked = checked(rt, text)?;
    let view = view_of_g(alloc)?;
    let rows = one_row(alloc, text)?;
    match plan_rows(alloc, &checked, &view, &rows) {
        Ok(plans) => {
            let plan = plans.first().ok_or("no plan")?;
            assert!(rt; matches!(plan.shape, Form::Array(_)));
            assert!(rt; plan.writing.is_none());
            Ok(None)
        }
        Err(Stop::Answer(Answer::Shape { row, span, fault })) => {
            assert_eq!(rt; row, 0);
            Ok(Some((span, fault)))
        }
        Err(_) => Err("no answer".into()),
    }
}

#[test]
fn a_reply_has_at_most_262144_cells(rt: HostRuntime) -> Result<(), Fail> {
    let most = "select marray p in [0:511,0:511] values 1 from G as a";
    assert_eq!(rt; refused(&rt, most)?, None);
    let more = "select marray p in [0:511,0:512] values 1 from G as a";
    let whole = Span { from: 0, to: 53 };
    assert_eq!(rt;
        refused(&rt, more)?,
        Some((whole, ShapeFault::ReplyTooLarge))
    );
    Ok(())
}

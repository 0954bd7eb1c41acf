//! Texts that the check accepts, with the kinds of their bodies, and what is told apart in them. The kinds are worked out
//! by hand from the rules.
use crate::told::checked;
use ras_check::CheckError;
use ras_syntax::{CheckedForm, Kind, Part, TypedForm};
use std::alloc::{AllocError, Global};
use std::process::Abort;
use std::test::Fail;

/// Each form of expression, and each form of statement that has a body: a line is the kind of a body, and a text.
const BODIES: &str = "\
Scalar(Atom(Bool))|select true
Scalar(Atom(Wide))|select 1
Scalar(Atom(Ushort))|select 1us
Array { cell: Atom(Char), axes: 2 }|select a from G as a
Array { cell: Atom(Char), axes: 1 }|select N from N
Array { cell: Composite([Char, Char, Char]), axes: 1 }|select c from R as c
Array { cell: Atom(Wide), axes: 2 }|select -a from G as a
Scalar(Atom(Wide))|select abs(1c)
Array { cell: Atom(Bool), axes: 2 }|select not (a > 1) from G as a
Array { cell: Atom(Octet), axes: 2 }|select (octet) a from G as a
Scalar(Atom(Bool))|select (bool) 1
Array { cell: Atom(Wide), axes: 2 }|select a + 1 from G as a
Scalar(Atom(Wide))|select div(1c, 2c) * mod(3, 4) - 5
Array { cell: Atom(Bool), axes: 1 }|select b <= b from N as b
Scalar(Atom(Bool))|select true = false
Array { cell: Atom(Bool), axes: 2 }|select true and (a > 1) from G as a
Scalar(Atom(Bool))|select true or false xor true
Array { cell: Atom(Bool), axes: 2 }|select bit(a, 0) from G as a
Array { cell: Atom(Char), axes: 2 }|select a overlay a from G as a
Array { cell: Atom(Wide), axes: 2 }|select a overlay (a + 1) from G as a
Array { cell: Composite([Char, Char, Char]), axes: 1 }|select c overlay c from R as c
Array { cell: Atom(Char), axes: 2 }|select a[0:1,*:*] from G as a
Array { cell: Atom(Char), axes: 1 }|select a[0,*:*] from G as a
Scalar(Atom(Char))|select a[a[0,0],1c] from G as a
Array { cell: Atom(Char), axes: 2 }|select a[sdom(a)[0].lo:1+2*3,-1:*] from G as a
Scalar(Composite([Char, Char, Char]))|select c[0] from R as c
Array { cell: Atom(Char), axes: 1 }|select c.green from R as c
Scalar(Atom(Char))|select c[0].2 from R as c
Scalar(Atom(Char))|select {1, 2c}.1
Scalar(Atom(Wide))|select sdom(a)[1].hi from G as a
Domain { axes: 2 }|select sdom(a) from G as a
Scalar(Atom(Wide))|select oid(a) from G as a
Array { cell: Atom(Char), axes: 2 }|select case when a > 1 then a else 0c end from G as a
Scalar(Atom(Wide))|select case when true then 1c when false then 2 else 3o end
Scalar(Composite([Char, Char, Char]))|select case when true then {1c, 2c, 3c} else c[0] end from R as c
Array { cell: Composite([Char, Bool]), axes: 2 }|select {a, true} from G as a
Scalar(Composite([Wide]))|select struct {1}
Array { cell: Atom(Wide), axes: 1 }|select marray p in [0:3] values p[0]
Array { cell: Atom(Char), axes: 2 }|select marray p in sdom(a) values a[p] from G as a
Array { cell: Composite([Wide, Wide]), axes: 1 }|select marray p in [0:1] values {p[0], 10}
Array { cell: Atom(Bool), axes: 6 }|select marray p in [0:1,0:1,0:1,0:1,0:1,0:1] values true
Array { cell: Atom(Wide), axes: 1 }|select marray p in [0:1] values condense + over q in [0:1,0:1] using p[0] + q[1]
Scalar(Atom(Char))|select condense max over p in sdom(a) where a[p] > 1 using a[p] from G as a
Scalar(Atom(Bool))|select condense or over p in [0:1] using p[0] = 1
Scalar(Atom(Wide))|select add_cells(a) from G as a
Scalar(Atom(Char))|select min_cells(a) from G as a
Scalar(Atom(Wide))|select count_cells(a > 1) from G as a
Scalar(Atom(Bool))|select all_cells(a > 1) from G as a
Array { cell: Atom(Char), axes: 2 }|select shift(a, [1, -1]) from G as a
Array { cell: Composite([Char, Char, Char]), axes: 1 }|select extend(c, [0:9]) from R as c
Array { cell: Atom(Char), axes: 1 }|select extend(b, sdom(b)) from N as b
Array { cell: Atom(Wide), axes: 1 }|select concat b with b + 1 along 0 from N as b
Array { cell: Atom(Char), axes: 2 }|select concat a with a along 1 from G as a
Array { cell: Atom(Char), axes: 2 }|select a from G as a, N where some_cells(a > 1)
Scalar(Atom(Wide))|select 1c + 2l
Scalar(Atom(Wide))|select 1c - 2l
Scalar(Atom(Wide))|select 1c * 2l
Scalar(Atom(Wide))|select div(1c, 2l)
Scalar(Atom(Wide))|select mod(1c, 2l)
Scalar(Atom(Bool))|select 1c = 2l
Scalar(Atom(Bool))|select 1c != 2l
Scalar(Atom(Bool))|select true != false
Scalar(Atom(Bool))|select 1c < 2l
Scalar(Atom(Bool))|select 1c <= 2l
Scalar(Atom(Bool))|select 1c > 2l
Scalar(Atom(Bool))|select 1c >= 2l
Scalar(Atom(Bool))|select true and false
Scalar(Atom(Bool))|select true or false
Scalar(Atom(Bool))|select true xor false
Scalar(Atom(Bool))|select bit(1c, 2l)
Array { cell: Atom(Wide), axes: 2 }|insert into G values marray p in [0:1,0:1] values 1
Array { cell: Composite([Wide, Wide, Wide]), axes: 1 }|insert into R values marray p in [0:1] values {p[0], 10, 20}
Array { cell: Atom(Wide), axes: 2 }|update G set G assign G + 1
Array { cell: Atom(Wide), axes: 1 }|update G as a set a[0:1, 0] assign marray p in [0:1] values 1 where oid(a) = 1";

/// A kind in text.
fn shown(alloc: Global, kind: &Kind) -> Result<String, AllocError> {
    format!(in alloc; "{kind:?}")
}

/// The kind of a statement's body in text, if it has one.
pub fn kind_in(alloc: Global, form: &CheckedForm) -> Result<String, AllocError> {
    match form {
        CheckedForm::Select { body, .. } => shown(alloc, &body.kind),
        CheckedForm::Insert { body, .. } => shown(alloc, &body.kind),
        CheckedForm::Update { body, .. } => shown(alloc, &body.kind),
        CheckedForm::Delete { .. } => String::from_str(alloc, "None"),
        CheckedForm::Create { .. } => String::from_str(alloc, "None"),
        CheckedForm::Drop { .. } => String::from_str(alloc, "None"),
    }
}

/// The kind of the body of a text in text.
fn body_kind(rt: &(impl Abort + AllocGlobal), text: &str) -> Result<String, CheckError> {
    let found = checked(rt, text.as_bytes())?;
    Ok(kind_in(rt.alloc(), &found.form)?)
}

#[test]
fn each_body_has_its_kind(rt: HostRuntime) -> Result<(), Fail> {
    for line in BODIES.split('\n') {
        let (wanted, text) = line.split_once('|').unwrap_or((line, ""));
        let found = body_kind(&rt, text)?;
        assert_eq!(rt; found.as_str(), wanted, "{text}");
    }
    Ok(())
}

/// The place of the source that an iterator goes over, or the number of a component.
fn number_of(form: &TypedForm) -> Option<i64> {
    if let TypedForm::Iterator { place, .. } = form {
        return Some(i64::from(*place));
    }
    if let TypedForm::Part {
        part: Part::Numbered(number),
        ..
    } = form
    {
        return Some(*number);
    }
    None
}

/// The number of a select's or an update's body, or the place of the type of what is created.
fn number_in(form: &CheckedForm) -> Option<i64> {
    match form {
        CheckedForm::Select { body, .. } => number_of(&body.form),
        CheckedForm::Update { body, .. } => number_of(&body.form),
        CheckedForm::Create { of, .. } => Some(i64::from(*of)),
        CheckedForm::Insert { .. } => None,
        CheckedForm::Delete { .. } => None,
        CheckedForm::Drop { .. } => None,
    }
}

/// Lines of a number, and a text.
const NUMBERS: &str = "\
Some(0)|select a from G as a, N as b
Some(1)|select b from G as a, N as b
Some(1)|select N from G, N
Some(0)|update G as a set a assign a
Some(0)|select a.red from R as a
Some(2)|select a.blue from R as a
Some(1)|select a.1 from R as a
Some(1)|select (a overlay a).green from R as a
Some(2)|select shift(a, [1]).blue from R as a
Some(2)|select (case when true then a else {1c, 2c, 3c} end).blue from R as a
None|select sdom(a)[0].lo from G as a
Some(0)|create collection X GreySet
Some(2)|create collection K RgbSet
None|drop collection G
None|delete from G as a where oid(a) = 1";

/// The number in a text, as the table writes it.
fn number_told(rt: &(impl Abort + AllocGlobal), text: &str) -> Result<String, CheckError> {
    let found = checked(rt, text.as_bytes())?;
    let number = number_in(&found.form);
    Ok(format!(in rt.alloc(); "{number:?}")?)
}

#[test]
fn names_are_told_apart(rt: HostRuntime) -> Result<(), Fail> {
    for line in NUMBERS.split('\n') {
        let (wanted, text) = line.split_once('|').unwrap_or((line, ""));
        let found = number_told(&rt, text)?;
        assert_eq!(rt; found.as_str(), wanted, "{text}");
    }
    Ok(())
}

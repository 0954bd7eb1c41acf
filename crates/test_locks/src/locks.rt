//! The lock table against what is worked out by hand, and against a plain account.
use ras_domain::{LockList, LockName, Mode, Name, Point};
use ras_locks::LockTable;
use std::alloc::{AllocError, Global};
use std::test::Fail;

type Lock = (LockName, Mode);

fn collection(alloc: Global) -> Result<LockName, AllocError> {
    Ok(LockName::Collection(Name::of(alloc, b"G")?))
}

fn domain(alloc: Global) -> Result<LockName, AllocError> {
    Ok(LockName::Domain(Name::of(alloc, b"G")?, 1))
}

fn tile(alloc: Global, row: i64, column: i64) -> Result<LockName, AllocError> {
    let mut place = Point::new();
    place.push(row);
    place.push(column);
    Ok(LockName::Tile(Name::of(alloc, b"G")?, 1, place))
}

fn add(alloc: Global, list: &mut LockList, lock: Lock) -> Result<(), AllocError> {
    match list.push(alloc, lock.0, lock.1) {
        Ok(()) => Ok(()),
        Err(_) => Err(AllocError),
    }
}

/// What a select needs of the array, and a lock on one of its tiles.
fn on_tile(alloc: Global, row: i64, column: i64, mode: Mode) -> Result<LockList, AllocError> {
    let mut list = LockList::new(alloc);
    add(alloc, &mut list, (collection(alloc)?, Mode::Shared))?;
    add(alloc, &mut list, (domain(alloc)?, Mode::Shared))?;
    add(alloc, &mut list, (tile(alloc, row, column)?, mode))?;
    Ok(list)
}

fn one_lock(alloc: Global, name: LockName, mode: Mode) -> Result<LockList, AllocError> {
    let mut list = LockList::new(alloc);
    add(alloc, &mut list, (name, mode))?;
    Ok(list)
}

/// Grants a list, or gives its first conflict.
fn ask(
    alloc: Global,
    table: &mut LockTable,
    list: LockList,
    owner: u32,
) -> Result<Option<(usize, u32)>, AllocError> {
    table.reserve(alloc, &list, owner)?;
    match table.first_conflict(&list, owner) {
        Some(conflict) => Ok(Some(conflict)),
        None => {
            table.grant(list, owner);
            Ok(None)
        }
    }
}

#[test]
fn a_tile_is_refused_until_its_holder_ends(rt: HostRuntime) -> Result<(), Fail> {
    let alloc = rt.alloc();
    let mut table = LockTable::new(alloc);
    let steps = [
        (1, 0, 0, Mode::Exclusive, None),
        (2, 0, 0, Mode::Exclusive, Some((2, 1))),
        (2, 0, 0, Mode::Shared, Some((2, 1))),
        (1, 0, 0, Mode::Shared, None),
        (2, 0, 1, Mode::Shared, None),
        (3, 0, 1, Mode::Shared, None),
        (1, 0, 1, Mode::Exclusive, Some((2, 2))),
    ];
    for (owner, row, column, mode, want) in steps {
        let list = on_tile(alloc, row, column, mode)?;
        assert_eq!(rt;
            ask(alloc, &mut table, list, owner)?,
            want,
            "{owner} [{row},{column}]"
        );
    }
    table.release_all(1);
    let list = on_tile(alloc, 0, 0, Mode::Exclusive)?;
    assert_eq!(rt; ask(alloc, &mut table, list, 2)?, None);
    let holders = table.holders(&collection(alloc)?);
    assert_eq!(rt; holders.len(), 2);
    Ok(())
}

/// A name by its number, an owner and its mode.
type Entry = (i64, u32, Mode);

fn is_strong(mode: Mode) -> bool {
    match mode {
        Mode::Exclusive => true,
        Mode::Shared => false,
    }
}

/// The least other owner that stands against a lock, by the account.
fn least_conflict(account: &[Entry], asked: Entry) -> Option<u32> {
    let mut least = None;
    for entry in account {
        let against = entry.0 == asked.0
            && entry.1 != asked.1
            && (is_strong(entry.2) || is_strong(asked.2));
        if against {
            least = match least {
                Some(other) if other <= entry.1 => Some(other),
                _ => Some(entry.1),
            };
        }
    }
    least
}

/// How many owners the account has for a name.
fn count_of(account: &[Entry], number: i64) -> usize {
    let mut owners = [false; 7];
    for entry in account {
        if entry.0 == number && entry.1 < 7 {
            owners[entry.1 as usize] = true;
        }
    }
    owners.iter().filter(|held| **held).count()
}

#[test]
fn a_table_agrees_with_a_plain_account(rt: HostRuntime) -> Result<(), Fail> {
    let alloc = rt.alloc();
    let mut table = LockTable::new(alloc);
    let mut account: Vec<Entry> = Vec::new(alloc);
    let mut draw: u32 = 1;
    let mut granted: u32 = 0;
    for step in 0..1_500u32 {
        draw = (draw % 30_269 * 171 + 11) % 30_269;
        let owner = 1 + draw % 6;
        let number = i64::from((draw / 6) % 40);
        let mode = if draw % 5 == 0 {
            Mode::Exclusive
        } else {
            Mode::Shared
        };
        let list = one_lock(alloc, tile(alloc, number, 0)?, mode)?;
        let told = ask(alloc, &mut table, list, owner)?.map(|found| found.1);
        let want = least_conflict(account.as_slice(), (number, owner, mode));
        assert_eq!(rt; told, want, "step {step}");
        if told.is_none() {
            account.push((number, owner, mode))?;
            granted = granted.saturating_add(1);
        }
        if step % 97 == 96 {
            table.release_all(owner);
            account.retain(|entry: &Entry| entry.1 != owner);
        }
    }
    assert!(rt; granted > 500);
    for number in 0..40i64 {
        let name = tile(alloc, number, 0)?;
        assert_eq!(rt;
            table.holders(&name).len(),
            count_of(account.as_slice(), number),
            "name {number}"
        );
    }
    Ok(())
}

#[test]
fn ten_thousand_locks_are_granted_and_released(rt: HostRuntime) -> Result<(), Fail> {
    let alloc = rt.alloc();
    let mut table = LockTable::new(alloc);
    for number in 0..10_000u32 {
        let name = tile(alloc, i64::from(number), 0)?;
        let list = one_lock(alloc, name, Mode::Exclusive)?;
        assert_eq!(rt; ask(alloc, &mut table, list, 1 + number % 100)?, None);
    }
    for (number, owner) in [(0u32, 1u32), (99, 100), (5_050, 51), (9_999, 100)] {
        let name = tile(alloc, i64::from(number), 0)?;
        let list = one_lock(alloc, name, Mode::Shared)?;
        assert_eq!(rt; ask(alloc, &mut table, list, 101)?, Some((0, owner)));
    }
    for owner in 1..101u32 {
        table.release_all(owner);
    }
    for number in [0u32, 99, 5_050, 9_999] {
        let name = tile(alloc, i64::from(number), 0)?;
        assert_eq!(rt; table.holders(&name).len(), 0);
        let list = one_lock(alloc, name, Mode::Exclusive)?;
        assert_eq!(rt; ask(alloc, &mut table, list, 101)?, None);
    }
    Ok(())
}

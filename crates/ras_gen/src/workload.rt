//! The text of a generated workload.
ghost use Rattle.std.specs.Prelude.{◌≡◌, ◌≤◌, ◌*◌, ◌++◌, IfOk, OnOk, codes, decimal, flat_map, string_bytes};
ghost use Rattle.std.specs.List.{range_with_len};
ghost use Rattle.ras_gen.specs.Draws.{draw, state_after};
ghost use Rattle.ras_gen.specs.Text.{opening, session_of, generated_text, transaction_of, transaction_text};

use crate::draws::{Draws, MAX_SEED};
use crate::square::Square;
use std::alloc::{AllocError, Global};
use std::fmt::Write;

/// The greatest size. A session then has four thousand statements and the text 1.2 million bytes,
/// well below what a workload may have.
pub const MAX_SIZE: u32 = 1_000;

/// How many sessions a workload has.
pub const SESSIONS: u32 = 8;

/// How many rows and columns the array has in which a box of 2 by 2 cells may begin.
const BEGINNINGS: u32 = 15;

/// How many values a char has.
const VALUES: u32 = 256;

/// What a transaction changes.
#[derive(Clone, Copy)]
struct Change {
    square: Square,
    value: u32,
}

/// The text of the workload of a seed and a size, with `size` transactions a session. The error is
/// want of memory.
pub fn workload_text(alloc: Global, seed: u32, size: u32) -> Result<Vec<u8>, AllocError>
    requires seed { seed ≤ MAX_SEED }
    requires at_least { 1 ≤ size }
    requires at_most { size ≤ MAX_SIZE }
    ensures { IfOk result (λ text. text.items ≡ generated_text seed size) }
{
    let mut text = opening_text(alloc)?;
    write_sessions(&mut text, &mut Draws::new(seed), size)?;
    text.push_str("#end\n")?;
    Ok(text.into_bytes())
}

/// What stands above the sessions.
#[tactic(auto, unfolding(crate::specs::Text::opening))]
fn opening_text(alloc: Global) -> Result<String, AllocError>
    ensures { IfOk result (λ text. string_bytes text ≡ opening) }
{
    String::from_str(
        alloc,
        "#rasq workload 1\n\
        #types\n\
        type GreySet = char [*:*,*:*] tiles [0:3,0:3];\n\
        #setup\n\
        create collection G GreySet;\n\
        insert into G values marray p in [0:15,0:15] values mod(16*p[0]+p[1],256);\n",
    )
}

/// Appends the sessions.
fn write_sessions(text: &mut String, draws: &mut Draws, size: u32) -> Result<(), AllocError>
    ensures { OnOk result (string_bytes text.new
        ≡ string_bytes text.old ++ flat_map (session_of draws.old.state size) (range_with_len 1 8)) }
{
    for number in 1..=SESSIONS {
        write_session(text, draws, number, size)?;
    }
    Ok(())
}

/// Appends a session's heading and its transactions, as many as the size says.
fn write_session(
    text: &mut String,
    draws: &mut Draws,
    number: u32,
    size: u32,
) -> Result<(), AllocError>
    ensures text { OnOk result (string_bytes text.new ≡ string_bytes text.old
        ++ (codes "#session s" ++ decimal number ++ codes "\n"
        ++ flat_map (transaction_of draws.old.state) (range_with_len 0 size))) }
    ensures state { OnOk result (draws.new.state ≡ state_after (3 * size) draws.old.state) }
{
    writeln!(text, "#session s{number}")?;
    write_transactions(text, draws, size)
}

/// Appends that many transactions.
fn write_transactions(text: &mut String, draws: &mut Draws, count: u32) -> Result<(), AllocError>
    ensures text { OnOk result (string_bytes text.new
        ≡ string_bytes text.old ++ flat_map (transaction_of draws.old.state) (range_with_len 0 count)) }
    ensures state { OnOk result (draws.new.state ≡ state_after (3 * count) draws.old.state) }
{
    for _ in 0..count {
        write_transaction(text, next_change(draws))?;
    }
    Ok(())
}

/// The change that the next three draws give.
#[tactic(auto, using(crate::proofs::States::first_states))]
fn next_change(draws: &mut Draws) -> Change
    ensures state { draws.new.state ≡ state_after 3 draws.old.state }
    ensures row { result.square.row ≡ draw draws.old.state 1 15 }
    ensures column { result.square.column ≡ draw draws.old.state 2 15 }
    ensures value { result.value ≡ draw draws.old.state 3 256 }
{
    let row = draws.below(BEGINNINGS);
    let column = draws.below(BEGINNINGS);
    let value = draws.below(VALUES);
    Change {
        square: Square { row, column },
        value,
    }
}

/// Appends the statements of one transaction.
fn write_transaction(text: &mut String, change: Change) -> Result<(), AllocError>
    ensures { OnOk result (string_bytes text.new
        ≡ string_bytes text.old ++ transaction_text change.square.row change.square.column change.value) }
{
    let Change { square, value } = change;
    write!(
        text,
        "begin retry 8;\n\
        update G as a set a{square} assign marray p in {square} values {value};\n\
        select add_cells(a{square}) from G as a;\n\
        commit;\n"
    )
}

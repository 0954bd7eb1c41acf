//! A box of 2 by 2 cells.
ghost use Rattle.std.specs.Prelude.{Some};

use std::fmt;

/// The box of 2 by 2 cells from a row and a column on. It is written as a region, `[4:5,11:12]`.
#[derive(Clone, Copy)]
pub struct Square {
    pub row: u32,
    pub column: u32,
}

impl fmt::Display for Square {
    ghost use Rattle.ras_gen.specs.Text.{box_text};

    ghost output = { λ square. Some (box_text square.row square.column) };

    #[tactic(auto, unfolding(crate::specs::Text::box_text))]
    fn fmt<W: fmt::Write>(&self, f: &mut fmt::Formatter<W>) -> fmt::Result {
        let Square { row, column } = *self;
        let last_row = u64::from(row) + 1;
        let last_column = u64::from(column) + 1;
        write!(f, "[{row}:{last_row},{column}:{last_column}]")
    }
}

//! The rules by which the kind of an expression follows from the kinds of its parts.
#![tactic(auto)]

mod cell_types;
mod components;
mod composites;
mod domains;
mod indexes;
mod lists;
mod names;
mod operators;
mod positions;
mod rules;
mod shifts;
mod trees;

pub use cell_types::{
    cast_type, cells_type, copy_of_type, fold_type, join_of, same_type, stores, type1_of, type2_of,
};
pub use components::{RuleFault, part_kind};
pub use composites::composite_kind;
pub use domains::{
    CheckedDomain, condense_kind, extend_kind, like_domain, literal_domain, marray_kind,
};
pub use indexes::{all_are_static, are_numbers, index_kind};
pub use lists::{choice_kind, concat_kind};
pub use names::names_of;
pub use operators::{
    binary_kind, cast_kind, folded_kind, is_scalar_bool, is_scalar_number, iterator_kind,
    sdom_kind, unary_kind,
};
pub use rules::by_rules;
pub use shifts::shift_kind;
pub use trees::is_static;

//! The words, signs and suffixes, each in one table.
ghost use Rattle.std.specs.Prelude.{◌≡◌, ◌≤◌, ◌<◌, length, map, find, option_map};
ghost use Rattle.spec_grammar.specs.Tokens as spec;
ghost use Rattle.spec_grammar.specs.Weight.{weight_of_kind};
ghost use Rattle.law_grammar.specs.Readers.{meaning_of};
ghost use Rattle.ras_parse.specs.Tables.{words_in, suffix_entries, word_entries, sign_entries};

use crate::bytes::small;
use ras_cells::{Atom, Op2};
use ras_syntax::{CellsFold, FoldOp};

/// The reserved words, in small letters.
pub const RESERVED_WORDS: [&[u8]; 66] = [
    b"select",
    b"from",
    b"where",
    b"as",
    b"insert",
    b"into",
    b"values",
    b"update",
    b"set",
    b"assign",
    b"delete",
    b"create",
    b"drop",
    b"collection",
    b"marray",
    b"in",
    b"condense",
    b"over",
    b"using",
    b"case",
    b"when",
    b"then",
    b"else",
    b"end",
    b"overlay",
    b"concat",
    b"with",
    b"along",
    b"and",
    b"or",
    b"xor",
    b"not",
    b"true",
    b"false",
    b"struct",
    b"shift",
    b"extend",
    b"sdom",
    b"oid",
    b"div",
    b"mod",
    b"abs",
    b"bit",
    b"min",
    b"max",
    b"add_cells",
    b"min_cells",
    b"max_cells",
    b"count_cells",
    b"some_cells",
    b"all_cells",
    b"bool",
    b"boolean",
    b"octet",
    b"char",
    b"short",
    b"ushort",
    b"long",
    b"ulong",
    b"wide",
    b"unsigned",
    b"begin",
    b"retry",
    b"commit",
    b"anyway",
    b"abort",
];

/// The names that only floats would need.
pub const FLOAT_NAMES: [&[u8]; 6] = [
    b"float",
    b"double",
    b"complex",
    b"avg_cells",
    b"sqrt",
    b"pow",
];

/// The signs, the longer ones first.
pub const SIGNS: [&[u8]; 18] = [
    b"!=", b"<=", b">=", b"(", b")", b"[", b"]", b"{", b"}", b",", b":", b".", b"+", b"-", b"*",
    b"=", b"<", b">",
];

/// The suffixes of numbers with the atom of each; none is the beginning of another.
pub const SUFFIXES: [(&[u8], Atom); 6] = [
    (b"c", Atom::Char),
    (b"o", Atom::Octet),
    (b"s", Atom::Short),
    (b"us", Atom::Ushort),
    (b"l", Atom::Long),
    (b"ul", Atom::Ulong),
];

/// Whether a text is this word, whatever letters it is written in; the word is in small ones.
pub fn is_word(text: &[u8], word: &[u8]) -> bool
    ensures { result ≡ spec.is_same (spec.in_small_letters text.now) word.now }
{
    if text.len() != word.len() {
        return false;
    }
    for (at, letter) in word.iter().enumerate() {
        if small(text[at]) != *letter {
            return false;
        }
    }
    true
}

fn is_word_of(mut words: &[&[u8]], text: &[u8]) -> bool
    ensures { result ≡ spec.is_one_of (words_in words.entry.now) (spec.in_small_letters text.now) }
{
    while let [word, others @ ..] = words {
        if is_word(text, word) {
            return true;
        }
        words = others;
    }
    false
}

fn is_one_of(mut names: &[&[u8]], text: &[u8]) -> bool
    ensures { result ≡ spec.is_one_of (words_in names.entry.now) text.now }
{
    while let [name, others @ ..] = names {
        if text == *name {
            return true;
        }
        names = others;
    }
    false
}

/// Whether a text is a reserved word, in any mix of large and small letters.
pub fn is_reserved(text: &[u8]) -> bool
    ensures { result ≡ spec.is_one_of spec.reserved_words (spec.in_small_letters text.now) }
{
    is_word_of(&RESERVED_WORDS, text)
}

/// Whether a text is a name that only floats would need.
pub fn is_float_name(text: &[u8]) -> bool
    ensures { result ≡ spec.is_one_of spec.float_names text.now }
{
    is_one_of(&FLOAT_NAMES, text)
}

fn sign_of(mut signs: &[&[u8]], text: &[u8]) -> Option<usize>
    ensures { result ≡ option_map length (find (λ s. spec.begins_with s text.now) (words_in signs.entry.now)) }
{
    while let [sign, others @ ..] = signs {
        if text.starts_with(sign) {
            return Some(sign.len());
        }
        signs = others;
    }
    None
}

/// How many bytes the sign takes that a text begins with; of two such signs the longer one.
pub fn sign_len(text: &[u8]) -> Option<usize>
    ensures { result ≡ option_map length (find (λ s. spec.begins_with s text.now) spec.signs) }
{
    sign_of(&SIGNS, text)
}

fn suffix_in(mut suffixes: &[(&[u8], Atom)], text: &[u8]) -> Option<(usize, Atom)>
    ensures { result ≡ option_map (λ s. (length s.0, s.1)) (find (λ s. spec.begins_with s.0 text.now) (suffix_entries suffixes.entry.now)) }
{
    while let [suffix, others @ ..] = suffixes {
        if text.starts_with(suffix.0) {
            return Some((suffix.0.len(), suffix.1));
        }
        suffixes = others;
    }
    None
}

/// How many bytes the suffix takes that a text begins with, and its atom; without a suffix a number
/// is wide.
pub fn suffix_of(text: &[u8]) -> (usize, Atom)
    ensures length { result.0 ≡ length (spec.suffix_of text.now).0 }
    ensures atom { result.1 ≡ (spec.suffix_of text.now).1 }
    ensures within { result.0 ≤ length text.now }
{
    suffix_in(&SUFFIXES, text).unwrap_or((0, Atom::Wide))
}

/// The signs that open a form and are closed by another.
pub const OPENING_SIGNS: [&[u8]; 3] = [b"(", b"[", b"{"];

/// The other signs that stand for a form which nests.
pub const NESTING_SIGNS: [&[u8]; 10] = [
    b".", b"+", b"-", b"*", b"=", b"!=", b"<", b"<=", b">", b">=",
];

/// The words that stand for a form which nests.
pub const NESTING_WORDS: [&[u8]; 9] = [
    b"not",
    b"overlay",
    b"and",
    b"or",
    b"xor",
    b"case",
    b"marray",
    b"condense",
    b"concat",
];

/// How much a reserved word weighs, in any mix of large and small letters.
pub fn weight_of_word(text: &[u8]) -> u32
    ensures weight { result ≡ weight_of_kind (spec.word (spec.in_small_letters text.now)) }
    ensures most { result ≤ 2 }
{
    if is_word_of(&NESTING_WORDS, text) {
        1
    } else {
        0
    }
}

/// How much a sign weighs.
pub fn weight_of_sign(text: &[u8]) -> u32
    ensures weight { result ≡ weight_of_kind (spec.sign text.now) }
    ensures most { result ≤ 2 }
{
    if is_one_of(&OPENING_SIGNS, text) {
        2
    } else if is_one_of(&NESTING_SIGNS, text) {
        1
    } else {
        0
    }
}

/// What signs and words stand for. The words are in small letters.
pub struct Table<A: 'static> {
    pub signs: &'static [(&'static [u8], A)],
    pub words: &'static [(&'static [u8], A)],
}

/// Whether a word, which is in small letters, is written by a text in any letters.
fn names(word: &[u8], text: &[u8]) -> bool
    ensures { result ≡ spec.is_same word.now (spec.in_small_letters text.now) }
{
    is_word(text, word)
}

/// What a word in any letters stands for.
pub fn meaning_of_word<A: Copy>(mut words: &[(&[u8], A)], text: &[u8]) -> Option<A>
    ensures { result ≡ meaning_of (word_entries words.entry.now) (spec.word (spec.in_small_letters text.now)) }
{
    while let [entry, others @ ..] = words {
        if names(entry.0, text) {
            return Some(entry.1);
        }
        words = others;
    }
    None
}

/// What a sign stands for.
pub fn meaning_of_sign<A: Copy>(mut signs: &[(&[u8], A)], text: &[u8]) -> Option<A>
    ensures { result ≡ meaning_of (sign_entries signs.entry.now) (spec.sign text.now) }
{
    while let [entry, others @ ..] = signs {
        if entry.0 == text {
            return Some(entry.1);
        }
        signs = others;
    }
    None
}

/// What `overlay` stands for.
pub const OVERLAYS: Table<Op2> = Table {
    signs: &[],
    words: &[(b"overlay", Op2::Overlay)],
};

/// The signs between the operands of a sum.
pub const SUMS: Table<Op2> = Table {
    signs: &[(b"+", Op2::Add), (b"-", Op2::Sub)],
    words: &[],
};

/// What a `condense` does with the values at its points.
pub const FOLD_OPERATORS: Table<FoldOp> = Table {
    signs: &[(b"+", FoldOp::Plus), (b"*", FoldOp::Times)],
    words: &[
        (b"min", FoldOp::Min),
        (b"max", FoldOp::Max),
        (b"and", FoldOp::And),
        (b"or", FoldOp::Or),
    ],
};

/// The words between the operands of a choice.
pub const EITHERS: Table<Op2> = Table {
    signs: &[],
    words: &[(b"or", Op2::Or), (b"xor", Op2::Xor)],
};

/// The word between operands that both hold.
pub const BOTHS: Table<Op2> = Table {
    signs: &[],
    words: &[(b"and", Op2::And)],
};

/// The signs between the two sides of a comparison.
pub const COMPARISONS: Table<Op2> = Table {
    signs: &[
        (b"=", Op2::Eq),
        (b"!=", Op2::Ne),
        (b"<", Op2::Lt),
        (b"<=", Op2::Le),
        (b">", Op2::Gt),
        (b">=", Op2::Ge),
    ],
    words: &[],
};

/// The sign between the factors of a product.
pub const PRODUCTS: Table<Op2> = Table {
    signs: &[(b"*", Op2::Mul)],
    words: &[],
};

/// What is written as a call with two operands.
pub const CALLS: Table<Op2> = Table {
    signs: &[],
    words: &[(b"div", Op2::Div), (b"mod", Op2::Mod), (b"bit", Op2::Bit)],
};

/// The words for the two truths.
pub const TRUTHS: Table<bool> = Table {
    signs: &[],
    words: &[(b"true", true), (b"false", false)],
};

/// The folds over all cells.
pub const CELLS_FOLDS: Table<CellsFold> = Table {
    signs: &[],
    words: &[
        (b"add_cells", CellsFold::Add),
        (b"min_cells", CellsFold::Min),
        (b"max_cells", CellsFold::Max),
        (b"count_cells", CellsFold::Count),
        (b"some_cells", CellsFold::AnyTrue),
        (b"all_cells", CellsFold::AllTrue),
    ],
};

/// The atoms of one word.
pub const ATOM_WORDS: Table<Atom> = Table {
    signs: &[],
    words: &[
        (b"bool", Atom::Bool),
        (b"boolean", Atom::Bool),
        (b"octet", Atom::Octet),
        (b"char", Atom::Char),
        (b"short", Atom::Short),
        (b"ushort", Atom::Ushort),
        (b"long", Atom::Long),
        (b"ulong", Atom::Ulong),
        (b"wide", Atom::Wide),
    ],
};

/// The words that may follow `unsigned`.
pub const UNSIGNED_WORDS: Table<Atom> = Table {
    signs: &[],
    words: &[(b"short", Atom::Ushort), (b"long", Atom::Ulong)],
};

/// What follows a part: `[` is told from `.`.
pub const PART_SIGNS: Table<bool> = Table {
    signs: &[(b"[", true), (b".", false)],
    words: &[],
};

//! Reserved words: the number of a symbol among the words that the reader tells apart.
ghost use Rattle.std.specs.Prelude.{◌≡◌};
ghost use Rattle.forest.specs.code.Search.{SlotsOf, joined, starts_of};
ghost use Rattle.lexemes.specs.code.Reserved.{KnownTables, first_spellings, word_number};

use crate::SYMBOL;
use crate::codes::{DECIMAL, FIRST_OPERATOR, LONG_DECIMAL};
use forest::search::{SLOTS, find_word};
use operators::operators::operator_of;
use word_kinds::decimals::{is_decimal, is_long};

// How many words there are before the operators.
const BEFORE_OPERATORS: usize = (FIRST_OPERATOR - SYMBOL) as usize;

// The number of the word of a constant, and of one of too many digits.
const CONSTANT: usize = (DECIMAL - SYMBOL) as usize;

const LONG_CONSTANT: usize = (LONG_DECIMAL - SYMBOL) as usize;

// The words before the operators, one after the other.
const NAMES: [u8; 504] =
    *b"BVfailinfeasibleset-logicdeclare-vardefine-funsynth-funconstraintcheck-synthassumeset-featurechc-constraintdeclare-weightinv-constraint\
      optimize-synthoracle-assumeoracle-constraintdeclare-oracle-funoracle-constraint-iooracle-constraint-cexoracle-constraint-membership\
      oracle-constraint-poswitnessoracle-constraint-negwitnessdeclare-correctness-oracledeclare-correctness-cex-oracledeclare-datatype\
      declare-datatypesdeclare-sortdefine-sortset-infoset-optiontruefalseBoolBitVec_!letexistsforallConstantVariable";

// Where each of them starts; the last number is where the last of them ends.
const STARTS: [usize; BEFORE_OPERATORS + 1] = [
    0, // BV
    2, // fail
    6, // infeasible
    16, // set-logic
    25, // declare-var
    36, // define-fun
    46, // synth-fun
    55, // constraint
    65, // check-synth
    76, // assume
    82, // set-feature
    93, // chc-constraint
    107, // declare-weight
    121, // inv-constraint
    135, // optimize-synth
    149, // oracle-assume
    162, // oracle-constraint
    179, // declare-oracle-fun
    197, // oracle-constraint-io
    217, // oracle-constraint-cex
    238, // oracle-constraint-membership
    266, // oracle-constraint-poswitness
    294, // oracle-constraint-negwitness
    322, // declare-correctness-oracle
    348, // declare-correctness-cex-oracle
    378, // declare-datatype
    394, // declare-datatypes
    411, // declare-sort
    423, // define-sort
    434, // set-info
    442, // set-option
    452, // true
    456, // false
    461, // Bool
    465, // BitVec
    471, // _
    472, // !
    473, // let
    476, // exists
    482, // forall
    488, // Constant
    496, // Variable
    504,
];

// In the slot of each of them its number; `~` in the others. `tools/slots` writes it.
const SLOTS_OF: [u8; SLOTS] =
    *b"~~~~~~~~~~~~~~~~~~~~~~~~~\x28~~~~~~~~~~~~~~~~~~~~~~~\x18~~~~~~~~~~~~~\x16~~~~~~~~~~~~~~\x20~~~~~~~~~~~~~~~~~~~~~~~~~~\x0b~~~~~~~~~\x01~~~~~~~~\x24~~~\
      ~~~~~\x1e~~~~~~~~~~~~~~~~~~~~~~~~~~~\x00~~~\x27~~~~\x08~~~~~~~~~~~~~~~\x23~~~~~~~~\x1f~~~~~~~~~~~~\x0c~~~~~~~~~~~\x12~~~~\x06~~~~~~~~~~~~~~~~~~~~~\x10~~~~~~~~\
      ~~~~~~~~~\x26\x07~~~~\x21\x13\x09~~~~~~~~~~~~\x0f~~~~~~~~~~~~\x1c~~~~~~~~~~~\x04~~~~\x22~~~~~~~~~~~~~~~~~\x25~~~~~~~~~~~~~~~~~~~~~~~~~~~~~~~\x03~~~~~~~~~~~\x05~\x14~~~\
      ~~~~~~~~~~~~~\x02\x0a~~~~~~~~~~~~~\x19~\x1b~~~~~~~\x1d~~~~~~~~~~~~~~~~\x1a~~~~~~~~~~~~~~~~\x11~~~~~\x0d~~~\x17~~~~~~~~~~~~~~~~~~~~~~~~\x15~~~~~\x29~~~~~~~\x0e~~~~~~";

// Words one after the other in one list of bytes, where each of them starts, and in the slot of each its number.
#[derive(Clone, Copy)]
pub(crate) struct WordTable<'a> {
    pub names: &'a [u8],
    pub starts: &'a [usize],
    pub slots: &'a [u8],
}

// The table of the words before the operators.
pub(crate) fn first_names() -> [u8; 504]
    ensures { result ≡ joined first_spellings }
{
    NAMES
}

// The table of where they start.
pub(crate) fn first_starts() -> [usize; BEFORE_OPERATORS + 1]
    ensures { result ≡ starts_of first_spellings }
{
    STARTS
}

// The table of their slots.
pub(crate) fn first_slots() -> [u8; SLOTS]
    ensures { SlotsOf first_spellings result }
{
    SLOTS_OF
}

// The number of a symbol among the known words; past the last of them where it is none, and beyond that for the word of a constant.
pub(crate) fn word_number(word: &[u8], first: WordTable, operators: WordTable) -> usize
    requires { KnownTables first operators }
    ensures { result ≡ word_number word.now }
{
    if is_decimal(word) {
        if is_long(word) {
            return LONG_CONSTANT;
        }
        return CONSTANT;
    }
    let place = find_word(first.names, first.starts, first.slots, word);
    if place < BEFORE_OPERATORS {
        return place;
    }
    BEFORE_OPERATORS + operator_of(operators.names, operators.starts, operators.slots, word)
}

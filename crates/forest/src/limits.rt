//! Numbers the checker holds to, each once.

// How many bytes and words a script may have.
pub const SCRIPT_BYTES: usize = 65536;

pub const SCRIPT_WORDS: usize = 8192;

// How many bytes and words a response may have.
pub const RESPONSE_BYTES: usize = 8192;

pub const RESPONSE_WORDS: usize = 2048;

// How many lists may stand within one another.
pub const NESTING: usize = 64;

// How many synthesized functions, `define-fun`s, variables, constraints and assumptions a script may have.
pub const FUNCTIONS: usize = 8;

pub const DEFINED: usize = 32;

pub const VARIABLES: usize = 16;

pub const CONSTRAINTS: usize = 64;

pub const ASSUMPTIONS: usize = 32;

// The number of the first assumption, behind those of constraints.
pub const FIRST_ASSUMPTION: usize = 64;

// How many arguments a function may have.
pub const ARGUMENTS: usize = 8;

// How many non-terminals and rules a grammar may have.
pub const NON_TERMINALS: usize = 16;

pub const RULES: usize = 128;

// How many nodes a body, a constraint, an assumption or a rule may have.
pub const NODES: usize = 256;

// How many numbers a list of points may have.
pub const POINT_NUMBERS: usize = 1024;

// How many entries the list of one function has, and how many the lent area.
pub const LIST: usize = NODES * NON_TERMINALS;

pub const AREA: usize = FUNCTIONS * LIST;

// An entry of the area that no list uses.
pub const UNUSED: u16 = 65535;

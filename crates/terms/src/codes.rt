//! The code and the value of a node: the kind of its label, what stands beside the kind, and the numbers of `(_ extract i j)`.
ghost use Rattle.std.specs.Prelude.{◌≡◌, ◌^◌, ◌<◌};
ghost use Rattle.terms.specs.code.Codes.{code_with, cut_value, head_of, high_in, kind_of, low_in};

// The kinds of labels.
pub const LITERAL: u64 = 0;

pub const NAME: u64 = 1;

pub const OPERATOR: u64 = 2;

pub const DEFINED: u64 = 3;

pub const FUNCTION: u64 = 4;

// The kinds of a rule's nodes, besides those of labels: a non-terminal, `(Constant σ)` and `(Variable σ)`.
pub const NON_TERMINAL: u64 = 5;

pub const ANY_LITERAL: u64 = 6;

pub const ANY_ARGUMENT: u64 = 7;

// A code is a kind, and so many times what stands beside it.
pub const KINDS: u64 = 16;

// The value of `(_ extract i j)` is so many times i, and j.
const LOWS: u64 = 64;

// The code of a kind, and of what stands beside it.
pub fn code_with(kind: u64, head: u64) -> u64
    requires { code_with kind head < 2 ^ 64 }
    ensures { result ≡ code_with kind head }
{
    kind + KINDS * head
}

// The kind in a code.
pub fn kind_of(code: u64) -> u64
    ensures { result ≡ kind_of code }
{
    code % KINDS
}

// What stands beside the kind in a code.
pub fn head_of(code: u64) -> u64
    ensures { result ≡ head_of code }
{
    code / KINDS
}

// The value of `(_ extract i j)`.
pub fn cut_value(high: u64, low: u64) -> u64
    requires { cut_value high low < 2 ^ 64 }
    ensures { result ≡ cut_value high low }
{
    LOWS * high + low
}

// The number i in the value of `(_ extract i j)`.
pub fn high_in(value: u64) -> u64
    ensures { result ≡ high_in value }
{
    value / LOWS
}

// The number j in the value of `(_ extract i j)`.
pub fn low_in(value: u64) -> u64
    ensures { result ≡ low_in value }
{
    value % LOWS
}

// What the programs that replay the lists share: what a line of calls says, and the digest of whole states.
#![tactic(auto)]

ghost use Rattle.std.specs.Prelude.{◌≡◌, ℕ, ◌%◌, ◌<◌, min};
ghost use Rattle.replay.specs.Digest.{mixed, mixed_each};
ghost use Rattle.replay.specs.Lines.{blank, longer, taken, key_number, rule_of};

use rules::Rule;

// ---- lines

// A line so far: its letter and its last three numbers, the last being c.
#[derive(Clone, Copy)]
pub struct Line {
    pub op: u8,
    pub a: u64,
    pub b: u64,
    pub c: u64,
}

// A number with a decimal digit more.
#[tactic(auto, using(std::proofs::lemmas::Bool::Decides::nat_tests))]
fn with_digit(number: u64, digit: u64) -> u64
    requires { digit < 16 }
    ensures { result ≡ longer number digit }
{
    if number <= (18_446_744_073_709_551_615 - digit) / 10 {
        number * 10 + digit
    } else {
        number
    }
}

impl Line {
    pub fn new() -> Line
        ensures { result ≡ blank }
    {
        Line {
            op: 0,
            a: 0,
            b: 0,
            c: 0,
        }
    }

    // The line with a byte more. Its newline says nothing.
    #[tactic(auto, unfolding(crate::specs::Lines::taken), using(std::proofs::lemmas::Bool::Decides::nat_tests))]
    pub fn take(self, byte: u8) -> Line
        ensures { result ≡ taken self byte }
    {
        if byte == b'\n' {
            return self;
        }
        if self.op == 0 {
            return Line { op: byte, ..self };
        }
        if byte == b' ' {
            return Line {
                a: self.b,
                b: self.c,
                c: 0,
                ..self
            };
        }
        Line {
            c: with_digit(self.c, u64::from(byte) % 16),
            ..self
        }
    }

    // The key that the last two numbers name: index and version.
    pub fn key(self) -> u64
        ensures { result ≡ key_number self.b self.c }
    {
        key_number(self.b, self.c)
    }

    // The key that stands before a value.
    pub fn key_of_value(self) -> u64
        ensures { result ≡ key_number self.a self.b }
    {
        key_number(self.a, self.b)
    }

    // The rule of a retain.
    #[tactic(auto, unfolding(crate::specs::Lines::rule_of), using(std::proofs::lemmas::Bool::Decides::nat_tests))]
    pub fn rule(self) -> Rule
        ensures { result ≡ rule_of self }
    {
        if self.op == b'v' {
            return Rule::Values {
                lo: self.b,
                hi: self.c,
            };
        }
        if self.op == b'm' {
            return Rule::Masked {
                mask: self.b,
                wanted: self.c,
            };
        }
        Rule::Indexes {
            lo: narrow(self.b),
            hi: narrow(self.c),
        }
    }
}

// A number's lower 32 bits.
pub fn narrow(x: u64) -> u32
    ensures { result ≡ x % 4294967296 }
{
    (x % 4_294_967_296) as u32
}

fn key_number(index: u64, version: u64) -> u64
    ensures { result ≡ key_number index version }
{
    version % 4_294_967_296 * 4_294_967_296 + index % 4_294_967_296
}

// As much as is wanted, of what there is.
pub fn least(wanted: usize, there: usize) -> usize
    ensures { result ≡ min wanted there }
{
    wanted.min(there)
}

// ---- digests

// The digest with a number more.
#[tactic(auto, unfolding(crate::specs::Digest::mixed))]
pub fn mix(h: u64, x: u64) -> u64
    ensures { result ≡ mixed h x }
{
    let sum = h.wrapping_add(x);
    let a = sum.wrapping_add(0x9e37_79b9_7f4a_7c15);
    let b = a ^ (a << 13);
    let c = b ^ (b >> 7);
    c ^ (c << 17)
}

// A number that fits in 64 bits.
pub trait Wide: Copy {
    ghost wide: { Self → ℕ };

    fn wide(self) -> u64
        ensures { result ≡ wide self };
}

impl Wide for u8 {
    ghost wide = { λ x. x };

    fn wide(self) -> u64 {
        u64::from(self)
    }
}

impl Wide for u32 {
    ghost wide = { λ x. x };

    fn wide(self) -> u64 {
        u64::from(self)
    }
}

impl Wide for u64 {
    ghost wide = { λ x. x };

    fn wide(self) -> u64 {
        self
    }
}

// The digest with a list of numbers more.
pub fn mix_all<T: Wide>(h: u64, list: &[T]) -> u64
    ensures { result ≡ mixed_each T.wide h list.now }
{
    let mut d = h;
    for x in list {
        d = mix(d, x.wide());
    }
    d
}

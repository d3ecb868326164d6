// The fields of a script's line: a space and a decimal number after it. A number is read up to a limit, so one reader serves both widths.
#![tactic(auto)]

ghost use Rattle.std.specs.Prelude.{◌≡◌, get_or};
ghost use Rattle.text.specs.Text.{digit_of};
ghost use Rattle.fields.specs.Fields.{number_at, field_at};

// A number that stands at a place of a line, and the place after it.
#[derive(Clone, Copy)]
pub struct Number {
    pub value: u64,
    pub next: usize,
}

// The digit at a place of a line; 10 where there is none.
#[tactic(auto, unfolding(text::specs::Text::digit_of), using(std::proofs::lemmas::Bool::Decides::nat_tests))]
fn digit_at(line: &[u8], i: usize) -> u64
    ensures { result ≡ digit_of (get_or line.now i 0) }
{
    if line.len() <= i {
        return 10;
    }
    let b = line[i];
    if b < b'0' {
        return 10;
    }
    if b'9' < b {
        return 10;
    }
    (b - b'0') as u64
}

// The number at a place of a line, up to a limit. The loop counts by hand: the place where the digits end is part of the answer.
fn number_at(line: &[u8], at: usize, limit: u64) -> Option<Number>
    ensures { result ≡ number_at limit line.now at }
{
    let first = digit_at(line, at);
    let mut d = first;
    let mut i = at;
    let mut v: u64 = 0;
    while d < 10 {
        if limit < d {
            return None;
        }
        if (limit - d) / 10 < v {
            return None;
        }
        v = v * 10 + d;
        i += 1;
        d = digit_at(line, i);
    }
    if i == at {
        return None;
    }
    if first == 0 {
        if 1 < i - at {
            return None;
        }
    }
    Some(Number { value: v, next: i })
}

// A space at a place of a line, and a number after it.
#[tactic(auto, unfolding(crate::specs::Fields::field_at), using(std::proofs::lemmas::Bool::Decides::nat_tests))]
pub fn field(line: &[u8], at: usize, limit: u64) -> Option<Number>
    ensures { result ≡ field_at limit line.now at }
{
    if line.len() <= at {
        return None;
    }
    if line[at] == b' ' {
        number_at(line, at + 1, limit)
    } else {
        None
    }
}

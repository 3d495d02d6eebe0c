// The signed words of a frame, as literals, as numbers, as names of clauses. No other crate looks at a sign.
#![tactic(auto)]

ghost use Rattle.std.specs.Prelude.{◌≡◌, true, cond, ◌≤◌, pos, nat_abs, neg_ℤ};
ghost use Rattle.rules.specs.Terms.{in_range, same};
ghost use Rattle.rules.specs.Frames as paper;
ghost use Rattle.lit.specs.Signs.{is_natural};

// The sign decides the polarity.
pub fn is_not_negative(l: i32) -> bool
    ensures { result ≡ is_natural l }
{
    0 <= l
}

// By negation, so only after the range is checked: -2147483648 has no opposite.
pub fn opposite(l: i32) -> i32
    requires { in_range 2048 l ≡ true }
    ensures { result ≡ neg_ℤ l }
{
    -l
}

// The literal of a variable, with a minus or without.
pub fn literal_of(v: u64, minus: bool) -> i32
    requires { v ≤ 2048 }
    ensures { result ≡ cond minus (neg_ℤ (pos v)) (pos v) }
{
    let l = v as i32;
    if minus { -l } else { l }
}

pub fn variable(l: i32) -> usize
    requires { nat_abs l ≤ 2048 }
    ensures { result ≡ nat_abs l }
{
    l.unsigned_abs() as usize
}

// Past 2,048 on either side comes first: no word is negated before that.
pub fn in_range(vars: usize, l: i32) -> bool
    requires { vars ≤ 2048 }
    ensures { result ≡ in_range vars l }
{
    if l < -2048 {
        return false;
    }
    if 2048 < l {
        return false;
    }
    let v = variable(l);
    if v == 0 {
        return false;
    }
    v <= vars
}

// A word as an id or a count: a negative word is 0.
pub fn number(x: i32) -> usize
    ensures { (result ≡ paper.number x) × (result ≤ 2147483647) }
{
    usize::try_from(x).unwrap_or(0)
}

// The word names the clause of this id.
pub fn names(x: i32, id: u32) -> bool
    ensures { result ≡ same x (pos id) }
{
    u32::try_from(x).is_ok_and(|named| named == id)
}

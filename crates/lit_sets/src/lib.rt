// An assignment as 32 words of 64 bits, and a set of literals as two such arrays. One variable or literal more is written in place: by value, all 32 words
// would be copied each time.
#![tactic(auto)]

ghost use Rattle.std.specs.Prelude.{◌≡◌, true, ◌≤◌, length, replicate};
ghost use Rattle.std.specs.Int.Bits.{bit_xor};
ghost use Rattle.rules.specs.Lists.{all_pass};
ghost use Rattle.rules.specs.Terms.{in_range, opposes, upd, lit};
ghost use Rattle.rules.specs.Propagation as paper;
ghost use Rattle.rules.specs.Frames.{make, offered};
ghost use Rattle.rules.specs.Answers.{differing};
ghost use Rattle.lit.specs.Signs.{is_natural};
ghost use Rattle.lit_sets.specs.Words.{ones_below, assigned, set_of, literals};

pub fn value(words: &[u64; 32], v: usize) -> bool
    requires { (1 ≤ v) × (v ≤ 2048) }
    ensures { result ≡ assigned words.now v }
{
    let i = v - 1;
    let w = words[i / 64];
    (w >> (i % 64)) % 2 == 1
}

// Does nothing: its promise says that an array has its 32 words, which is not known of one behind a `&mut`.
fn is_whole(words: [u64; 32])
    ensures { length words ≡ 32 }
{}

pub fn set_to(words: &mut [u64; 32], v: usize, b: bool)
    requires { (1 ≤ v) × (v ≤ 2048) }
    ensures { assigned words.new ≡ upd (assigned words.old) v b }
{
    is_whole(*words);
    if value(words, v) == b {
        return;
    }
    let i = v - 1;
    let j = i / 64;
    words[j] = words[j] ^ (1 << (i % 64));
}

pub fn is_true(words: &[u64; 32], l: i32) -> bool
    requires { in_range 2048 l ≡ true }
    ensures { result ≡ lit (assigned words.now) l }
{
    value(words, lit::variable(l)) == lit::is_not_negative(l)
}

// All the literals of w become true, one after the other.
pub fn make_true(words: [u64; 32], w: &[i32]) -> [u64; 32]
    requires { all_pass (in_range 2048) w.now ≡ true }
    ensures { assigned result ≡ make (assigned words) w.now }
{
    let mut out = words;
    for &l in w {
        set_to(&mut out, lit::variable(l), lit::is_not_negative(l));
    }
    out
}

// The assignment that a list of true variables offers.
pub fn offer(vs: &[i32]) -> [u64; 32]
    requires { (all_pass (in_range 2048) vs.now ≡ true) × (all_pass is_natural vs.now ≡ true) }
    ensures { assigned result ≡ offered vs.now }
{
    make_true([0u64; 32], vs)
}

fn bits_apart(x: u64, y: u64) -> usize
    ensures { result ≡ ones_below (bit_xor x y) 64 }
{
    u64::count_ones(x ^ y) as usize
}

// How many variables differ, counted a word at a time.
pub fn changed(a: &[u64; 32], b: &[u64; 32]) -> usize
    ensures { result ≡ differing (assigned a.now) (assigned b.now) 2048 }
{
    let mut n: usize = 0;
    for i in 0..32 {
        n += bits_apart(a[i], b[i]);
    }
    n
}

// A set of literals: the variables of the positive ones, and of the negative ones.
#[derive(Clone, Copy)]
pub struct LitSet {
    pub plus: [u64; 32],
    pub minus: [u64; 32],
}

// The sign picks the array, the variable the bit.
fn within(plus: &[u64; 32], minus: &[u64; 32], l: i32) -> bool
    requires { in_range 2048 l ≡ true }
    ensures { result ≡ set_of plus.now minus.now l }
{
    let v = lit::variable(l);
    if lit::is_not_negative(l) {
        return value(plus, v);
    }
    value(minus, v)
}

impl LitSet {
    pub fn empty() -> LitSet
        ensures { (result.plus ≡ replicate 32 0) × (result.minus ≡ replicate 32 0) }
    {
        LitSet {
            plus: [0u64; 32],
            minus: [0u64; 32],
        }
    }

    pub fn has(&self, l: i32) -> bool
        requires { in_range 2048 l ≡ true }
        ensures { result ≡ literals self.now l }
    {
        within(&self.plus, &self.minus, l)
    }

    // The set holds the opposite of l.
    pub fn has_opposite(&self, l: i32) -> bool
        requires { in_range 2048 l ≡ true }
        ensures { result ≡ opposes (literals self.now) l }
    {
        within(&self.minus, &self.plus, l)
    }

    // The set takes up l.
    pub fn insert(&mut self, l: i32)
        requires { in_range 2048 l ≡ true }
        ensures { literals self.new ≡ paper.also l (literals self.old) }
    {
        let v = lit::variable(l);
        if lit::is_not_negative(l) {
            set_to(&mut self.plus, v, true);
        } else {
            set_to(&mut self.minus, v, true);
        }
    }

    // The set of the opposites.
    pub fn opposites(self) -> LitSet
        ensures { (result.plus ≡ self.minus) × (result.minus ≡ self.plus) }
    {
        let plus = self.minus;
        let minus = self.plus;
        LitSet { plus, minus }
    }
}
